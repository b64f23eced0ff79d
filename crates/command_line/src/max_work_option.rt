//! The option `--max-work N`, a budget for the work of a query.

ghost use Rattle.std.specs.Prelude.{◌≡◌, codes};
ghost use Rattle.clap.specs.Words.{found_of, one_of, rows_of};
ghost use Rattle.command_line.specs.MaxWorkOption.{max_work_rule};
ghost use Rattle.command_line.specs.Numbers.{IsNumberOrNone};
ghost use Rattle.command_line.specs.internal.Commands.{argument_rule};

use crate::arguments::{Argument, Place, Value};
use clap::ArgMatches;

const MAX_WORK: &str = "max-work";

const MAX_WORK_HELP: &str =
    "Most work for a query: 1 for a byte of the answer, 100 for a step; no limit if it isn't given";

/// The option, as `clap` is told of it.
pub(crate) fn max_work_option() -> Argument
    ensures { argument_rule result ≡ max_work_rule }
{
    Argument {
        name: MAX_WORK,
        help: MAX_WORK_HELP,
        place: Place::Option { value_name: "N" },
        value: Value::U64,
    }
}

/// The most work, where the matches have a number for it. With 0 each query is refused that isn't free: one that has a
/// statement.
pub(crate) fn max_work_of(matches: &ArgMatches<'_>) -> Option<u64>
    ensures { IsNumberOrNone 64 (one_of (codes "max-work") (rows_of (found_of matches.now)))
        result }
{
    matches.get_one::<u64>(MAX_WORK)
}

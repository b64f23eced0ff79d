//! The option `--max-size BYTES`, a limit on what is read.

ghost use Rattle.std.specs.Prelude.{◌≡◌, codes};
ghost use Rattle.clap.specs.Words.{found_of, one_of, rows_of};
ghost use Rattle.command_line.specs.MaxSizeOption.{max_size_rule};
ghost use Rattle.command_line.specs.Numbers.{IsNumberOrNone};
ghost use Rattle.command_line.specs.internal.Commands.{argument_rule};

use crate::arguments::{Argument, Place, Value};
use clap::ArgMatches;

const MAX_SIZE: &str = "max-size";

const MAX_SIZE_HELP: &str =
    "Most bytes of the answer, and of the proof; no limit if it isn't given";

/// The option, as `clap` is told of it.
pub(crate) fn max_size_option() -> Argument
    ensures { argument_rule result ≡ max_size_rule }
{
    Argument {
        name: MAX_SIZE,
        help: MAX_SIZE_HELP,
        place: Place::Option {
            value_name: "BYTES",
        },
        value: Value::U64,
    }
}

/// The most bytes, where the matches have a number for them.
pub(crate) fn max_size_of(matches: &ArgMatches<'_>) -> Option<u64>
    ensures { IsNumberOrNone 64 (one_of (codes "max-size") (rows_of (found_of matches.now)))
        result }
{
    matches.get_one::<u64>(MAX_SIZE)
}

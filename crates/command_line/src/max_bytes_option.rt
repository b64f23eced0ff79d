//! The option `--max-bytes BYTES`, a limit on what a query reads of a pack.

ghost use Rattle.std.specs.Prelude.{◌≡◌, codes};
ghost use Rattle.clap.specs.Words.{found_of, one_of, rows_of};
ghost use Rattle.command_line.specs.MaxBytesOption.{max_bytes_rule};
ghost use Rattle.command_line.specs.Numbers.{IsNumberOrNone};
ghost use Rattle.command_line.specs.internal.Commands.{argument_rule};

use crate::arguments::{Argument, Place, Value};
use clap::ArgMatches;

const MAX_BYTES: &str = "max-bytes";

const MAX_BYTES_HELP: &str =
    "Most bytes of nodes that the query may read; 1073741824 if it isn't given";

/// The option, as `clap` is told of it.
pub(crate) fn max_bytes_option() -> Argument
    ensures { argument_rule result ≡ max_bytes_rule }
{
    Argument {
        name: MAX_BYTES,
        help: MAX_BYTES_HELP,
        place: Place::Option {
            value_name: "BYTES",
        },
        value: Value::U64,
    }
}

/// The most bytes, where the matches have a number for them.
pub(crate) fn max_bytes_of(matches: &ArgMatches<'_>) -> Option<u64>
    ensures { IsNumberOrNone 64 (one_of (codes "max-bytes") (rows_of (found_of matches.now)))
        result }
{
    matches.get_one::<u64>(MAX_BYTES)
}

//! Where a server listens, and how many connections it serves: a port, and the option `--connections N`.

ghost use Rattle.std.specs.Prelude.{◌≡◌, codes};
ghost use Rattle.clap.specs.Words.{found_of, one_of, rows_of};
ghost use Rattle.command_line.specs.ListenOptions.{connections_rule, port_rule};
ghost use Rattle.command_line.specs.Numbers.{IsNumber};
ghost use Rattle.command_line.specs.internal.Commands.{argument_rule};

use crate::arguments::{Argument, Place, Value};
use clap::ArgMatches;

/// What a command's help says of a port to listen on.
const PORT_HELP: &str = "Port to listen on; 0 takes any that is free";

const CONNECTIONS: &str = "connections";

const CONNECTIONS_HELP: &str = "Number of connections to serve; 4294967295 if it isn't given";

/// The argument of this name, a port to listen on.
pub(crate) fn port_argument(name: &'static str) -> Argument
    ensures { argument_rule result ≡ port_rule name.now }
{
    Argument {
        name,
        help: PORT_HELP,
        place: Place::Positional,
        value: Value::U16,
    }
}

/// The option `--connections N`, as `clap` is told of it.
pub(crate) fn connections_option() -> Argument
    ensures { argument_rule result ≡ connections_rule }
{
    Argument {
        name: CONNECTIONS,
        help: CONNECTIONS_HELP,
        place: Place::Option { value_name: "N" },
        value: Value::U32,
    }
}

/// The port that the matches have for the argument.
pub(crate) fn port_of(matches: &ArgMatches<'_>, argument: &str) -> u16
    ensures { IsNumber 16 0 (one_of argument.now (rows_of (found_of matches.now))) result }
{
    matches.get_one::<u16>(argument).unwrap_or(0)
}

/// The number of connections in the matches, the greatest where they have none.
pub(crate) fn connections_of(matches: &ArgMatches<'_>) -> u32
    ensures { IsNumber 32 4294967295 (one_of (codes "connections") (rows_of (found_of matches.now))) result }
{
    matches.get_one::<u32>(CONNECTIONS).unwrap_or(u32::MAX)
}

//! The options `--edition 1|2` and `--sequence N`, which tell the edition of a root.

ghost use Rattle.std.specs.Prelude.{◌≡◌, IfErr, IfOk, codes};
ghost use Rattle.clap.specs.Words.{first_of, found_of, one_of, rows_of};
ghost use Rattle.command_line.specs.EditionOptions.{AsksForEdition, IsBadEdition, IsSequence, edition_rule, sequence_rule};
ghost use Rattle.command_line.specs.internal.Commands.{argument_rule};

use crate::arguments::{Argument, Place, Value};
use crate::words_fault::WordsFault;
use clap::ArgMatches;
use osm_keys::Edition;

const EDITION: &str = "edition";

const EDITION_HELP: &str =
    "Edition of the root: 1, or 2 with a sequence number; 2 if it isn't given";

const SEQUENCE: &str = "sequence";

const SEQUENCE_HELP: &str =
    "Sequence number of an edition 2 root, 0 if it isn't given; has no effect with '--edition 1'";

/// The option `--edition`.
// The word is read as text: no definition can name the place of the names that `ValueParser::Names` borrows.
pub(crate) fn edition_option() -> Argument
    ensures { argument_rule result ≡ edition_rule }
{
    Argument {
        name: EDITION,
        help: EDITION_HELP,
        place: Place::Option {
            value_name: "EDITION",
        },
        value: Value::AnyText,
    }
}

/// The option `--sequence`.
pub(crate) fn sequence_option() -> Argument
    ensures { argument_rule result ≡ sequence_rule }
{
    Argument {
        name: SEQUENCE,
        help: SEQUENCE_HELP,
        place: Place::Option { value_name: "N" },
        value: Value::U64,
    }
}

/// The edition that the matches ask for: the second, where they don't say. `BadEdition` where the word after
/// `--edition` is neither `1` nor `2`.
pub(crate) fn edition_of(matches: &ArgMatches<'_>) -> Result<Edition, WordsFault>
    ensures asked { IfOk result (AsksForEdition (first_of (codes "edition") (rows_of (found_of matches.now)))
        (one_of (codes "sequence") (rows_of (found_of matches.now)))) }
    ensures refused { IfErr result (λ fault. (fault ≡ WordsFault.BadEdition)
        × IsBadEdition (first_of (codes "edition") (rows_of (found_of matches.now)))) }
{
    match matches.get_str(EDITION).unwrap_or("2") {
        "1" => Ok(Edition::One),
        "2" => Ok(Edition::Two {
            sequence: sequence_of(matches),
        }),
        _ => Err(WordsFault::BadEdition),
    }
}

/// The sequence number in the matches, 0 where they have none.
fn sequence_of(matches: &ArgMatches<'_>) -> u64
    ensures { IsSequence (one_of (codes "sequence") (rows_of (found_of matches.now))) result }
{
    matches.get_one::<u64>(SEQUENCE).unwrap_or(0)
}

//! The argument ROOT: a root in hexadecimal digits.

ghost use Rattle.std.specs.Prelude.{◌≡◌, ◌↔◌, ◌⊎◌, IfErr, IfOk, IfSome, IsSome, Ok, OnOk, codes};
ghost use Rattle.clap.specs.Words.{found_of, rows_of};
ghost use Rattle.hex.specs.Hex.{decode_of};
ghost use Rattle.command_line.specs.Arguments.{text_of};
ghost use Rattle.command_line.specs.RootArgument.{IsRootText};

use crate::arguments::{Argument, Place, Value, text_of};
use crate::words_fault::WordsFault;
use clap::ArgMatches;
use hex::FromHex;
use std::alloc::Global;
use tree_node::Digest;

/// The root of a set.
pub(crate) const ROOT: Argument = Argument {
    name: "ROOT",
    help: "Root of the set: 64 hexadecimal digits, from the publisher",
    place: Place::Positional,
    value: Value::AnyText,
};

/// The root in the matches. `BadRoot` where ROOT isn't 64 hexadecimal digits.
pub(crate) fn root_of(alloc: Global, matches: &ArgMatches<'_>) -> Result<Digest, WordsFault>
    ensures decoded { IfOk result
        (λ root. decode_of (text_of (codes "ROOT") (rows_of (found_of matches.now))) ≡ Ok root.0) }
    ensures digits { OnOk result (IsRootText (text_of (codes "ROOT") (rows_of (found_of matches.now)))) }
    ensures refused { IfErr result (λ fault. (fault ≡ WordsFault.Memory)
        ⊎ ((fault ≡ WordsFault.BadRoot)
        × ¬ (IsRootText (text_of (codes "ROOT") (rows_of (found_of matches.now)))))) }
{
    let digits = text_of(alloc, matches, ROOT)?;
    match root_from(digits.as_str()) {
        Some(root) => Ok(Digest(root)),
        None => Err(WordsFault::BadRoot),
    }
}

/// The 32 bytes that 64 hexadecimal digits tell, of either case.
fn root_from(digits: &str) -> Option<[u8; 32]>
    ensures value { IfSome result (λ root. decode_of digits.now ≡ Ok root) }
    ensures found { IsSome result ↔ IsRootText digits.now }
{
    <[u8; 32] as FromHex>::from_hex(digits).ok()
}

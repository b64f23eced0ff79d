//! Lines that are refused, and what the program prints of them.

use super::{ROOT, words_of};
use command_line::read_words;
use std::alloc::Global;
use std::process::Abort;
use std::test::Fail;

/// What the program tells of the words.
fn refused(rt: &impl Abort, alloc: Global, line: &str) -> Result<String, Fail> {
    match read_words(alloc, words_of(alloc, line)?) {
        Ok(job) => panic!(rt; "{line}: {job:?}"),
        Err(fault) => Ok(format!(in alloc; "{fault}")?),
    }
}

/// Words that `clap` takes and that ask for nothing. Where two of them are wrong, ROOT is told. More of them are in
/// tests/system/words_rows_test.py, which shows what the program tells.
const REFUSED: [(&str, &str); 4] = [
    ("m ask q --form yaml", "bad form"),
    ("m fetch --form= -- -x h:1 q", "bad root"),
    ("m query 00 p q --form yaml", "bad root"),
    (
        "m serve a 80 --edition 1 --changes b --strict-changes",
        "bad edition",
    ),
];

#[test]
fn refuses_words(rt: HostRuntime) -> Result<(), Fail> {
    for (line, want) in REFUSED {
        let told = refused(&rt, rt.alloc(), line)?;
        assert_eq!(rt; told.as_str(), want, "{line}");
    }
    Ok(())
}

/// A command, and words after it and a root of 64 digits, with a bad form.
const BAD_FORMS: [(&str, &str); 7] = [
    ("fetch", "h:1 q --form yaml"),
    ("fetch", "h:1 q --form="),
    ("fetch", "h:1 q --form Json"),
    ("fetch", "h:1 q --form x --max-size 9"),
    ("query", "p q --form yaml"),
    ("query", "p q --form="),
    ("query", "p q --form OPL --max-bytes 9"),
];

#[test]
fn refuses_forms_after_a_root(rt: HostRuntime) -> Result<(), Fail> {
    for (command, words) in BAD_FORMS {
        let line = format!(in rt.alloc(); "m {command} {ROOT} {words}")?;
        let told = refused(&rt, rt.alloc(), &line)?;
        assert_eq!(rt; told.as_str(), "bad form", "{line}");
    }
    Ok(())
}

/// Words that `clap` refuses, and how its text begins. More of them are there too.
const OF_CLAP: [(&str, &str); 3] = [
    ("m fetch a b", "error: the following required arguments"),
    (
        "m query a b c --max-bytes 18446744073709551616",
        "error: invalid value '18446744073709551616' for '--max-bytes <BYTES>'",
    ),
    (
        "m serve a 80 --strict-changes=true",
        "error: unexpected value 'true' for '--strict-changes' found",
    ),
];

#[test]
fn clap_refuses_words(rt: HostRuntime) -> Result<(), Fail> {
    for (line, begins) in OF_CLAP {
        let told = refused(&rt, rt.alloc(), line)?;
        assert!(rt; told.as_str().starts_with(begins), "{line}: {told}");
    }
    Ok(())
}

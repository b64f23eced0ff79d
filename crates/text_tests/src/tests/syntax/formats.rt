//! Rows of settings: the format that they ask for.

use ql_syntax::{Format, asked_format};
use std::alloc::AllocError;

/// Texts, and the format that their settings ask for, whatever follows these.
const FORMATS: [(&str, Option<Format>); 22] = [
    ("", None),
    ("node;", None),
    ("[out:json];", Some(Format::Json)),
    ("[out:xml];", Some(Format::Xml)),
    ("[timeout:25];node;", None),
    ("[out:json][timeout:25];node;out;", Some(Format::Json)),
    ("[timeout:25][out:xml];", Some(Format::Xml)),
    // of several the last
    ("[out:json][out:xml];", Some(Format::Xml)),
    ("[out:xml][out:json];", Some(Format::Json)),
    (
        "[out:json][timeout:5][out:xml][maxsize:9];",
        Some(Format::Xml),
    ),
    // blanks and comments
    (" /* a */ [ out : xml ] ;", Some(Format::Xml)),
    ("// [out:json];\nnode;", None),
    // a key and a value that are named so
    ("node[out=json];", None),
    // what follows is no query
    ("[out:json];node(", Some(Format::Json)),
    ("[out:json];[out:xml];", Some(Format::Json)),
    // settings that aren't read
    ("[out:json]node;", None),
    ("[out:json", None),
    ("[out:json][out:csv];", None),
    ("[out:Json];", None),
    ("[out:jsonl];", None),
    ("[out];", None),
    ("[out:json][bbox:1,2,3,4];", None),
];

#[test]
fn asks_for_formats(rt: HostRuntime) -> Result<(), AllocError> {
    for (text, wanted) in &FORMATS {
        let found = asked_format(text.as_bytes());
        assert!(rt; found == *wanted, "{text}: {found:?}");
    }
    Ok(())
}

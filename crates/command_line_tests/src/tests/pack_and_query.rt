//! Lines of `pack` and of `query`.

use super::are_shown;
use super::fetch_and_relay::{Row, is_row};
use std::test::Fail;

pub(super) const PACK: [(&str, &str); 8] = [
    (
        "m pack --compact 5.head a.pack --memory 9",
        "Pack { file: \"5.head\", pack_file: \"a.pack\", add: false, compact: true, memory: 9, temp: None, edition: Two { sequence: 0 } }",
    ),
    (
        "m pack --add 5.opl a.pack",
        "Pack { file: \"5.opl\", pack_file: \"a.pack\", add: true, compact: false, memory: 1073741824, temp: None, edition: Two { sequence: 0 } }",
    ),
    (
        "m pack a.opl a.pack",
        "Pack { file: \"a.opl\", pack_file: \"a.pack\", add: false, compact: false, memory: 1073741824, temp: None, edition: Two { sequence: 0 } }",
    ),
    (
        "m pack --sequence 7 a.opl a.pack --edition 2 --memory 5",
        "Pack { file: \"a.opl\", pack_file: \"a.pack\", add: false, compact: false, memory: 5, temp: None, edition: Two { sequence: 7 } }",
    ),
    (
        "m pack a.opl --edition=1 --temp /t a.pack",
        "Pack { file: \"a.opl\", pack_file: \"a.pack\", add: false, compact: false, memory: 1073741824, temp: Some(\"/t\"), edition: One }",
    ),
    (
        "m pack --memory=18446744073709551615 --temp= a b",
        "Pack { file: \"a\", pack_file: \"b\", add: false, compact: false, memory: 18446744073709551615, temp: Some(\"\"), edition: Two { sequence: 0 } }",
    ),
    (
        "m pack a --memory 0 b --temp .",
        "Pack { file: \"a\", pack_file: \"b\", add: false, compact: false, memory: 0, temp: Some(\".\"), edition: Two { sequence: 0 } }",
    ),
    (
        "m pack -- -a -b",
        "Pack { file: \"-a\", pack_file: \"-b\", add: false, compact: false, memory: 1073741824, temp: None, edition: Two { sequence: 0 } }",
    ),
];

#[test]
fn reads_pack(rt: HostRuntime) -> Result<(), Fail> {
    are_shown(&rt, rt.alloc(), &PACK)
}

pub(super) const QUERY: [Row; 5] = [
    Row {
        before: "query",
        after: "a.pack q",
        name: "Query",
        fields: "place: \"a.pack\", query: \"q\", form: Opl, max_bytes: None, max_work: None",
    },
    Row {
        before: "query --form json",
        after: "a.pack q --max-bytes 9",
        name: "Query",
        fields: "place: \"a.pack\", query: \"q\", form: Json, max_bytes: Some(9), max_work: None",
    },
    Row {
        before: "query --max-bytes=18446744073709551615",
        after: "p q --form=xml --max-work 0",
        name: "Query",
        fields: "place: \"p\", query: \"q\", form: Xml, max_bytes: Some(18446744073709551615), max_work: Some(0)",
    },
    Row {
        before: "query --max-work 18446744073709551615",
        after: "p q --max-bytes=0",
        name: "Query",
        fields: "place: \"p\", query: \"q\", form: Opl, max_bytes: Some(0), max_work: Some(18446744073709551615)",
    },
    Row {
        before: "query --",
        after: "p --form",
        name: "Query",
        fields: "place: \"p\", query: \"--form\", form: Opl, max_bytes: None, max_work: None",
    },
];

#[test]
fn reads_query(rt: HostRuntime) -> Result<(), Fail> {
    for row in &QUERY {
        is_row(&rt, rt.alloc(), row)?;
    }
    Ok(())
}

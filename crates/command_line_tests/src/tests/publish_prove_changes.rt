//! Lines of `publish`, `prove` and `changes`, with editions and sequence numbers.

use super::are_shown;
use std::test::Fail;

const OVER_FILES: [(&str, &str); 4] = [
    (
        "m prove a.opl b c d",
        "Prove { file: \"a.opl\", query_file: \"b\", answer_file: \"c\", proof_file: \"d\", edition: Two { sequence: 0 } }",
    ),
    (
        "m prove --sequence 7 a.opl b --edition 2 c d",
        "Prove { file: \"a.opl\", query_file: \"b\", answer_file: \"c\", proof_file: \"d\", edition: Two { sequence: 7 } }",
    ),
    (
        "m prove a.opl b c d --edition=1",
        "Prove { file: \"a.opl\", query_file: \"b\", answer_file: \"c\", proof_file: \"d\", edition: One }",
    ),
    (
        "m publish -- -",
        "Publish { file: \"-\", edition: Two { sequence: 0 } }",
    ),
];

#[test]
fn reads_the_commands_over_files(rt: HostRuntime) -> Result<(), Fail> {
    are_shown(&rt, rt.alloc(), &OVER_FILES)
}

const EDITIONS: [(&str, &str); 8] = [
    (
        "m publish a.opl",
        "Publish { file: \"a.opl\", edition: Two { sequence: 0 } }",
    ),
    (
        "m publish a.opl --edition 1",
        "Publish { file: \"a.opl\", edition: One }",
    ),
    (
        "m publish a.opl --edition 2",
        "Publish { file: \"a.opl\", edition: Two { sequence: 0 } }",
    ),
    (
        "m publish a.opl --edition=2 --sequence=7",
        "Publish { file: \"a.opl\", edition: Two { sequence: 7 } }",
    ),
    (
        "m publish a.opl --sequence 18446744073709551615 --edition 2",
        "Publish { file: \"a.opl\", edition: Two { sequence: 18446744073709551615 } }",
    ),
    (
        "m publish a.opl --edition 2 --sequence +7",
        "Publish { file: \"a.opl\", edition: Two { sequence: 7 } }",
    ),
    (
        "m publish a.opl --edition 1 --sequence 7",
        "Publish { file: \"a.opl\", edition: One }",
    ),
    (
        "m publish a.opl --sequence 7",
        "Publish { file: \"a.opl\", edition: Two { sequence: 7 } }",
    ),
];

#[test]
fn reads_editions(rt: HostRuntime) -> Result<(), Fail> {
    are_shown(&rt, rt.alloc(), &EDITIONS)
}

pub(super) const CHANGES: [(&str, &str); 5] = [
    (
        "m changes a.opl 7 8.opl",
        "Changes { file: \"a.opl\", sequence: 7, change_file: \"8.opl\" }",
    ),
    (
        "m changes a.opl 0 a.opl",
        "Changes { file: \"a.opl\", sequence: 0, change_file: \"a.opl\" }",
    ),
    (
        "m changes a +7 b",
        "Changes { file: \"a\", sequence: 7, change_file: \"b\" }",
    ),
    (
        "m changes a 18446744073709551615 b",
        "Changes { file: \"a\", sequence: 18446744073709551615, change_file: \"b\" }",
    ),
    (
        "m changes -- -a 7 -b",
        "Changes { file: \"-a\", sequence: 7, change_file: \"-b\" }",
    ),
];

#[test]
fn reads_changes(rt: HostRuntime) -> Result<(), Fail> {
    are_shown(&rt, rt.alloc(), &CHANGES)
}

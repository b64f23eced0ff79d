//! Lines of `serve`.

use super::are_shown;
use std::test::Fail;

const SERVE: [(&str, &str); 12] = [
    (
        "m serve a.opl 80",
        "Serve { file: \"a.opl\", port: 80, connections: 4294967295, max_work: None, edition: Two { sequence: 0 }, changes: None, strict_changes: false }",
    ),
    (
        "m serve a.opl 65535 --connections 1 --edition 2 --sequence 7",
        "Serve { file: \"a.opl\", port: 65535, connections: 1, max_work: None, edition: Two { sequence: 7 }, changes: None, strict_changes: false }",
    ),
    (
        "m serve a.opl 0 --edition=1 --connections=4294967295",
        "Serve { file: \"a.opl\", port: 0, connections: 4294967295, max_work: None, edition: One, changes: None, strict_changes: false }",
    ),
    (
        "m serve a.opl +8080 --connections 0",
        "Serve { file: \"a.opl\", port: 8080, connections: 0, max_work: None, edition: Two { sequence: 0 }, changes: None, strict_changes: false }",
    ),
    (
        "m serve a.opl 80 --changes new --sequence 7",
        "Serve { file: \"a.opl\", port: 80, connections: 4294967295, max_work: None, edition: Two { sequence: 7 }, changes: Some(\"new\"), strict_changes: false }",
    ),
    (
        "m serve a.opl 80 --changes= --edition 2",
        "Serve { file: \"a.opl\", port: 80, connections: 4294967295, max_work: None, edition: Two { sequence: 0 }, changes: Some(\"\"), strict_changes: false }",
    ),
    (
        "m serve a.opl 80 --changes new --strict-changes",
        "Serve { file: \"a.opl\", port: 80, connections: 4294967295, max_work: None, edition: Two { sequence: 0 }, changes: Some(\"new\"), strict_changes: true }",
    ),
    (
        "m serve --strict-changes a.opl 80",
        "Serve { file: \"a.opl\", port: 80, connections: 4294967295, max_work: None, edition: Two { sequence: 0 }, changes: None, strict_changes: true }",
    ),
    (
        "m serve a.opl 80 --max-work 0",
        "Serve { file: \"a.opl\", port: 80, connections: 4294967295, max_work: Some(0), edition: Two { sequence: 0 }, changes: None, strict_changes: false }",
    ),
    (
        "m serve --max-work=18446744073709551615 a.opl 80 --connections 3",
        "Serve { file: \"a.opl\", port: 80, connections: 3, max_work: Some(18446744073709551615), edition: Two { sequence: 0 }, changes: None, strict_changes: false }",
    ),
    (
        "m serve a.opl 80 --sequence 7 --max-work +9",
        "Serve { file: \"a.opl\", port: 80, connections: 4294967295, max_work: Some(9), edition: Two { sequence: 7 }, changes: None, strict_changes: false }",
    ),
    (
        "m serve a.opl 80 --edition 1 --strict-changes",
        "Serve { file: \"a.opl\", port: 80, connections: 4294967295, max_work: None, edition: One, changes: None, strict_changes: true }",
    ),
];

#[test]
fn reads_serve(rt: HostRuntime) -> Result<(), Fail> {
    are_shown(&rt, rt.alloc(), &SERVE)
}

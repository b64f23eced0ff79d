//! Lines of `fetch` and of `relay`.

use super::{ROOT, shown};
use std::alloc::Global;
use std::process::Abort;
use std::test::Fail;

/// The words before ROOT and after it, and the job's name and its fields after the root, as `Debug` shows them.
pub(super) struct Row {
    pub(super) before: &'static str,
    pub(super) after: &'static str,
    pub(super) name: &'static str,
    pub(super) fields: &'static str,
}

pub(super) const FETCH: [Row; 6] = [
    Row {
        before: "fetch",
        after: "h:1 q",
        name: "Fetch",
        fields: "mirror: \"h:1\", query: \"q\", form: Opl, max_size: None, max_work: None",
    },
    Row {
        before: "fetch --form json",
        after: "h:1 q --max-size 9",
        name: "Fetch",
        fields: "mirror: \"h:1\", query: \"q\", form: Json, max_size: Some(9), max_work: None",
    },
    Row {
        before: "fetch --max-size=18446744073709551615",
        after: "h q --form=xml",
        name: "Fetch",
        fields: "mirror: \"h\", query: \"q\", form: Xml, max_size: Some(18446744073709551615), max_work: None",
    },
    Row {
        before: "fetch --max-work 18446744073709551615",
        after: "h:1 q --max-size 9",
        name: "Fetch",
        fields: "mirror: \"h:1\", query: \"q\", form: Opl, max_size: Some(9), max_work: Some(18446744073709551615)",
    },
    Row {
        before: "fetch",
        after: "h:1 q --max-work=0",
        name: "Fetch",
        fields: "mirror: \"h:1\", query: \"q\", form: Opl, max_size: None, max_work: Some(0)",
    },
    Row {
        before: "fetch --",
        after: "q --form",
        name: "Fetch",
        fields: "mirror: \"q\", query: \"--form\", form: Opl, max_size: None, max_work: None",
    },
];

pub(super) const RELAY: [Row; 7] = [
    Row {
        before: "relay",
        after: "h:1 80",
        name: "Relay",
        fields: "mirror: \"h:1\", fallbacks: [], port: 80, root_file: None, connections: 4294967295, max_work: None",
    },
    Row {
        before: "relay --fallback b:1",
        after: "h:1 0 --fallback c:2 --root-file r --connections 9",
        name: "Relay",
        fields: "mirror: \"h:1\", fallbacks: [\"b:1\", \"c:2\"], port: 0, root_file: Some(\"r\"), connections: 9, max_work: None",
    },
    Row {
        before: "relay --fallback=c:2 --fallback=b:1 --fallback=c:2",
        after: "h:1 65535",
        name: "Relay",
        fields: "mirror: \"h:1\", fallbacks: [\"c:2\", \"b:1\", \"c:2\"], port: 65535, root_file: None, connections: 4294967295, max_work: None",
    },
    Row {
        before: "relay",
        after: "h:1 +8080 --connections 0 --root-file=",
        name: "Relay",
        fields: "mirror: \"h:1\", fallbacks: [], port: 8080, root_file: Some(\"\"), connections: 0, max_work: None",
    },
    Row {
        before: "relay --max-work 18446744073709551615",
        after: "h:1 80 --connections 9",
        name: "Relay",
        fields: "mirror: \"h:1\", fallbacks: [], port: 80, root_file: None, connections: 9, max_work: Some(18446744073709551615)",
    },
    Row {
        before: "relay",
        after: "h:1 80 --max-work=0",
        name: "Relay",
        fields: "mirror: \"h:1\", fallbacks: [], port: 80, root_file: None, connections: 4294967295, max_work: Some(0)",
    },
    Row {
        before: "relay --connections=1 --",
        after: "-h 2",
        name: "Relay",
        fields: "mirror: \"-h\", fallbacks: [], port: 2, root_file: None, connections: 1, max_work: None",
    },
];

/// The line of the row asks for its job, under the digest of the empty message.
pub(super) fn is_row(rt: &impl Abort, alloc: Global, row: &Row) -> Result<(), Fail> {
    let line = format!(in alloc; "m {} {ROOT} {}", row.before, row.after)?;
    let job = shown(alloc, &line)?;
    let root = tree_node::digest_of(b"");
    let want = format!(in alloc; "{} {{ root: {root:?}, {} }}", row.name, row.fields)?;
    assert_eq!(rt; job.as_str(), want.as_str(), "{line}");
    Ok(())
}

#[test]
fn reads_fetch(rt: HostRuntime) -> Result<(), Fail> {
    for row in &FETCH {
        is_row(&rt, rt.alloc(), row)?;
    }
    Ok(())
}

#[test]
fn reads_relay(rt: HostRuntime) -> Result<(), Fail> {
    for row in &RELAY {
        is_row(&rt, rt.alloc(), row)?;
    }
    Ok(())
}

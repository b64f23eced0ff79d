//! The codes of the faults, as docs/FORMATS.md gives them.

use std::alloc::{AllocError, Global};
use std::fmt::Display;
use std::process::Abort;
use tree_build::BuildFault;
use tree_node::{NodeFault, PutFault, ShelfFault};
use tree_walk::WalkFault;

const OF_NODES: [(NodeFault, &str); 5] = [
    (NodeFault::CutShort, "N1"),
    (NodeFault::BytesAfter, "N2"),
    (NodeFault::BadCount, "N3"),
    (NodeFault::NotRising, "N4"),
    (NodeFault::BadTreeOrLevel, "N5"),
];

const OF_WALKS: [(WalkFault, &str); 5] = [
    (WalkFault::Missing, "V1"),
    (WalkFault::Malformed(NodeFault::CutShort), "V2"),
    (WalkFault::WrongTreeOrLevel, "V3"),
    (WalkFault::Disagrees, "V4"),
    (WalkFault::Memory, "no memory"),
];

const OF_PUTS: [(PutFault, &str); 2] = [(PutFault::Clash, "N6"), (PutFault::Memory, "no memory")];

const OF_SHELVES: [(ShelfFault, &str); 2] = [
    (ShelfFault::Missing, "N7"),
    (ShelfFault::Memory, "no memory"),
];

const OF_BUILDS: [(BuildFault, &str); 2] = [
    (BuildFault::Clash, "N6"),
    (BuildFault::Memory, "no memory"),
];

/// Each fault is shown so.
fn are_shown<F: Display>(
    rt: &impl Abort,
    alloc: Global,
    codes: &[(F, &str)],
) -> Result<(), AllocError> {
    for (fault, code) in codes {
        let text = format!(in alloc; "{fault}")?;
        assert!(rt; text.as_str() == *code, "{code}");
    }
    Ok(())
}

#[test]
fn shows_the_codes(rt: HostRuntime) -> Result<(), AllocError> {
    let alloc = rt.alloc();
    are_shown(&rt, alloc, &OF_NODES)?;
    are_shown(&rt, alloc, &OF_WALKS)?;
    are_shown(&rt, alloc, &OF_PUTS)?;
    are_shown(&rt, alloc, &OF_SHELVES)?;
    are_shown(&rt, alloc, &OF_BUILDS)
}

//! `publish`, `prove` and `check`: the whole result, or out of memory, also where an allocation is refused (tests/system).
//! The root, and the length of the proof, are those that an independent program computed.

use super::{ALL_KINDS, FIRST, FIRST_ANSWER, is_done};
use osm_check::Digest;
use osm_commands::{CommandFault, Status, check, prove, publish};
use osm_index::{Edition, Unwatched};
use std::alloc::Global;
use std::process::Abort;
use std::test::Fail;

const SEVENTH: Edition = Edition::Two { sequence: 7 };

/// The root of the objects of all kinds in the second edition, with sequence number 7, and LF.
const ROOT: &str = "271e49a5432b1f23937721950d20e4003dfb01c994b9332797dac312f4e5a077\n";

/// The work of the first query, by hand: 33 bytes and seven steps.
const WORK: u64 = 733;

/// Whether the root is told.
fn is_published(rt: &impl Abort, alloc: Global) -> bool {
    let mut output = Vec::new(alloc);
    let outcome = publish(
        alloc,
        &mut ALL_KINDS.as_bytes(),
        SEVENTH,
        &mut Unwatched,
        &mut output,
    );
    is_done(rt, outcome, &output, ROOT)
}

#[test]
fn publishes_within_memory(rt: HostRuntime) {
    assert!(rt; is_published(&rt, rt.alloc()) || is_published(&rt, rt.alloc()));
}

/// What `prove` writes: the answer, the proof and the root's line.
#[derive(Drop)]
struct Written {
    answer: Vec<u8>,
    proof: Vec<u8>,
    line: Vec<u8>,
}

/// Nothing was written yet.
fn nothing(alloc: Global) -> Written {
    Written {
        answer: Vec::new(alloc),
        proof: Vec::new(alloc),
        line: Vec::new(alloc),
    }
}

/// Writes what `prove` makes of the objects of all kinds and the first query.
fn write_proof(alloc: Global, out: &mut Written) -> Result<(), CommandFault> {
    prove(
        alloc,
        &mut ALL_KINDS.as_bytes(),
        &mut FIRST.as_bytes(),
        SEVENTH,
        &mut Unwatched,
        &mut out.answer,
        &mut out.proof,
        &mut out.line,
    )
}

/// Whether the answer is proved; else it is out of memory, and the root wasn't told.
fn is_proved(rt: &impl Abort, alloc: Global) -> bool {
    let mut out = nothing(alloc);
    let outcome = write_proof(alloc, &mut out);
    let is_proved = is_done(rt, outcome, &out.line, ROOT);
    assert!(rt;
        !is_proved || (out.answer.as_slice() == FIRST_ANSWER.as_bytes() && out.proof.len() == 447)
    );
    is_proved
}

#[test]
fn proves_within_memory(rt: HostRuntime) {
    assert!(rt; is_proved(&rt, rt.alloc()) || is_proved(&rt, rt.alloc()));
}

/// The root whose digits and LF these are.
fn root_of(alloc: Global, line: &str) -> Result<Digest, Fail> {
    let digits = line.as_bytes().get(..64).ok_or("no 64 digits")?;
    let bytes = hex::decode(alloc, digits)?;
    Ok(Digest::from_slice(&bytes).ok_or("no 32 bytes")?)
}

/// Whether the verdict on this answer, from this proof, is told, and ends with this status.
fn is_judged(
    rt: &impl Abort,
    alloc: Global,
    root: &Digest,
    mut answer: &[u8],
    mut proof: &[u8],
    told: (&str, Status),
) -> bool {
    let mut output = Vec::new(alloc);
    let query = &mut FIRST.as_bytes();
    match check(
        alloc,
        root,
        query,
        &mut answer,
        &mut proof,
        Some(447),
        Some(WORK),
        &mut output,
    ) {
        Ok(verdict) => {
            assert!(rt; Status::from(verdict) == told.1);
            is_done(rt, Ok(()), &output, told.0)
        }
        Err(fault) => is_done(rt, Err(fault), &output, told.0),
    }
}

#[test]
fn checks_within_memory(rt: HostRuntime) -> Result<(), Fail> {
    let alloc = rt.alloc();
    let root = root_of(alloc, ROOT)?;
    let mut made = nothing(alloc);
    write_proof(alloc, &mut made)?;
    for (answer, text, status) in [
        (FIRST_ANSWER, "yes\n", Status::Done),
        ("n1 T x13.4 y52.5\n", "no C9 4\n", Status::No),
    ] {
        let told = (text, status);
        let answer = answer.as_bytes();
        assert!(rt;
            is_judged(&rt, alloc, &root, answer, &made.proof, told)
                || is_judged(&rt, alloc, &root, answer, &made.proof, told)
        );
    }
    Ok(())
}

/// Whether there is no verdict on an answer and its proof with a budget of one less; else it is out of memory. Nothing is
/// written.
fn is_too_much(
    rt: &impl Abort,
    alloc: Global,
    root: &Digest,
    mut answer: &[u8],
    mut proof: &[u8],
) -> bool {
    let mut output = Vec::new(alloc);
    let query = &mut FIRST.as_bytes();
    let most = Some(WORK - 1);
    let outcome = check(
        alloc,
        root,
        query,
        &mut answer,
        &mut proof,
        None,
        most,
        &mut output,
    );
    assert!(rt; output.is_empty());
    match outcome {
        Err(CommandFault::Work) => true,
        outcome => {
            assert!(rt; matches!(outcome, Err(CommandFault::Memory)));
            false
        }
    }
}

#[test]
fn refuses_work_within_memory(rt: HostRuntime) -> Result<(), Fail> {
    let alloc = rt.alloc();
    let root = root_of(alloc, ROOT)?;
    let mut made = nothing(alloc);
    write_proof(alloc, &mut made)?;
    for answer in [FIRST_ANSWER, "n1 T x13.4 y52.5\n"] {
        let answer = answer.as_bytes();
        assert!(rt;
            is_too_much(&rt, alloc, &root, answer, &made.proof)
                || is_too_much(&rt, alloc, &root, answer, &made.proof)
        );
    }
    Ok(())
}

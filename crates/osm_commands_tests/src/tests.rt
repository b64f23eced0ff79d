//! The commands over readers and writers of the test's own. Their rows, and what comes of it where a read or a write fails
//! in turn, are shown of the whole program, by tests/system.

mod announcing;
mod changing;
mod files;
mod flushing_narrow_writer;
mod lookouts;
mod serving;

use flushing_narrow_writer::FlushingNarrowWriter;
use osm_commands::{CommandFault, Status, ask};
use osm_forms::Form;
use osm_index::Unwatched;
use std::alloc::Global;
use std::process::Abort;
use std::test::Fail;
use test_devices::{NarrowWriter, Stop};

/// A node with all of its metadata, one with none, a way and a relation.
const ALL_KINDS: &str = "\
n1 v1 dV c5 t2020-01-02T03:04:05Z i7 uAnn Thighway=crossing x13.4 y52.5
n2 x13.4000001 y52.5
w10 Thighway=primary,name=A%20%B Nn1,n2,n1
r100 Ttype=route Mw10@outer,n99@stop,r100@
";

const FIRST: &str = "node(1);out;";

const FIRST_ANSWER: &str = "n1 Thighway=crossing x13.4 y52.5\n";

/// A flush that fails is a device's fault, though all was written.
#[test]
fn flushes_fail(rt: HostRuntime) {
    let alloc = rt.alloc();
    let mut output = FlushingNarrowWriter {
        writer: NarrowWriter {
            taken: Vec::new(alloc),
            at_once: 64,
            stops_at: 0,
            stop: Stop::HoldsBack,
            calls: 0,
        },
    };
    let input = &mut ALL_KINDS.as_bytes();
    let outcome = ask(
        alloc,
        Form::Opl,
        FIRST.as_bytes(),
        input,
        &mut Unwatched,
        &mut output,
    );
    assert!(rt; outcome == Err(CommandFault::Device));
    assert!(rt; output.writer.taken.as_slice() == FIRST_ANSWER.as_bytes());
}

/// The lines on standard error of faults that no row of tests/system meets, and the others without a place.
#[test]
fn faults_have_their_texts(rt: HostRuntime) -> Result<(), Fail> {
    for (fault, text, status) in [
        (CommandFault::Endless, "O15", Status::Refused),
        (CommandFault::TooLarge, "too large", Status::Failed),
        (CommandFault::Work, "no work", Status::Failed),
        (CommandFault::Clash, "I1", Status::Refused),
        (CommandFault::TooMany, "I4", Status::Refused),
        (CommandFault::Memory, "no memory", Status::Failed),
        (CommandFault::Device, "device", Status::Failed),
    ] {
        let told = format!(in rt.alloc(); "{fault}")?;
        assert!(rt;
            told.as_str() == text && fault.status() == status,
            "{text}: {told}"
        );
    }
    Ok(())
}

/// Whether the command is done, with this text written; else it is out of memory, and nothing was written. The output
/// is a vector, so when it is out of memory that is a device's fault.
fn is_done(rt: &impl Abort, outcome: Result<(), CommandFault>, output: &[u8], text: &str) -> bool {
    match outcome {
        Ok(()) => {
            assert!(rt; output == text.as_bytes(), "{text}");
            true
        }
        Err(fault) => {
            assert!(rt;
                matches!(fault, CommandFault::Memory | CommandFault::Device),
                "{fault}"
            );
            assert!(rt; output.is_empty(), "{text}");
            false
        }
    }
}

/// Whether the first node is the answer.
fn is_answered(rt: &impl Abort, alloc: Global) -> bool {
    let mut output = Vec::new(alloc);
    let input = &mut ALL_KINDS.as_bytes();
    let outcome = ask(
        alloc,
        Form::Opl,
        FIRST.as_bytes(),
        input,
        &mut Unwatched,
        &mut output,
    );
    is_done(rt, outcome, &output, FIRST_ANSWER)
}

/// Out of memory, or the whole result: also where an allocation is refused (tests/system).
#[test]
fn answers_within_memory(rt: HostRuntime) {
    assert!(rt; is_answered(&rt, rt.alloc()) || is_answered(&rt, rt.alloc()));
}

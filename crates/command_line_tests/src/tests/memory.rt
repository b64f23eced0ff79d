//! Memory that is refused: the whole result, or out of memory. Run with each allocation refused in turn by tests/system.

use super::check::{is_check, read_check};
use super::fetch_and_relay::{FETCH, RELAY, is_row};
use super::pack_and_query::{PACK, QUERY};
use super::publish_prove_changes::CHANGES;
use super::{are_shown, words_of};
use command_line::{Form, Job, WordsFault, read_words};
use std::alloc::AllocError;
use std::test::Fail;

#[test]
fn reads_within_memory(rt: HostRuntime) -> Result<(), Fail> {
    let alloc = rt.alloc();
    match read_words(alloc, words_of(alloc, "osm_mirror ask node(1);out;")?) {
        Ok(Job::Ask { query, form }) => {
            assert!(rt; query.as_str() == "node(1);out;" && form == Form::Opl);
        }
        Ok(job) => panic!(rt; "{job:?}"),
        Err(WordsFault::Memory) => {}
        Err(fault) => panic!(rt; "{fault}"),
    }
    are_shown(
        &rt,
        alloc,
        &[(
            "osm_mirror publish a.opl",
            "Publish { file: \"a.opl\", edition: Two { sequence: 0 } }",
        )],
    )
}

/// The root of `check` is decoded.
#[test]
fn reads_check_within_memory(rt: HostRuntime) -> Result<(), AllocError> {
    match read_check(rt.alloc(), " --max-size 9 --max-work 8")? {
        Ok(job) => is_check(&rt, &job, Some(9), Some(8)),
        Err(WordsFault::Memory) => {}
        Err(fault) => panic!(rt; "{fault}"),
    }
    Ok(())
}

/// The texts of `relay` are copied into a list.
#[test]
fn reads_new_commands_within_memory(rt: HostRuntime) -> Result<(), Fail> {
    is_row(&rt, rt.alloc(), &FETCH[1])?;
    is_row(&rt, rt.alloc(), &RELAY[1])?;
    is_row(&rt, rt.alloc(), &QUERY[1])?;
    are_shown(&rt, rt.alloc(), &[CHANGES[0], PACK[1]])
}

/// A bad form stays one.
#[test]
fn refuses_words_within_memory(rt: HostRuntime) -> Result<(), Fail> {
    match read_words(rt.alloc(), words_of(rt.alloc(), "m ask q --form yaml")?) {
        Err(WordsFault::BadForm | WordsFault::Memory) => Ok(()),
        Err(fault) => panic!(rt; "{fault}"),
        Ok(job) => panic!(rt; "{job:?}"),
    }
}

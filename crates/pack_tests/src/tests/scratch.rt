//! Stores in the folder where the tests run.

use external_sort::{RunStore, StoreFault, StoreMaker};
use scratch_files::ScratchFolder;
use std::fs;
use std::test::Fail;

#[test]
fn gives_back_what_it_was_told(rt: HostRuntime) -> Result<(), Fail> {
    let mut folder = ScratchFolder::new(&rt, ".");
    let mut store = folder.make_store()?;
    let mut other = folder.make_store()?;
    store.append(b"one")?;
    other.append(b"another")?;
    store.append(b" run")?;
    store.end_run()?;
    store.end_run()?;
    store.append(b"the third")?;
    store.end_run()?;
    other.end_run()?;
    let mut read = [0; 4];
    store.read(0, 2, &mut read)?;
    assert_eq!(rt; &read, b"e ru");
    store.read(2, 5, &mut read)?;
    assert_eq!(rt; &read, b"hird");
    other.read(0, 3, &mut read)?;
    assert_eq!(rt; &read, b"ther");
    assert!(rt; store.read(0, 4, &mut read).is_err());
    assert!(rt; store.read(1, 0, &mut read).is_err());
    assert!(rt; store.read(3, 0, &mut read).is_err());
    assert!(rt; store.read(1, 0, &mut []).is_ok());
    Ok(())
}

#[test]
fn no_name_is_left(rt: HostRuntime) -> Result<(), Fail> {
    let mut folder = ScratchFolder::new(&rt, ".");
    let _store = folder.make_store()?;
    assert!(rt; fs::metadata(&rt, "osm_mirror-scratch.0").is_err());
    Ok(())
}

#[test]
fn a_folder_that_isnt_there_is_refused(rt: HostRuntime) {
    assert!(rt; ScratchFolder::new(&rt, "./nowhere").make_store().is_err());
}

/// Some bytes of a run that is kept.
fn kept(rt: &HostRuntime) -> Result<[u8; 3], StoreFault> {
    let mut folder = ScratchFolder::new(rt, ".");
    let mut store = folder.make_store()?;
    store.append(b"abcd")?;
    store.end_run()?;
    let mut read = [0; 3];
    store.read(0, 1, &mut read)?;
    Ok(read)
}

/// Memory that was refused is given at the second try.
#[test]
fn keeps_a_run_after_refused_memory(rt: HostRuntime) {
    let read = match kept(&rt) {
        Ok(read) => Ok(read),
        Err(_) => kept(&rt),
    };
    assert!(rt; read == Ok(*b"bcd"));
}

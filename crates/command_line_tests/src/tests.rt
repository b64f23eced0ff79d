//! Lines of words, the jobs that they name, and the faults of those that name none. What `clap` tells of words is shown
//! by the program, in tests/system/words_rows_test.py.

mod ask_and_explain;
mod check;
mod fetch_and_relay;
mod memory;
mod pack_and_query;
mod publish_prove_changes;
mod refusals;
mod serve;

use command_line::read_words;
use std::alloc::{AllocError, Global};
use std::process::Abort;
use std::test::Fail;

/// The digest of the empty message, in hexadecimal digits of both cases.
const ROOT: &str = "e3b0c44298fc1c149afbf4c8996fb92427AE41E4649B934CA495991B7852B855";

/// The words of a line in which one space stands between two words.
fn words_of(alloc: Global, line: &str) -> Result<Vec<String>, AllocError> {
    line.split(' ')
        .map(|word| String::from_str(alloc, word))
        .try_collect(alloc)
}

/// The job that the line asks for, as `Debug` shows it.
fn shown(alloc: Global, line: &str) -> Result<String, Fail> {
    let job = read_words(alloc, words_of(alloc, line)?)?;
    Ok(format!(in alloc; "{job:?}")?)
}

/// The lines ask for these jobs.
fn are_shown(rt: &impl Abort, alloc: Global, rows: &[(&str, &str)]) -> Result<(), Fail> {
    for (line, want) in rows {
        let job = shown(alloc, line)?;
        assert_eq!(rt; job.as_str(), *want, "{line}");
    }
    Ok(())
}

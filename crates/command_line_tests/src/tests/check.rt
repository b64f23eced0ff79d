//! Lines of `check`, with its limits.

use super::{ROOT, words_of};
use command_line::{Job, WordsFault, read_words};
use std::alloc::{AllocError, Global};
use std::process::Abort;
use std::test::Fail;

/// The job is to check the files `b`, `c` and `d`, by the digest of the empty message, within this limit and this budget.
pub(super) fn is_check(rt: &impl Abort, job: &Job, limit: Option<u64>, most: Option<u64>) {
    match job {
        Job::Check {
            root,
            query_file,
            answer_file,
            proof_file,
            max_size,
            max_work,
        } => {
            assert!(rt; *root == tree_node::digest_of(b""));
            assert!(rt; query_file.as_str() == "b" && answer_file.as_str() == "c");
            assert!(rt; proof_file.as_str() == "d" && *max_size == limit && *max_work == most);
        }
        job => panic!(rt; "{job:?}"),
    }
}

/// What the line of words that asks for that check, with these words before its files, is read as.
pub(super) fn read_check(
    alloc: Global,
    options: &str,
) -> Result<Result<Job, WordsFault>, AllocError> {
    let line = format!(in alloc; "m check{options} {ROOT} b c d")?;
    Ok(read_words(alloc, words_of(alloc, &line)?))
}

#[test]
fn reads_check(rt: HostRuntime) -> Result<(), Fail> {
    for (options, limit, most) in [
        ("", None, None),
        (" --max-size 0", Some(0), None),
        (" --max-size=65536", Some(65_536), None),
        (" --max-size +7", Some(7), None),
        (" --max-size 18446744073709551615", Some(u64::MAX), None),
        (" --max-work 0", None, Some(0)),
        (" --max-work=65536 --max-size 1", Some(1), Some(65_536)),
        (" --max-work +7", None, Some(7)),
        (" --max-work 18446744073709551615", None, Some(u64::MAX)),
    ] {
        let job = read_check(rt.alloc(), options)??;
        is_check(&rt, &job, limit, most);
    }
    Ok(())
}

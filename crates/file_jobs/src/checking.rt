//! The command `check`.

ghost use Rattle.file_jobs.specs.Jobs.{IsCheck};

use command_line::Job;
use osm_commands::{Status, check};
use system_files::{Subject, quiet_file, report, trouble_of};
use tree_node::Digest;

/// Starts `check`, as its job says.
pub fn start_check(rt: &HostRuntime, job: Job) -> Status
    requires { IsCheck job }
{
    let Job::Check {
        root,
        query_file,
        answer_file,
        proof_file,
        max_size,
        max_work,
    } = job
    else {
        unreachable!("the job is to check")
    };
    check_files(
        rt,
        &root,
        &query_file,
        &answer_file,
        &proof_file,
        max_size,
        max_work,
    )
}

/// Tells whether the answer of a file is right, where answer and proof have no more bytes than this, if there is a limit, and
/// the query takes no more work than this, if there is one.
fn check_files(
    rt: &HostRuntime,
    root: &Digest,
    query_file: &str,
    answer_file: &str,
    proof_file: &str,
    max_size: Option<u64>,
    max_work: Option<u64>,
) -> Status {
    let mut query = quiet_file(rt, query_file);
    let mut answer = quiet_file(rt, answer_file);
    let mut proof = quiet_file(rt, proof_file);
    let outcome = check(
        rt.alloc(),
        root,
        &mut query,
        &mut answer,
        &mut proof,
        max_size,
        max_work,
        &mut rt.stdout(),
    );
    let troubles = &[
        trouble_of(query_file, query.error()),
        trouble_of(answer_file, answer.error()),
        trouble_of(proof_file, proof.error()),
    ];
    match outcome {
        Ok(verdict) => Status::from(verdict),
        Err(fault) => report(
            rt,
            Err(fault),
            &Subject {
                front: &[],
                query: &[],
                troubles,
            },
        ),
    }
}

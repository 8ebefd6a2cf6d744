// A job is run, and its answers are compared.
use job::run_job;
use std::alloc::Global;
use std::process::Abort;
use std::test::Fail;

/// A job is answered with this text.
pub fn answered(rt: &impl Abort, heap: Global, job: &str, answers: &str) -> Result<(), Fail> {
    let text = run_job(heap, job.as_bytes())?;
    assert_eq!(rt; text.as_str(), answers, "{}", job);
    Ok(())
}

/// A line behind these lines is answered with this text.
pub fn answered_behind(
    rt: &impl Abort,
    heap: Global,
    before: &str,
    line: &str,
    answers: &str,
) -> Result<(), Fail> {
    let job = format!(in heap; "{before}{line}\n")?;
    answered(rt, heap, job.as_str(), answers)
}

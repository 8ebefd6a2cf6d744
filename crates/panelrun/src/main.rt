//! panelrun: runs the job on standard input, and prints its answers.
#![tactic(auto)]

use job::run_job;
use std::io::Read;

/// One byte more than a job may have, so that a longer one is seen to be too long.
const READ_BYTES: u64 = 65_537;

fn run(rt: &HostRuntime) -> anyhow::Result<()> {
    let mut job = Vec::new(rt.alloc());
    let mut input = rt.stdin().take(READ_BYTES);
    input.read_to_end(&mut job)?;
    let text = run_job(rt.alloc(), job.as_slice())?;
    print!(rt; "{text}")?;
    Ok(())
}

fn main(rt: HostRuntime) -> anyhow::Result<()> {
    run(&rt)
}

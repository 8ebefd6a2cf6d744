// Worked examples of what jobs are answered with.
ghost use Rattle.std.specs.Prelude.{◌≡◌, length};
ghost use Rattle.job.specs.Cases.{rows, WorkedJobs};

/// The number of worked examples, all of which hold: there are sixteen.
// A number, since it says how many rows were computed.
pub fn worked_jobs_hold() -> u8
    ensures hold { WorkedJobs }
    ensures rows { result ≡ length rows }
    ensures sixteen { length rows ≡ 16 }
{
    16
}

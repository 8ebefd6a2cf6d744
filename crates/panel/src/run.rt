// Runs of calls on one panel, from its opening on.
ghost use Rattle.std.specs.Prelude.{◌≡◌, IfOk};
ghost use Rattle.panel.specs.Runs.{RunsKeepThePromise, Made, Driven};

use crate::calls::{Answer, Call, Done};
use crate::panel::Panel;
use crate::sheet::Sheet;
use costs::{Amount, CostKind};
use registers::{Pieces, Register};
use std::alloc::{AllocError, Global};

impl<K: CostKind, R: Register> Panel<K, R> {
    /// Makes one call.
    pub fn make(&mut self, call: &Call) -> Answer
        ensures { Made self.old call.now result self.new }
    {
        match call {
            Call::Place(a) => self.place(a).map(Done::Placed),
            Call::Lift(job) => Ok(Done::Lifted(self.lift(*job)? as u32)),
        }
    }
}

/// However a panel is used from its opening on, different nets keep their clearance: for every kind of cost and every register.
#[tactic(auto, using(crate::proofs::Keeping::runs_keep))]
pub fn promise_over_runs<K: CostKind, R: Register>()
    ensures { (register : R) → RunsKeepThePromise (R.Register.places register) }
{}

/// Opens a panel, makes the calls, and gives back their answers.
pub fn run_calls<K: CostKind, R: Register + Drop>(
    heap: Global,
    sheet: Sheet,
    kind: K,
    register: R,
    calls: &[Call],
) -> Result<Vec<Answer>, AllocError>
    ensures { IfOk result (λ answers. Driven sheet (R.Register.places register) calls.now answers.items) }
{
    let mut panel = sheet.open(kind, register);
    let mut answers = Vec::new(heap);
    // a chain of `map` and `collect` was tried and got no proof, as `make` changes the panel; a fold is no plainer
    for call in calls {
        answers.push(panel.make(call))?;
    }
    Ok(answers)
}

// Reading a job from its first line to its last.
ghost use Rattle.std.specs.Prelude.{◌≡◌, ◌++◌, IfOk, OnOk};
ghost use Rattle.job.specs.declared.setup.Stage.TheVariants as stages;
ghost use Rattle.job.specs.Text.{lines};
ghost use Rattle.job.specs.Said.{replied, said, calls_in, Told};
ghost use Rattle.job.specs.Scripts.{Read, Unset};

use crate::forms::{CostChoice, RegisterChoice};
use crate::lines::LineReader;
use crate::refused::Refused;
use crate::said::Said;
use crate::setup::{Setup, Stage};
use costs::PriceList;
use panel::{Call, Sheet};
use std::alloc::{AllocError, Global};

/// What a job says: what its accepted lines set, and what each line that is answered comes to.
#[derive(Debug, PartialEq, Eq, Drop)]
pub struct Script {
    pub setup: Setup,
    pub said: Vec<Said>,
}

impl Setup {
    /// What is set before the first line.
    pub fn new() -> Setup
        ensures { Unset result }
    {
        Setup {
            stage: Stage::Start,
            sheet: Sheet::new(),
            prices: PriceList::new(),
            cost: CostChoice::Money,
            register: RegisterChoice::Plain,
        }
    }
}

impl Script {
    /// The calls among what its lines come to.
    pub fn calls(&self, heap: Global) -> Result<Vec<Call>, AllocError>
        ensures { IfOk result (λ calls. calls.items ≡ calls_in self.now.said.items) }
    {
        self.said.iter().filter_map(|s| s.reply.ok()).collect(heap)
    }
}

// Notes what a line came to.
fn note(
    said: &mut Vec<Said>,
    line: usize,
    answer: Result<Option<Call>, Refused>,
) -> Result<(), AllocError>
    ensures { OnOk result (said.new.items ≡ said.old.items ++ replied line answer) }
{
    if let Some(reply) = answer.transpose() {
        said.push(Said { line, reply })?;
    }
    Ok(())
}

/// Reads a job.
pub fn read_job(heap: Global, job: &[u8]) -> Result<Script, AllocError>
    ensures { IfOk result (λ s. Read job.now s) }
{
    let mut setup = Setup::new();
    let mut said = Vec::new(heap);
    for (i, line) in LineReader::new(job).enumerate() {
        let answer = setup.line(line.text);
        note(&mut said, i + 1, answer)?;
    }
    Ok(Script { setup, said })
}

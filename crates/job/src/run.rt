// Running a whole job.
ghost use Rattle.std.specs.Prelude.{◌≡◌, IfOk, string_bytes};
ghost use Rattle.panel.specs.Runs.{Driven};
ghost use Rattle.job.specs.Transcripts.{JobAnswered};

use crate::forms::{CostChoice, RegisterChoice};
use crate::script::read_job;
use crate::setup::Setup;
use crate::text::write_all;
use costs::{ByMoney, ByVias};
use geometry::{Mark, Piece, Rect, Span};
use panel::{Answer, Call, run_calls};
use registers::{Pieces, PlainRegister, Register, StripRegister};
use std::alloc::{AllocError, Global};

/// The most bytes that a job may have, newlines included.
const JOB_BYTES: usize = 65_536;

/// How many places for pieces a job has.
const PLACES: usize = 256;

// A place in which no piece stands yet. No piece is the usual one, so pieces have no default.
const NO_PIECE: Piece = Piece {
    layer: 0,
    rect: Rect {
        x: Span { low: 0, high: 0 },
        y: Span { low: 0, high: 0 },
    },
    net: 0,
    space: 0,
    job: 0,
    mark: Mark::Placed,
};

// Opens a panel over a register, makes the calls, and gives back their answers. The arms choose types, over which the driver is
// generic, so that a closure or a dyn value would be no plainer.
fn call_over<R: Register + Drop>(
    heap: Global,
    setup: Setup,
    register: R,
    calls: &[Call],
) -> Result<Vec<Answer>, AllocError>
    ensures { IfOk result (λ answers. Driven setup.sheet (R.Register.places register) calls.now answers.items) }
{
    let prices = setup.prices;
    match setup.cost {
        CostChoice::Money => run_calls(heap, setup.sheet, ByMoney { prices }, register, calls),
        CostChoice::Vias => run_calls(heap, setup.sheet, ByVias { prices }, register, calls),
    }
}

// The same over the register that the job has chosen, with 256 places; here too the arms choose types.
fn answer_calls(heap: Global, setup: Setup, calls: &[Call]) -> Result<Vec<Answer>, AllocError>
    ensures { IfOk result (λ answers. Driven setup.sheet 256 calls.now answers.items) }
{
    let mut slots = [NO_PIECE; PLACES];
    match setup.register {
        RegisterChoice::Plain => call_over(heap, setup, PlainRegister::new(&mut slots), calls),
        RegisterChoice::Strips => {
            let mut links = [0; PLACES];
            let height = setup.sheet.height();
            let register = StripRegister::new(&mut slots, &mut links, height);
            call_over(heap, setup, register, calls)
        }
    }
}

/// Reads a job, makes its calls, and gives back the text of its answers.
pub fn run_job(heap: Global, job: &[u8]) -> Result<String, AllocError>
    ensures { IfOk result (λ text. JobAnswered job.now (string_bytes text)) }
{
    if job.len() > JOB_BYTES {
        return String::from_str(heap, "no 16 0 job 65536\n");
    }
    let script = read_job(heap, job)?;
    let calls = script.calls(heap)?;
    let answers = answer_calls(heap, script.setup, calls.as_slice())?;
    write_all(heap, script.said.as_slice(), answers.as_slice())
}

// Placing a piece by itself, and taking out a job.
ghost use Rattle.std.specs.Prelude.{◌≡◌, ◌≤◌, T, IfOk};
ghost use Rattle.geometry.specs.Clearance.{in_order};
ghost use Rattle.panel.specs.Calls.{PlaceAnswer, LiftAnswer, well_placed, room_for};
ghost use Rattle.panel.specs.Standing.{FitsPanel, rect_of, placed, after_place, after_lift};
ghost use Rattle.panel.specs.Panels.{leaving};

use crate::calls::Placement;
use crate::panel::Panel;
use crate::refusal::Refusal;
use crate::sheet::Sheet;
use costs::{Amount, CostKind};
use geometry::{Mark, Piece, Rect, Span, room_of};
use registers::{Pieces, Register};

impl Sheet {
    // Whether a placement is on the panel, has a width and a height, and no larger a space than a piece may have.
    fn well_placed(&self, a: &Placement) -> bool
        ensures { result ≡ well_placed self.now a.now }
    {
        self.size.covers(a.x1, a.y1)
            && self.size.covers(a.x2, a.y2)
            && a.x1 < a.x2
            && a.y1 < a.y2
            && a.space <= 1000
    }
}

// The piece that a placement asks for, which has no job number yet.
// Its numbers are in range by `FitsPanel`, so a cast is plainer than a conversion that could fail.
fn piece_of(a: &Placement) -> Piece
    requires { FitsPanel a.now }
    ensures { result ≡ placed a.now 0 }
{
    let x = Span {
        low: a.x1 as i32,
        high: a.x2 as i32,
    };
    let y = Span {
        low: a.y1 as i32,
        high: a.y2 as i32,
    };
    Piece {
        layer: a.layer as u8,
        rect: Rect { x, y },
        net: a.net as u8,
        space: a.space as u16,
        job: 0,
        mark: Mark::Placed,
    }
}

impl<K: CostKind, R: Register> Panel<K, R> {
    /// Places one piece, and answers its job number.
    #[tactic(auto, using(crate::proofs::Placing::placing_laws))]
    pub fn place(&mut self, a: &Placement) -> Result<u16, Refusal>
        ensures answer { PlaceAnswer self.old.sheet self.old.places self.old.standing a.now result }
        ensures stands { self.new ≡ leaving (after_place self.old.standing a.now result) self.old }
        ensures clearance { T (in_order self.new.standing.pieces) }
    {
        if !self.sheet.size.has_layer(a.layer) {
            return Err(Refusal::LayerRange);
        }
        if 255 < a.net {
            return Err(Refusal::NetRange);
        }
        if !self.sheet.well_placed(a) {
            return Err(Refusal::OffPanel);
        }
        let piece = piece_of(a);
        if let Some(job) = self.register.in_the_way(&room_of(&piece)) {
            return Err(Refusal::InTheWay(job.into()));
        }
        if self.register.free() < 1 {
            return Err(Refusal::TooFewPlaces(1));
        }
        let job = self.last.checked_add(1).ok_or(Refusal::JobsUsedUp)?;
        self.register.add(Piece { job, ..piece }).unwrap();
        self.last = job;
        Ok(job)
    }

    /// Takes out all pieces of a job, and answers how many went.
    #[tactic(auto, using(crate::proofs::Lifting::lifting_laws))]
    pub fn lift(&mut self, job: u32) -> Result<usize, Refusal>
        ensures answer { LiftAnswer self.old.standing job result }
        ensures few { IfOk result (λ count. count ≤ 4096) }
        ensures stands { self.new ≡ leaving (after_lift self.old.standing job result) self.old }
        ensures clearance { T (in_order self.new.standing.pieces) }
    {
        let count = self.register.take_out(job);
        if count == 0 {
            return Err(Refusal::NoSuchJob);
        }
        Ok(count)
    }
}

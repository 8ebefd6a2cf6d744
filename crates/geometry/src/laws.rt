// How zones and clearance hang together.
ghost use Rattle.std.specs.Prelude.{◌≡◌};
ghost use Rattle.geometry.specs.Clearance.{keep_clear};
ghost use Rattle.geometry.specs.Laws.{room_of, ClearanceLaws};

use crate::piece::{Mark, Piece};
use crate::question::Question;
use crate::zone::in_way;

/// The laws of clearance hold.
#[tactic(auto, using(crate::proofs::Clearances::laws))]
fn clearance_laws()
    ensures { ClearanceLaws }
{}

/// The question whether a piece has room where it is.
pub fn room_of(p: &Piece) -> Question
    ensures { result ≡ room_of p.now }
{
    Question {
        layer: p.layer,
        net: p.net,
        reach: 0,
        space: p.space,
        area: p.rect,
        laid: p.mark == Mark::Placed,
    }
}

/// Whether two pieces keep the clearance that they owe one another: the one is not in the way of the other's room.
pub fn keep_clear(a: &Piece, b: &Piece) -> bool
    ensures answer { result ≡ keep_clear a.now b.now }
    ensures laws { ClearanceLaws }
{
    // by these laws the question answers for clearance
    clearance_laws();
    !in_way(&room_of(b), a)
}

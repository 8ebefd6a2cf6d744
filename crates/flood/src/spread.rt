// The flood: labels are bettered in sweeps over all points until nothing improves.
ghost use Rattle.std.specs.Prelude.{◌≡◌, false, [], Ok, None, length};
ghost use Rattle.std.specs.Iterator.{IsFinite};
ghost use Rattle.routes.specs.Routes.{inside};
ghost use Rattle.flood.specs.declared.spread.FloodError.TheVariants.{OutOfMemory};
ghost use Rattle.flood.specs.Grounds.{ground_rules};
ghost use Rattle.flood.specs.Orders.{GivesBelow};
ghost use Rattle.flood.specs.Places.{SameSteps};

use crate::ground::Ground;
use crate::labels::Spread;
use crate::node::Node;
use costs::CostKind;
use geometry::{Piece, Point};
use std::alloc::{AllocError, Global};

/// Why a flood gives no answer: want of memory, or labels that still improved when the sweeps were used up.
#[derive(Clone, Copy, Debug, PartialEq, Eq)]
pub enum FloodError {
    OutOfMemory,
    Unsettled,
}

impl From<AllocError> for FloodError {
    ghost from_gives = { λ _ e. e ≡ OutOfMemory };

    fn from(_error: AllocError) -> FloodError {
        FloodError::OutOfMemory
    }
}

impl<K: CostKind> Spread<K> {
    /// Sweeps once over places in an order, and answers whether a label improved.
    // The order is handed in, upward or downward: that it can go on, ends and gives places only are its premises.
    fn sweep<I: Iterator<Item = usize>>(&self, nodes: &mut [Node<K::Amount>], order: I) -> bool
        requires can { I.can_next order }
        requires ends { IsFinite (I.remaining order) }
        requires inside { GivesBelow I.next_gives order (length nodes.old) }
        ensures { SameSteps nodes.old nodes.new }
    {
        let mut improved = false;
        for i in order {
            improved |= self.better_round(nodes, i);
        }
        improved
    }

    /// Sweeps up and down in turn until nothing improves, at most once for each place.
    fn settle(&self, nodes: &mut [Node<K::Amount>]) -> Result<(), FloodError>
        ensures { SameSteps nodes.old nodes.new }
    {
        let n = nodes.len();
        for turn in 0..n {
            let improved = if turn % 2 == 0 {
                self.sweep(nodes, 0..n)
            } else {
                self.sweep(nodes, (0..n).rev())
            };
            if !improved {
                return Ok(());
            }
        }
        Err(FloodError::Unsettled)
    }
}

/// Floods the unit grid from the first terminal of a request, and answers for how much the second was reached, if it was. A
/// terminal off the panel is not reached; that an amount is a least cost is tested, not proved.
pub fn flood<K: CostKind>(
    heap: Global,
    kind: K,
    ground: &Ground,
    pieces: &[Piece],
    first: &Point,
    second: &Point,
) -> Result<Option<K::Amount>, FloodError>
    ensures first { inside (ground_rules ground.now []) first.now ≡ false → result ≡ Ok None }
    ensures second { inside (ground_rules ground.now []) second.now ≡ false → result ≡ Ok None }
{
    let Some(from) = ground.place(first) else {
        return Ok(None);
    };
    let Some(to) = ground.place(second) else {
        return Ok(None);
    };
    let mut nodes = ground.nodes::<K::Amount>(heap, pieces, from)?;
    let row = ground.size.width as usize + 1;
    let spread = Spread {
        kind,
        row,
        plane: row * (ground.size.height as usize + 1),
    };
    spread.settle(nodes.as_mut_slice())?;
    Ok(nodes[to as usize].label)
}

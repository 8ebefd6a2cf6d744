// The nodes of the terminals.
ghost use Rattle.std.specs.Prelude.{◌≡◌, ◌==◌, MatchOption, position};
ghost use Rattle.search.specs.Located.{NodeOf, NoNode};

use crate::grid::Grid;
use crate::nodes::Crossing;
use geometry::Point;

/// The place of a line among the lines, if it is one.
fn position(lines: &[u32], line: u32) -> Option<usize>
    ensures { result ≡ position (λ x. x == line) lines.now }
{
    lines.iter().position(|x| *x == line)
}

impl<'a, K, P> Grid<'a, K, P> {
    /// The node at a point, if a node is there.
    pub fn node(&self, p: &Point) -> Option<u32>
        ensures { MatchOption result (NoNode self.now p.now) (NodeOf self.now p.now) }
    {
        let column = position(self.xs, p.x)?;
        let row = position(self.ys, p.y)?;
        let level = p.layer.checked_sub(1)?;
        self.lattice.node(&Crossing {
            column: column as u32,
            row: row as u32,
            level,
        })
    }
}

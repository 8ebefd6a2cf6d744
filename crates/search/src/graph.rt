// The grid of a request as a graph.
ghost use Rattle.search.specs.Grids.{grid_shape, grid_price};
ghost use Rattle.search.specs.Bounds.{grid_bounded};

use crate::grid::Grid;
use costs::CostKind;
use frontier::Graph;
use registers::Pieces;

impl<'a, K: CostKind, P: Pieces> Graph<K::Amount> for Grid<'a, K, P> {
    ghost shape = { λ g. grid_shape (P.Pieces.pieces g.register.now) g };

    ghost bounded = { λ g. grid_bounded (P.Pieces.pieces g.register.now) g };

    ghost price = { λ sums means g. grid_price (K.CostKind.prices g.kind) sums means g };

    fn size(&self) -> u32 {
        self.lattice.size()
    }

    fn toward(&self, node: u32, k: u32) -> Option<(u32, K::Amount)> {
        let next = self.lattice.next(node, k)?;
        let p = self.point(node)?;
        let q = self.point(next)?;
        Some((next, self.price(&p, &q)))
    }

    fn is_free(&self, node: u32, neighbour: u32) -> bool {
        let (Some(p), Some(q)) = (self.point(node), self.point(neighbour)) else {
            return false;
        };
        self.may_move(&p, &q)
    }
}

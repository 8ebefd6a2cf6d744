// The least cost of a request.
ghost use Rattle.std.specs.Prelude.{◌≡◌, true, T, length};
ghost use Rattle.costs.specs.Amounts.{tariff};
ghost use Rattle.search.specs.Requests.{proper};
ghost use Rattle.search.specs.Told.{GridOf, LedBack, ToldPath, ToldCost, is_early};

use crate::drawing::draw_lattice;
use crate::grid::Grid;
use crate::request::{Refusal, Request};
use costs::CostKind;
use frontier::{Entry, Graph, Note, find_least};
use registers::Pieces;

impl<'a, K: CostKind, P: Pieces> Grid<'a, K, P> {
    /// The least cost of a lawful path between the terminals of the grid's request, absent if there is no such path.
    pub(crate) fn find_path(
        &self,
        nodes: &mut [Note<K::Amount>],
        frontier: &mut [Entry<K::Amount>],
    ) -> Result<Option<K::Amount>, Refusal>
        ensures answer { proper self.now.request ≡ true → GridOf (P.Pieces.pieces self.now.register.now) self.now
            → ToldPath (tariff K.Amount.Amount.sums K.Amount.Amount.means (K.CostKind.prices self.now.kind)) K.Amount.Amount.means self.now.request (P.Pieces.pieces self.now.register.now) (length nodes.old) (length frontier.old) result }
        ensures led { proper self.now.request ≡ true → GridOf (P.Pieces.pieces self.now.register.now) self.now
            → LedBack (tariff K.Amount.Amount.sums K.Amount.Amount.means (K.CostKind.prices self.now.kind)) K.Amount.Amount.means (P.Pieces.pieces self.now.register.now) self.now nodes.new result }
    {
        let (Some(from), Some(to)) = (
            self.node(&self.request.first),
            self.node(&self.request.second),
        ) else {
            return Ok(None);
        };
        let size = self.lattice.size();
        find_least(self, from, to, nodes, frontier).map_err(|_| Refusal::ShortNodes(size))
    }
}

/// The least cost of a lawful path between the terminals of a request, by way of the lent lists; absent if there is no such path.
// By a rule of the project the five lent lists are five parameters.
pub fn least_cost<K: CostKind, P: Pieces>(
    request: &Request,
    kind: K,
    register: &P,
    coordinates: &mut [u32],
    xs: &mut [u32],
    ys: &mut [u32],
    nodes: &mut [Note<K::Amount>],
    frontier: &mut [Entry<K::Amount>],
) -> Result<Option<K::Amount>, Refusal>
    ensures answer { ToldCost (tariff K.Amount.Amount.sums K.Amount.Amount.means (K.CostKind.prices kind)) K.Amount.Amount.means request.now (P.Pieces.pieces register.now)
        (length coordinates.old) (length xs.old) (length ys.old) (length nodes.old) (length frontier.old) result }
    ensures unchanged { T (is_early result) → (coordinates.new ≡ coordinates.old) × (xs.new ≡ xs.old) × (ys.new ≡ ys.old)
        × (nodes.new ≡ nodes.old) × (frontier.new ≡ frontier.old) }
{
    let lattice = draw_lattice(request, register, coordinates, xs, ys)?;
    let grid = Grid {
        request: *request,
        lattice,
        kind,
        xs: &xs[..lattice.columns as usize],
        ys: &ys[..lattice.rows as usize],
        register,
    };
    grid.find_path(nodes, frontier)
}

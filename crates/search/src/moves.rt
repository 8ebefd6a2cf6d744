// The moves between the nodes of a grid: which are free, and what they cost.
ghost use Rattle.std.specs.Prelude.{◌≡◌, ◌≤◌};
ghost use Rattle.costs.specs.Amounts.{tariff};
ghost use Rattle.routes.specs.Routes.{on_free_ground, price as price_of};
ghost use Rattle.routes.specs.Rules.{free as is_free};
ghost use Rattle.search.specs.Grids.{grid_points, grid_rules, run_axis, join, InReach, Adjoin};

use crate::grid::Grid;
use costs::CostKind;
use costs::doubling::times;
use geometry::{Axis, Point, Question, Rect};
use registers::Pieces;

impl<'a, K, P> Grid<'a, K, P> {
    /// The point of a node, if there is such a node.
    pub fn point(&self, node: u32) -> Option<Point>
        ensures { result ≡ grid_points self.now node }
    {
        let c = self.lattice.crossing(node)?;
        Some(Point {
            layer: c.level + 1,
            x: self.xs[c.column as usize],
            y: self.ys[c.row as usize],
        })
    }
}

impl<'a, K, P: Pieces> Grid<'a, K, P> {
    /// Whether nothing is in the way of a closed box on a layer, at a reach.
    // the flood asks by itself: it is the comparison, independent of the search
    fn is_clear(&self, layer: u8, reach: u16, area: &Rect) -> bool
        ensures { result ≡ is_free self.now.request.net reach self.now.request.class.space (P.Pieces.pieces self.now.register.now) layer area.now }
    {
        let question = Question {
            layer,
            net: self.request.net,
            reach,
            space: self.request.class.space,
            area: *area,
            laid: false,
        };
        self.register.in_the_way(&question).is_none()
    }

    /// Whether the move from a point to the next is on free ground: a wire's box on its layer, a via's point on both layers.
    pub(crate) fn may_move(&self, p: &Point, q: &Point) -> bool
        requires { InReach p.now × InReach q.now }
        ensures { Adjoin p.now q.now → result ≡ on_free_ground (grid_rules (P.Pieces.pieces self.now.register.now) self.now) p.now (join p.now q.now) }
    {
        if p.layer == q.layer {
            return self.is_clear(p.layer as u8, self.request.class.half, &Rect::between(p, q));
        }
        let area = Rect::between(p, p);
        self.is_clear(p.layer as u8, self.request.class.pad, &area)
            && self.is_clear(q.layer as u8, self.request.class.pad, &area)
    }
}

/// The axis along which two points of a layer are joined.
fn run_axis(p: &Point, q: &Point) -> Axis
    ensures { result ≡ run_axis p.now q.now }
{
    if p.y == q.y { Axis::X } else { Axis::Y }
}

impl<'a, K: CostKind, P> Grid<'a, K, P> {
    /// What the move from a point to the next costs.
    pub(crate) fn price(&self, p: &Point, q: &Point) -> K::Amount
        requires { InReach p.now × InReach q.now }
        ensures exact { K.Amount.Amount.means result ≡ price_of (tariff K.Amount.Amount.sums K.Amount.Amount.means (K.CostKind.prices self.now.kind)) p.now (join p.now q.now) }
        ensures light { K.Amount.Amount.sums.bulk (K.Amount.Amount.means result) ≤ 3932100000 }
    {
        let kind = self.kind;
        if p.layer != q.layer {
            return kind.via(p.layer.min(q.layer) as u8);
        }
        let axis = run_axis(p, q);
        let step = kind.step(axis, p.layer as u8);
        times(step, p.along(axis).abs_diff(q.along(axis)))
    }
}

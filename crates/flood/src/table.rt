// The points of the unit grid by their places, and which steps lead from each.
ghost use Rattle.std.specs.Prelude.{◌≡◌, ◌<◌, map, IfSome, IfOk};
ghost use Rattle.std.specs.List.{range_with_len};
ghost use Rattle.flood.specs.Places.{ground_size, place_known, point_at, steps_at};

use crate::ground::Ground;
use crate::node::{Node, Steps};
use costs::Amount;
use geometry::{Axis, Piece, Point};
use std::alloc::{AllocError, Global};

impl Ground {
    /// How many points there are.
    #[tactic(auto, using(crate::proofs::Bounds::size_few))]
    pub(crate) fn points(&self) -> u32
        ensures { result ≡ ground_size self.now }
    {
        self.size.layers * (self.size.height + 1) * (self.size.width + 1)
    }

    /// The place of a point, counted from 0, if it is on the panel.
    #[tactic(auto, using(crate::proofs::Bounds::size_few, crate::proofs::Bounds::place_inside))]
    pub(crate) fn place(&self, p: &Point) -> Option<u32>
        ensures answer { result ≡ place_known self.now p.now }
        ensures inside { IfSome result (λ i. i < ground_size self.now) }
    {
        // tried with `then`: no plainer, and its closure asks again for what the test shows, that each number fits
        if self.size.has(p) {
            Some(((p.layer - 1) * (self.size.height + 1) + p.y) * (self.size.width + 1) + p.x)
        } else {
            None
        }
    }

    /// The point at a place.
    // A place is a plain number from the range of all places: that it is below their number is a premise, here and in `steps_at`.
    fn point(&self, i: u32) -> Point
        requires { i < ground_size self.now }
        ensures { result ≡ point_at self.now i }
    {
        let line = i / (self.size.width + 1);
        Point {
            layer: line / (self.size.height + 1) + 1,
            x: i % (self.size.width + 1),
            y: line % (self.size.height + 1),
        }
    }

    /// Which steps from the point at a place are lawful.
    #[tactic(auto, using(crate::proofs::Bounds::layer_at))]
    fn steps_at(&self, pieces: &[Piece], i: u32) -> Steps
        requires { i < ground_size self.now }
        ensures { result ≡ steps_at self.now pieces.now i }
    {
        let p = self.point(i);
        Steps {
            layer: p.layer as u8,
            right: self.may_step(pieces, &p, Axis::X),
            up: self.may_step(pieces, &p, Axis::Y),
            above: self.may_via(pieces, &p),
        }
    }

    /// The points by their places, of which only that at `from` is reached, at no cost.
    pub(crate) fn nodes<C: Amount>(
        &self,
        heap: Global,
        pieces: &[Piece],
        from: u32,
    ) -> Result<Vec<Node<C>>, AllocError>
        ensures { IfOk result (λ v. map (λ node. node.steps) v.items
            ≡ map (steps_at self.now pieces.now) (range_with_len 0 (ground_size self.now))) }
    {
        (0..self.points())
            .map(|i| Node {
                steps: self.steps_at(pieces, i),
                label: (i == from).then_some(C::zero()),
            })
            .collect(heap)
    }
}

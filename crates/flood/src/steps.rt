// Steps of one unit: which are lawful, by the pieces that stand.
ghost use Rattle.std.specs.Prelude.{◌≡◌, ◌+◌, ◌≤◌};
ghost use Rattle.geometry.specs.Zones.{none_in_way};
ghost use Rattle.routes.specs.Routes.{to_layer, lawful_move};
ghost use Rattle.routes.specs.Rules.{free};
ghost use Rattle.flood.specs.Grounds.{ground_rules, next_along, free_on_both};

use crate::ground::Ground;
use geometry::{Axis, Piece, Point, Question, Rect, in_way};

/// Whether no piece is in the way of what a question asks for.
fn nothing_in_way(q: &Question, pieces: &[Piece]) -> bool
    ensures { result ≡ none_in_way q.now pieces.now }
{
    pieces.iter().all(|p| !in_way(q, p))
}

impl Ground {
    /// Whether a closed box of a layer is free at a reach.
    // Asks by itself: the flood is what the search is compared with.
    fn is_free(&self, pieces: &[Piece], reach: u16, layer: u8, area: &Rect) -> bool
        ensures { result ≡ free self.now.net reach self.now.class.space pieces.now layer area.now }
    {
        let question = Question {
            layer,
            net: self.net,
            reach,
            space: self.class.space,
            area: *area,
            laid: false,
        };
        nothing_in_way(&question, pieces)
    }

    /// Whether the step along an axis from a point to the next is lawful.
    pub fn may_step(&self, pieces: &[Piece], p: &Point, axis: Axis) -> bool
        ensures { result ≡ lawful_move (ground_rules self.now pieces.now) p.now (next_along axis p.now) }
    {
        let next = match axis {
            Axis::X if p.x < self.size.width => Point { x: p.x + 1, ..*p },
            Axis::Y if p.y < self.size.height => Point { y: p.y + 1, ..*p },
            _ => return false,
        };
        let wire = Rect::between(p, &next);
        self.size.has(&next) && self.is_free(pieces, self.class.half, p.layer as u8, &wire)
    }

    /// Whether the via from a point to the next layer is lawful.
    pub fn may_via(&self, pieces: &[Piece], p: &Point) -> bool
        ensures { result ≡ lawful_move (ground_rules self.now pieces.now) p.now (to_layer (p.now.layer + 1)) }
    {
        if self.size.layers <= p.layer {
            return false;
        }
        let next = Point {
            layer: p.layer + 1,
            ..*p
        };
        self.size.has(&next) && self.has_pads(pieces, p.layer as u8, &Rect::between(p, p))
    }

    /// Whether a closed box is free for vias on a layer and on the next.
    fn has_pads(&self, pieces: &[Piece], layer: u8, area: &Rect) -> bool
        requires { layer ≤ 8 }
        ensures { result ≡ free_on_both (ground_rules self.now pieces.now) layer area.now }
    {
        self.is_free(pieces, self.class.pad, layer, area)
            && self.is_free(pieces, self.class.pad, layer + 1, area)
    }
}

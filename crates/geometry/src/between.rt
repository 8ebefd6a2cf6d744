// The closed spans and boxes between two coordinates and two points.
ghost use Rattle.std.specs.Prelude.{◌≡◌, ◌<◌, ◌^◌, pos};
ghost use Rattle.geometry.specs.Boxes.{span, box, as_border, clamped_box, HasBorders};

use crate::point::Point;
use crate::rect::{Rect, Span};

/// A coordinate as a border, the greatest border for one that is beyond it.
fn as_border(n: u32) -> i32
    ensures { result ≡ pos (as_border n) }
{
    i32::try_from(n).unwrap_or(i32::MAX)
}

impl Span {
    /// The closed span between two coordinates, in either order, exact below `2 ^ 31`.
    pub fn between(a: u32, b: u32) -> Span
        ensures clamped { result ≡ span (as_border a) (as_border b) }
        ensures exact { a < 2 ^ 31 → b < 2 ^ 31 → result ≡ span a b }
    {
        Span {
            low: as_border(a.min(b)),
            high: as_border(a.max(b)),
        }
    }
}

impl Rect {
    /// The closed box between two points, whatever their layers, exact where their coordinates are below `2 ^ 31`.
    pub fn between(p: &Point, q: &Point) -> Rect
        ensures clamped { result ≡ clamped_box p.now q.now }
        ensures exact { HasBorders p.now → HasBorders q.now → result ≡ box p.now q.now }
    {
        Rect {
            x: Span::between(p.x, q.x),
            y: Span::between(p.y, q.y),
        }
    }
}

// Zones round pieces, axis by axis, and whether a piece is in the way.
ghost use Rattle.std.specs.Prelude.{◌≡◌};
ghost use Rattle.geometry.specs.Zones.{widened, moved_out, crosses, meets, counts, in_way};

use crate::net::different_nets;
use crate::piece::{Mark, Piece};
use crate::question::Question;
use crate::rect::{Rect, Span};

/// The low and the high border of a span moved out by `out` on either side.
// By a rule of the project one axis of a zone is a pair, which callers take apart.
pub fn zone_axis(span: &Span, out: u32) -> (i64, i64)
    ensures low { result.0 ≡ (widened out span.now).low }
    ensures high { result.1 ≡ (widened out span.now).high }
{
    (span.low as i64 - out as i64, span.high as i64 + out as i64)
}

/// Whether a span moved out by `out`, without its borders, crosses a closed one.
pub fn zone_crosses(span: &Span, out: u32, closed: &Span) -> bool
    ensures { result ≡ crosses (widened out span.now) closed.now }
{
    let (low, high) = zone_axis(span, out);
    low < closed.high as i64 && (closed.low as i64) < high
}

/// Whether a rectangle moved out by `out`, without its border, meets a closed box.
pub fn zone_meets(rect: &Rect, out: u32, area: &Rect) -> bool
    ensures { result ≡ meets (moved_out out rect.now) area.now }
{
    zone_crosses(&rect.x, out, &area.x) && zone_crosses(&rect.y, out, &area.y)
}

/// Whether a piece counts for a question.
fn piece_counts(q: &Question, p: &Piece) -> bool
    ensures { result ≡ counts q.now p.now }
{
    !q.laid || p.mark == Mark::Laid
}

/// Whether a piece is in the way of what a question asks for.
pub fn in_way(q: &Question, p: &Piece) -> bool
    ensures { result ≡ in_way q.now p.now }
{
    let out = q.reach as u32 + q.space.max(p.space) as u32;
    piece_counts(q, p)
        && p.layer == q.layer
        && different_nets(p.net, q.net)
        && zone_meets(&p.rect, out, &q.area)
}

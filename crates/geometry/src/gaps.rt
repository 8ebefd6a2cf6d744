// Whether rectangles lie apart: functions of both, since neither is the subject.
ghost use Rattle.std.specs.Prelude.{◌≡◌, pos, ◌+ℤ◌, int_le};
ghost use Rattle.geometry.specs.Clearance.{apart_along, apart as lie_apart};

use crate::rect::{Rect, Span};

/// Whether `a` ends by at least `g` before `b` begins.
fn ends_before(g: u32, a: &Span, b: &Span) -> bool
    ensures { result ≡ int_le (a.now.high +ℤ pos g) b.now.low }
{
    a.high as i64 + g as i64 <= b.low as i64
}

/// Whether two spans lie apart by `g`.
fn spans_apart(g: u32, a: &Span, b: &Span) -> bool
    ensures { result ≡ apart_along g a.now b.now }
{
    ends_before(g, b, a) || ends_before(g, a, b)
}

/// Whether two rectangles lie apart by `g`, in x or in y.
pub fn apart(g: u32, a: &Rect, b: &Rect) -> bool
    ensures { result ≡ lie_apart g a.now b.now }
{
    spans_apart(g, &a.x, &b.x) || spans_apart(g, &a.y, &b.y)
}

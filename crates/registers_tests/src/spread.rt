// Pieces and questions spread over a panel and beyond its borders, put to two registers.
ghost use Rattle.std.specs.Prelude.{◌≤◌};

use geometry::{Mark, Piece, Question, Rect, Span};
use registers::Register;
use std::process::Abort;

/// A source of numbers, the same in each run.
#[derive(Debug, PartialEq, Eq, Drop)]
struct Draws {
    last: u32,
}

impl Draws {
    /// A number from 0 to `most`.
    fn next(&mut self, most: u16) -> u16
        ensures { result ≤ most }
    {
        self.last = self.last.wrapping_mul(1664525).wrapping_add(1013904223);
        ((self.last >> 8) % (most as u32 + 1)) as u16
    }

    /// A span that begins between -1,000 and 59,000, of at most this length.
    fn span(&mut self, length: u16) -> Span {
        let low = self.next(60000) as i32 - 1000;
        let high = low + self.next(length) as i32;
        Span { low, high }
    }
}

/// A piece on one of three layers: of any height in every fourth, else a low one.
fn some_piece(d: &mut Draws, job: u16) -> Piece {
    let tall = d.next(3) == 0;
    let rect = Rect {
        x: d.span(9000),
        y: d.span(if tall { 61000 } else { 3000 }),
    };
    Piece {
        layer: d.next(2) as u8,
        rect,
        net: d.next(2) as u8,
        space: d.next(1000),
        job,
        mark: if d.next(1) == 0 {
            Mark::Placed
        } else {
            Mark::Laid
        },
    }
}

/// A question about a small box.
fn some_question(d: &mut Draws) -> Question {
    let area = Rect {
        x: d.span(300),
        y: d.span(300),
    };
    Question {
        layer: d.next(2) as u8,
        net: d.next(2) as u8,
        reach: d.next(500),
        space: d.next(1000),
        area,
        laid: d.next(1) == 0,
    }
}

/// Both registers answer the same questions with a piece.
fn answer_alike<P: Register, R: Register>(rt: &impl Abort, p: &P, r: &R, d: &mut Draws) {
    for _ in 0..200 {
        let q = some_question(d);
        assert_eq!(rt; p.in_the_way(&q).is_some(), r.in_the_way(&q).is_some());
    }
}

/// Two registers of 128 places: they answer alike when full, and after some jobs were taken out.
pub fn agree<P: Register, R: Register>(rt: &impl Abort, p: &mut P, r: &mut R) {
    let mut d = Draws { last: 1 };
    for job in 0..128 {
        let piece = some_piece(&mut d, job % 16);
        assert_eq!(rt; p.add(piece), Ok(()));
        assert_eq!(rt; r.add(piece), Ok(()));
    }
    answer_alike(rt, p, r, &mut d);
    for job in [3, 0, 15] {
        assert_eq!(rt; p.take_out(job), 8);
        assert_eq!(rt; r.take_out(job), 8);
        answer_alike(rt, p, r, &mut d);
    }
}

// The lines of a job.
ghost use Rattle.std.specs.Prelude.{◌≡◌, ◌-◌, length};
ghost use Rattle.std.specs.Iterator.{at_most};
ghost use Rattle.job.specs.Reading.{NextLine};

use crate::reader::Part;
use crate::scan::find;

/// Reads a job line by line, from the place `next` on. What it hands out are parts of the job itself, each without its newline.
// A job is any bytes, and by a rule of the project a struct over them, with its place, hands out parts of them.
#[derive(Debug, PartialEq, Eq, Drop)]
pub struct LineReader<'a> {
    job: &'a [u8],
    next: usize,
}

impl<'a> LineReader<'a> {
    /// A reader at the first line of a job.
    pub fn new(job: &'a [u8]) -> LineReader<'a>
        ensures job { result.job.now ≡ job.now }
        ensures next { result.next ≡ 0 }
    {
        LineReader { job, next: 0 }
    }
}

impl<'a> Iterator for LineReader<'a> {
    type Item = Part<'a>;

    ghost next_gives = { NextLine };

    ghost remaining = { λ r. at_most (length r.job.now - r.next) };

    /// The next line, or none if none is left.
    fn next(&mut self) -> Option<Part<'a>> {
        let place = self.next;
        if place >= self.job.len() {
            return None;
        }
        let rest = &self.job[place..];
        let end = find(rest, b'\n');
        let text = &rest[..end];
        self.next = self.job.len().min(place + end + 1);
        Some(Part { place, text })
    }
}

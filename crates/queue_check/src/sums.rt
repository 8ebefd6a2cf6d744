// Tallies of what was put in and taken out.
use std::fmt;

/// A count, a sum and an exclusive or of squares: equal for equal multisets.
#[derive(Clone, Copy, Debug, Default, PartialEq, Eq)]
pub struct Sums {
    count: u64,
    sum: u64,
    squares: u64,
}

impl Sums {
    /// Adds an element by its number.
    pub(crate) fn add(&mut self, digest: u64) {
        self.count = self.count.wrapping_add(1);
        self.sum = self.sum.wrapping_add(digest);
        self.squares ^= digest.wrapping_mul(digest);
    }

    /// How many were added.
    pub(crate) fn count(&self) -> u64 {
        self.count
    }
}

/// How many elements were put in, taken out, and taken out wrongly.
#[derive(Clone, Copy, Debug, Default, PartialEq, Eq)]
pub struct Tally {
    pub puts: u64,
    pub takes: u64,
    pub wrong: u64,
}

impl Tally {
    /// One more was put in.
    pub(crate) fn add_put(&mut self) {
        self.puts = self.puts.wrapping_add(1);
    }

    /// One more was taken out.
    pub(crate) fn add_take(&mut self) {
        self.takes = self.takes.wrapping_add(1);
    }

    /// One more went wrong.
    pub(crate) fn add_wrong(&mut self) {
        self.wrong = self.wrong.wrapping_add(1);
    }
}

impl fmt::Display for Tally {
    fn fmt<W: fmt::Write>(&self, f: &mut fmt::Formatter<W>) -> fmt::Result {
        write!(
            f,
            "{} put, {} taken, {} wrong",
            self.puts, self.takes, self.wrong
        )
    }
}

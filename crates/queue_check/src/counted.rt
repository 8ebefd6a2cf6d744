// A number that counts how often it is compared.
ghost use Rattle.queue_check.specs.Values.{under, under_ranks};

use queue::Ranked;
use std::cell::Cell;

/// A number, and the count of comparisons that it shares with others.
#[derive(Clone, Copy)]
pub struct Counted<'a> {
    pub value: u32,
    pub count: &'a Cell<u64>,
}

impl<'a> Ranked for Counted<'a> {
    ghost below = { under };

    ghost order = { under_ranks };

    fn less(&self, other: &Counted<'a>) -> bool {
        self.count.set(self.count.get().wrapping_add(1));
        self.value < other.value
    }
}

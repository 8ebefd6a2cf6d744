// Counts the comparisons of puts and takes.
use crate::counted::Counted;
use crate::random::Random;
use queue::Queue;
use std::alloc::{AllocError, Global};
use std::cell::Cell;
use std::fmt;

/// How many elements were put in and taken out, and the comparisons of all puts and of all takes.
#[derive(Clone, Copy, Debug, PartialEq, Eq)]
pub struct Comparisons {
    pub elements: usize,
    pub puts: u64,
    pub takes: u64,
}

/// Comparisons a hundred times over, for each element; 0 of no elements.
fn hundredths(comparisons: u64, elements: usize) -> u64 {
    comparisons
        .wrapping_mul(100)
        .checked_div(elements as u64)
        .unwrap_or(0)
}

impl fmt::Display for Comparisons {
    fn fmt<W: fmt::Write>(&self, f: &mut fmt::Formatter<W>) -> fmt::Result {
        let put = hundredths(self.puts, self.elements);
        let take = hundredths(self.takes, self.elements);
        write!(
            f,
            "{}.{:02} for each put, {}.{:02} for each take",
            put / 100,
            put % 100,
            take / 100,
            take % 100
        )
    }
}

/// Puts in seeded numbers, and takes all out.
pub(crate) fn count_comparisons(heap: Global, n: usize) -> Result<Comparisons, AllocError> {
    let count = Cell::new(0);
    let blank = Counted {
        value: 0,
        count: &count,
    };
    let mut slots = vec![in heap; blank; n]?;
    let mut queue = Queue::new(&mut slots);
    let mut random = Random::new(5);
    for _ in 0..n {
        let value = random.next();
        let number = Counted {
            value,
            count: &count,
        };
        queue.put(number).unwrap();
    }
    let puts = count.get();
    while queue.take().is_some() {}
    let takes = count.get().wrapping_sub(puts);
    Ok(Comparisons {
        elements: n,
        puts,
        takes,
    })
}

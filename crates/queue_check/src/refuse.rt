// Puts one element more into a queue than it has slots.
use crate::sums::Tally;
use queue::{Full, Queue};
use std::alloc::{AllocError, Global};

/// Fills the slots and puts in one more, which is to be refused; wrong is anything else.
pub(crate) fn fill_up(heap: Global, n: usize) -> Result<Tally, AllocError> {
    let mut slots = vec![in heap; 0u32; n]?;
    let mut queue = Queue::new(&mut slots);
    let mut tally = Tally::default();
    for _ in 0..n {
        match queue.put(7) {
            Ok(()) => tally.add_put(),
            Err(Full) => tally.add_wrong(),
        }
    }
    if queue.put(7).is_ok() || queue.len() != n {
        tally.add_wrong();
    }
    Ok(tally)
}

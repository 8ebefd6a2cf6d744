// Mixes puts and takes, against a plain list of what waits.
use crate::random::Random;
use crate::sample::Sample;
use crate::sums::Tally;
use queue::{Queue, Ranked};
use std::alloc::{AllocError, Global};

/// Takes x out of the list; false if it is not there, or something there is below it.
fn leaves<T: Ranked + Sample>(listed: &mut Vec<T>, x: T) -> bool {
    if listed.iter().any(|y| y.less(&x)) {
        return false;
    }
    let Some(place) = listed.iter().position(|y| *y == x) else {
        return false;
    };
    listed.swap_remove(place);
    true
}

/// Puts and takes in a seeded order; wrong is each take that disagrees with the list.
pub(crate) fn mix<T: Ranked + Sample>(
    heap: Global,
    slots: &mut [T],
    steps: usize,
    seed: u64,
) -> Result<Tally, AllocError> {
    let mut random = Random::new(seed);
    let mut queue = Queue::new(slots);
    let mut listed = Vec::new(heap);
    let mut tally = Tally::default();
    for _ in 0..steps {
        if random.next() % 3 < 2 {
            let x = T::sample(&mut random);
            if queue.put(x).is_ok() {
                listed.push(x)?;
                tally.add_put();
            }
        } else if let Some(x) = queue.take() {
            tally.add_take();
            if !leaves(&mut listed, x) {
                tally.add_wrong();
            }
        } else if !listed.is_empty() {
            tally.add_wrong();
        }
    }
    Ok(tally)
}

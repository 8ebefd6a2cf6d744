// Fills a queue and takes everything out: it comes out ascending, and the same multiset.
use crate::random::Random;
use crate::sample::Sample;
use crate::sums::{Sums, Tally};
use queue::{Queue, Ranked};

fn fill<T: Ranked + Sample>(queue: &mut Queue<'_, T>, n: usize, seed: u64) -> Sums {
    let mut random = Random::new(seed);
    let mut put = Sums::default();
    for _ in 0..n {
        let x = T::sample(&mut random);
        if queue.put(x).is_ok() {
            put.add(x.digest());
        }
    }
    put
}

/// Takes all out; wrong is each that is below the one before.
fn drain<T: Ranked + Sample>(queue: &mut Queue<'_, T>, tally: &mut Tally) -> Sums {
    let mut taken = Sums::default();
    let mut last = None;
    while let Some(x) = queue.take() {
        if last.is_some_and(|before: T| x.less(&before)) {
            tally.add_wrong();
        }
        tally.add_take();
        taken.add(x.digest());
        last = Some(x);
    }
    taken
}

/// Puts in as many seeded elements as there are slots, and takes all out.
pub(crate) fn fill_and_drain<T: Ranked + Sample>(slots: &mut [T], seed: u64) -> Tally {
    let n = slots.len();
    let mut queue = Queue::new(slots);
    let put = fill(&mut queue, n, seed);
    let mut tally = Tally {
        puts: put.count(),
        ..Tally::default()
    };
    let taken = drain(&mut queue, &mut tally);
    if put != taken || !queue.is_empty() {
        tally.add_wrong();
    }
    tally
}

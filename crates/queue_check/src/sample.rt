// Seeded elements of a queue.
use crate::random::Random;
use costs::Money;
use frontier::Entry;

/// Elements that can be seeded.
pub trait Sample: Copy + PartialEq {
    /// A seeded element.
    fn sample(random: &mut Random) -> Self;

    /// A number that tells it from other elements.
    fn digest(&self) -> u64;
}

impl Sample for u32 {
    fn sample(random: &mut Random) -> u32 {
        random.next() % 500
    }

    fn digest(&self) -> u64 {
        u64::from(*self)
    }
}

impl Sample for Entry<Money> {
    fn sample(random: &mut Random) -> Entry<Money> {
        let units = u64::from(random.next() % 300);
        let node = random.next();
        Entry {
            amount: Money { units },
            node,
        }
    }

    fn digest(&self) -> u64 {
        self.amount
            .units
            .wrapping_mul(1 << 32)
            .wrapping_add(u64::from(self.node))
    }
}

// Seeded numbers by a linear congruential generator.

/// The state of the generator.
#[derive(Drop)]
pub struct Random {
    state: u64,
}

impl Random {
    /// A generator that starts at the seed.
    pub(crate) fn new(seed: u64) -> Random {
        Random { state: seed }
    }

    /// The next number.
    pub(crate) fn next(&mut self) -> u32 {
        self.state = self
            .state
            .wrapping_mul(6364136223846793005)
            .wrapping_add(1442695040888963407);
        (self.state >> 40) as u32
    }
}

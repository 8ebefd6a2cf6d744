// The order of the elements of a queue.
ghost use Rattle.std.specs.Prelude.{◌≡◌, Bool, nat_lt};
ghost use Rattle.queue.specs.Order.{Ranks, numbers_rank};

/// Values of which any two compare; two of which neither is below the other tie.
// Not `Ord`, by which values that tie would have to be `==`: frontier entries of one amount at two nodes tie.
pub trait Ranked: Copy {
    ghost below: { Self → Self → Bool };

    ghost order: { Ranks below };

    /// Whether this value is below the other.
    fn less(&self, other: &Self) -> bool
        ensures { result ≡ below self.now other.now };
}

impl Ranked for u32 {
    ghost below = { nat_lt };

    ghost order = { numbers_rank };

    fn less(&self, other: &u32) -> bool {
        *self < *other
    }
}

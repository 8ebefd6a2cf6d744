// Amounts of cost, which can be added and compared.
ghost use Rattle.std.specs.Prelude.{◌≡◌, ◌+◌, ◌^◌, ◌<◌};
ghost use Rattle.costs.specs.Amounts.{Sums, Laws};

/// An amount of cost, which stands for a meaning without a ceiling. Its zero and its order are methods of its own: bounds `Default`
/// and `Ord` would ask more of each kind.
pub trait Amount: Copy {
    ghost Meaning: { Type 0 };

    ghost means: { Self → Meaning };

    /// What costs nothing, the sum, the order and the bulk of meanings.
    ghost sums: { Sums Meaning };

    ghost laws: { Laws sums };

    /// What costs nothing.
    fn zero() -> Self
        ensures { means result ≡ sums.nothing };

    /// The sum, exact where the two bulks together are below `2 ^ 62` and free beyond.
    fn sum(self, other: Self) -> Self
        ensures { sums.bulk (means self) + sums.bulk (means other) < 2 ^ 62
            → means result ≡ sums.plus (means self) (means other) };

    /// Whether this amount is not greater than the other.
    fn at_most(&self, other: &Self) -> bool
        ensures { result ≡ sums.leq (means self.now) (means other.now) };
}

// When two nets are different.
ghost use Rattle.std.specs.Prelude.{◌≡◌};
ghost use Rattle.geometry.specs.Nets.{different_nets};

/// Whether two nets are different: they are unless both are the same number above 0.
pub fn different_nets(a: u8, b: u8) -> bool
    ensures { result ≡ different_nets a b }
{
    !(a == b && 0 < a)
}

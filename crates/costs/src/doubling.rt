// An amount taken many times.
ghost use Rattle.std.specs.Prelude.{◌≡◌, ◌*◌, ◌^◌, ◌<◌};
ghost use Rattle.costs.specs.Amounts.{times};

use crate::amount::Amount;

/// The amount `k` times over, by doubling: exact where `k` times its bulk is below `2 ^ 62`.
pub fn times<C: Amount>(amount: C, k: u32) -> C
    ensures { k * C.sums.bulk (C.means amount) < 2 ^ 62 → C.means result ≡ times C.sums k (C.means amount) }
{
    let mut total = C::zero();
    let mut unit = amount;
    let mut rest = k;
    // halves: no list to go over
    while rest > 0 {
        if rest % 2 == 1 {
            total = total.sum(unit);
        }
        unit = unit.sum(unit);
        rest /= 2;
    }
    total
}

// The kind of cost that counts vias first, and then the money of the runs, by a price list. No twin of `money`: each kind has its
// own sort of amount and its own laws.
ghost use Rattle.std.specs.Prelude.{◌≡◌, ℕ};
ghost use Rattle.costs.specs.Vias.{pairs, vias_prices};
ghost use Rattle.costs.specs.Lawful.{pair_laws};
ghost use Rattle.std.proofs.Common.{rules};

use crate::amount::Amount;
use crate::kind::CostKind;
use crate::prices::PriceList;
use geometry::Axis;

/// A number of vias, and the money of the runs: ordered by vias first.
#[derive(Clone, Copy, Debug, PartialEq, Eq, PartialOrd, Ord, Default)]
pub struct ViasMoney {
    pub vias: u64,
    pub units: u64,
}

impl Amount for ViasMoney {
    ghost Meaning = { ℕ × ℕ };

    ghost means = { λ m. (m.vias, m.units) };

    ghost sums = { pairs };

    ghost laws = { pair_laws };

    fn zero() -> ViasMoney {
        ViasMoney::default()
    }

    fn sum(self, other: ViasMoney) -> ViasMoney {
        ViasMoney {
            vias: self.vias.saturating_add(other.vias),
            units: self.units.saturating_add(other.units),
        }
    }

    fn at_most(&self, other: &ViasMoney) -> bool {
        self <= other
    }
}

/// A via counts one, whatever the list says of it; the runs cost what the list says.
#[derive(Clone, Copy, Debug, PartialEq, Eq)]
pub struct ByVias {
    pub prices: PriceList,
}

impl CostKind for ByVias {
    type Amount = ViasMoney;

    ghost prices = { λ k. vias_prices k.prices };

    ghost step_bulk = { Prim.search rules };

    ghost via_bulk = { Prim.search rules };

    fn step(&self, axis: Axis, layer: u8) -> ViasMoney {
        ViasMoney {
            vias: 0,
            units: self.prices.row_or_blank(layer).along(axis) as u64,
        }
    }

    fn via(&self, layer: u8) -> ViasMoney {
        ViasMoney { vias: 1, units: 0 }
    }
}

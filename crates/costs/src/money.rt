// The kind of cost that is a sum of money, by a price list. No twin of `vias`: each kind has its own sort of amount and its own
// laws.
ghost use Rattle.std.specs.Prelude.{◌≡◌, ℕ};
ghost use Rattle.costs.specs.Money.{money, money_prices};
ghost use Rattle.costs.specs.Lawful.{money_laws};
ghost use Rattle.std.proofs.Common.{rules};

use crate::amount::Amount;
use crate::kind::CostKind;
use crate::prices::PriceList;
use geometry::Axis;

/// An amount of money.
#[derive(Clone, Copy, Debug, PartialEq, Eq, PartialOrd, Ord, Default)]
pub struct Money {
    pub units: u64,
}

impl Amount for Money {
    ghost Meaning = { ℕ };

    ghost means = { λ m. m.units };

    ghost sums = { money };

    ghost laws = { money_laws };

    fn zero() -> Money {
        Money::default()
    }

    fn sum(self, other: Money) -> Money {
        Money {
            units: self.units.saturating_add(other.units),
        }
    }

    fn at_most(&self, other: &Money) -> bool {
        self <= other
    }
}

/// Steps and vias cost what the list says.
#[derive(Clone, Copy, Debug, PartialEq, Eq)]
pub struct ByMoney {
    pub prices: PriceList,
}

impl CostKind for ByMoney {
    type Amount = Money;

    ghost prices = { λ k. money_prices k.prices };

    ghost step_bulk = { Prim.search rules };

    ghost via_bulk = { Prim.search rules };

    fn step(&self, axis: Axis, layer: u8) -> Money {
        Money {
            units: self.prices.row_or_blank(layer).along(axis) as u64,
        }
    }

    fn via(&self, layer: u8) -> Money {
        Money {
            units: self.prices.row_or_blank(layer).t.min(1_000_000) as u64,
        }
    }
}

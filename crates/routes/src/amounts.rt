// Lines suffice, at the amounts that are known.
ghost use Rattle.costs.specs.Maximum.{maximum};
ghost use Rattle.costs.specs.Money.{money};
ghost use Rattle.costs.specs.Vias.{pairs};
ghost use Rattle.routes.specs.Claims.{LinesSuffice};

use crate::lines::lines_suffice;
use costs::{Money, ViasMoney};

/// Lines suffice where costs are sums of money.
pub fn lines_suffice_for_money()
    ensures { LinesSuffice money }
{
    lines_suffice::<Money>()
}

/// Lines suffice where vias are counted first, and then money.
pub fn lines_suffice_for_vias_and_money()
    ensures { LinesSuffice pairs }
{
    lines_suffice::<ViasMoney>()
}

// No type has these amounts, so that this is no call of the theorem on types.
/// Lines suffice where a route costs as much as its dearest step: such sums do not cancel.
pub fn lines_suffice_for_maximum()
    ensures { LinesSuffice maximum }
{}

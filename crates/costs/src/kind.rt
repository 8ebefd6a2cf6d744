// Kinds of cost: the sort of amount that a path costs, and the price of each step.
ghost use Rattle.std.specs.Prelude.{◌≡◌, ℕ, ◌≤◌};
ghost use Rattle.geometry.specs.declared.axis.Axis.{Axis};
ghost use Rattle.costs.specs.Amounts.{Prices, step_price};

use crate::amount::Amount;
use geometry::Axis;

/// The prices of a unit step along each axis on each layer, and of the via between a layer and the next, exact on the layers
/// 1 to 8 and free off them.
pub trait CostKind: Copy {
    type Amount: Amount;

    ghost prices: { Self → Prices Self.Amount };

    /// The price of a unit step along an axis on a layer.
    fn step(&self, axis: Axis, layer: u8) -> Self::Amount
        ensures { 1 ≤ layer → layer ≤ 8
            → Self.Amount.Amount.means result ≡ Self.Amount.Amount.means (step_price axis (prices self.now) layer) };

    /// The price of the via between a layer and the next.
    fn via(&self, layer: u8) -> Self::Amount
        ensures { 1 ≤ layer → layer ≤ 8
            → Self.Amount.Amount.means result ≡ Self.Amount.Amount.means ((prices self.now).via layer) };

    ghost step_bulk: { (k : Self) (axis : Axis) (l : ℕ) → 1 ≤ l → l ≤ 8
        → Self.Amount.Amount.sums.bulk (Self.Amount.Amount.means (step_price axis (prices k) l)) ≤ 65535 };

    ghost via_bulk: { (k : Self) (l : ℕ) → 1 ≤ l → l ≤ 8
        → Self.Amount.Amount.sums.bulk (Self.Amount.Amount.means ((prices k).via l)) ≤ 1000000 };
}

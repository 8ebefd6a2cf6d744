//! What the steps of a path cost: amounts, kinds of cost, and price lists.
#![tactic(auto)]

pub mod amount;
pub mod cases;
pub mod doubling;
pub mod kind;
pub mod laws;
pub mod money;
pub mod prices;
pub mod vias;

pub use amount::Amount;
pub use cases::worked_comparisons_hold;
pub use kind::CostKind;
pub use laws::maximum_keeps_the_laws;
pub use money::{ByMoney, Money};
pub use prices::{PriceList, Row, RowRefusal};
pub use vias::{ByVias, ViasMoney};

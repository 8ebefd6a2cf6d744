// How far a job has come, and what it has set.
use crate::forms::{CostChoice, RegisterChoice};
use costs::PriceList;
use panel::Sheet;

/// The stages of a job: until a panel line is accepted, until the panel is opened, and from then on.
#[derive(Clone, Copy, Debug, PartialEq, Eq)]
pub enum Stage {
    Start,
    Setup,
    Open,
}

/// The stage of a job, and what its accepted lines have set so far.
#[derive(Debug, PartialEq, Eq, Drop)]
pub struct Setup {
    pub stage: Stage,
    pub sheet: Sheet,
    pub prices: PriceList,
    pub cost: CostChoice,
    pub register: RegisterChoice,
}

// What the laws of amounts allow.
ghost use Rattle.costs.specs.Amounts.{Laws};
ghost use Rattle.costs.specs.Maximum.{maximum};

/// The greater of two numbers is a sum by the laws: sums need not cancel, nor grow.
#[tactic(auto, using(crate::specs::Lawful::maximum_laws))]
pub fn maximum_keeps_the_laws()
    ensures { Laws maximum }
{}

// Lines suffice: no path is cheaper than the best route along enough lines.
ghost use Rattle.routes.specs.Claims.{LinesSuffice, LeastOnLinesIsLeast, NoLineRouteNoPath, OwnLinesAreEnough};
ghost use Rattle.routes.specs.Claims.{LinesLieOnThePanel, LinesAreFew};

use costs::Amount;

/// Every lawful path has a lawful route along enough lines that costs no more, for every kind of amount.
#[tactic(auto, using(crate::proofs::Suffice::lines_suffice))]
pub fn lines_suffice<C: Amount>()
    ensures { LinesSuffice C.sums }
{}

/// What no lawful route along enough lines costs less than, no lawful path costs less than.
pub fn least_on_lines_is_least<C: Amount>()
    ensures { LeastOnLinesIsLeast C.sums }
{}

/// Where no route along enough lines is lawful, no path is.
#[tactic(auto, using(crate::proofs::Suffice::no_line_route_no_path))]
pub fn no_line_route_no_path()
    ensures { NoLineRouteNoPath }
{}

/// The lines of a request are enough for it.
#[tactic(auto, using(crate::proofs::Enough::own_lines_are_enough))]
pub fn own_lines_are_enough()
    ensures { OwnLinesAreEnough }
{}

/// The lines of a request lie on the panel.
#[tactic(auto, using(crate::proofs::Few::lines_lie_on_the_panel))]
pub fn lines_lie_on_the_panel()
    ensures { LinesLieOnThePanel }
{}

/// The lines of a request along an axis are at most four for each piece, and two.
pub fn lines_are_few()
    ensures { LinesAreFew }
{}

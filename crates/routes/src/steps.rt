// Routes of straight moves, cut into steps.
ghost use Rattle.routes.specs.Claims.{RoutesArePaths, LineRoutesAreUnitRoutes, StraightRuns};

use costs::Amount;

/// The steps of a lawful route are a lawful path of the same cost and with the same points.
pub fn routes_are_paths<C: Amount>()
    ensures { RoutesArePaths C.sums }
{}

/// Every lawful route along lines has a lawful path of the same cost and with the same points.
pub fn line_routes_are_unit_routes<C: Amount>()
    ensures { LineRoutesAreUnitRoutes C.sums }
{}

/// A straight move is lawful exactly if its steps are.
#[tactic(auto, using(crate::proofs::Paths::straight_runs))]
pub fn straight_runs()
    ensures { StraightRuns }
{}

// Worked cases of the rules.
ghost use Rattle.routes.specs.Cases.{WorkedRoutes};

/// The worked cases hold.
pub fn worked_routes_hold()
    ensures { WorkedRoutes }
{}

// The clearance of what is laid for a lawful route.
ghost use Rattle.routes.specs.Claims.{RunKeepsClear, ViaKeepsClear, ClearPiecesKeepClear, WholeRunsAreLawful};
ghost use Rattle.routes.specs.Claims.{LaidPiecesKeepOrder};

/// A lawful run, moved out by the half width, has its clearance.
#[tactic(auto, using(crate::proofs::Clears::run_keeps_clear))]
pub fn runs_keep_clear()
    ensures { RunKeepsClear }
{}

/// The squares of a lawful via have their clearance on both layers.
#[tactic(auto, using(crate::proofs::Clears::via_keeps_clear))]
pub fn vias_keep_clear()
    ensures { ViaKeepsClear }
{}

/// Between the points of a lawful route lie lawful runs and vias.
#[tactic(auto, using(crate::proofs::Paths::whole_runs_are_lawful))]
pub fn whole_runs_are_lawful()
    ensures { WholeRunsAreLawful }
{}

/// A piece that is clear of another keeps the clearance that the two owe one another.
#[tactic(auto, using(crate::proofs::Clears::clear_pieces_keep_clear))]
pub fn clear_pieces_keep_clear()
    ensures { ClearPiecesKeepClear }
{}

/// The pieces that are laid along a lawful route leave the standing pieces in order.
#[tactic(auto, using(crate::proofs::InOrder::laid_pieces_keep_order))]
pub fn laid_pieces_keep_order()
    ensures { LaidPiecesKeepOrder }
{}

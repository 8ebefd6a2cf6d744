// Worked comparisons of amounts.
ghost use Rattle.costs.specs.Cases.{WorkedComparisons};

/// Vias are compared first, and money decides between as many.
pub fn worked_comparisons_hold()
    ensures { WorkedComparisons }
{}

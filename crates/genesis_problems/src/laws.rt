ghost use Rattle.genesis_problems.specs.Laws.{FirstProblem};

/// The first problem of a genesis breaks the rule that `genesis_fault` names; it has no problem
/// if and only if no rule is broken.
pub fn first_problem()
    ensures { FirstProblem }
{}

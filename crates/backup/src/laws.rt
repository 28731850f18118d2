//! Laws of the seeds: each game has one.
ghost use Rattle.backup.specs.Laws.{CornerValuesAreOne, EvaluationsAreOne, SeedNodesAreOne, SeedPointsAreOne};

/// A law: a game has one list of seed nodes, one value and reply for each corner, and one list of seed points; and a
/// point must be worth one number among others.
pub fn law_seeds()
    ensures nodes { SeedNodesAreOne }
    ensures corners { CornerValuesAreOne }
    ensures evaluations { EvaluationsAreOne }
    ensures points { SeedPointsAreOne }
{}

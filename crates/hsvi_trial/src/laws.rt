//! Laws of runs and their journals.

ghost use Rattle.hsvi_trial.specs.Copies.{FirstMembersStay, NodesStay, PointsStay, RightUnderAnyNumber};
ghost use Rattle.hsvi_trial.specs.Growth.{OneMoreVisit};

/// A law: first members of sets stay where sets grow, and visits that keep none leave a set.
pub fn law_members()
    ensures first { FirstMembersStay }
    ensures nodes { NodesStay }
    ensures points { PointsStay }
{}

/// A law: a run so far whose last visit is not cut, with one more visit by the rules, is a run so far; and a right
/// visit is right under any trial's number.
pub fn law_growth()
    ensures more { OneMoreVisit }
    ensures number { RightUnderAnyNumber }
{}

//! Laws of corners, bounds and splits, of which a mass has one of each, and of points that are changed.

ghost use Rattle.point_set.specs.Changes.{LoweredStand, RenamedStand, ReplacedFit};
ghost use Rattle.point_set.specs.Laws.{BestAreOne, CornersAreOne, SawteethAreOne, SplitsAreOne, TimesAreOne, ToothSplitsAreOne};

/// A law: a state has at most one current corner, a belief fits into a mass so many times, and a mass has one sawtooth
/// bound and one best point, or none.
pub fn law_bounds()
    ensures corners { CornersAreOne }
    ensures times { TimesAreOne }
    ensures sawtooth { SawteethAreOne }
    ensures best { BestAreOne }
{}

/// A law: a mass has one split by wanted points, and one tooth split.
pub fn law_splits()
    ensures split { SplitsAreOne }
    ensures tooth { ToothSplitsAreOne }
{}

/// A law: where all points stand, and one is replaced by a point of the same belief and of no higher value, which
/// stands among the points as they were, all points stand. Shares of a point in itself are shares in what it was. Where
/// one is replaced by a point that fits, all points fit.
pub fn law_lowered()
    ensures stand { LoweredStand }
    ensures fit { ReplacedFit }
{}

/// A law: where all points stand, and one point is of the belief of another and has no higher value, the shares of a
/// point in the other may go to the one, equal shares added: all points stand after it. Done for point after point, it
/// renames all shares in the other.
pub fn law_renamed()
    ensures { RenamedStand }
{}

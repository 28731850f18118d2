//! Laws of floors and shares, for those who stand on them.

ghost use Rattle.scaled_num.specs.Laws.{FloorsAreOne, SharesAreOne};

/// A law: a quotient has one floor, and weights share a total in one way.
pub fn law_shares()
    ensures floors { FloorsAreOne }
    ensures shares { SharesAreOne }
{}

//! Branches, which nodes and points go on by.

/// A branch: after own action `a` and observation `o`, go on with member `k` of a set, by a weight.
#[derive(Clone, Copy, Debug, PartialEq, Eq)]
pub struct Branch {
    /// The own action.
    pub a: u32,
    /// The observation.
    pub o: u32,
    /// The number of the member.
    pub k: u32,
    /// The weight, at least 1.
    pub weight: i128,
}

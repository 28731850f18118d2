//! Points of a splitting strategy.

use belief::{Belief, Mixes};
use game_model::Branch;

/// The greatest weight of a share.
pub const MOST_SHARE: i128 = 1 << 66;

/// A belief, what it is worth at most, how the informed player mixes there, and how the masses that follow are
/// split into beliefs of points.
#[derive(Drop)]
pub struct Point {
    /// The belief.
    pub belief: Belief,
    /// The value in units, times the belief's total.
    pub value: i128,
    /// The mixes of the informed player.
    pub mixes: Mixes,
    /// The shares, by rising own action, observation and point.
    pub splits: Vec<Branch>,
}

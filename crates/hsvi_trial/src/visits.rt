//! A visit of a belief, as the journal of a search keeps it.

use belief::Belief;

/// A visit of a belief: where it was made, and what it kept and chose.
#[derive(Drop)]
pub struct Visit {
    /// The number of its trial.
    pub trial: u32,
    pub depth: u32,
    pub belief: Belief,
    /// Whether it was on the way down.
    pub down: bool,
    /// The number of the node that it kept.
    pub node: Option<u32>,
    /// The number of the point that it kept.
    pub point: Option<u32>,
    /// The own action and the observation by which the way down went on.
    pub chosen: Option<(u32, u32)>,
}

//! What a play is made of.

use scaled_num::Fraction;

/// How the informed player plays.
#[derive(Clone, Copy, Debug, PartialEq, Eq)]
pub enum Rival {
    /// Each action is as likely as another.
    Uniform,
    /// By the points of the certificate.
    Points,
}

/// One stage of a play.
#[derive(Clone, Copy, Debug, PartialEq, Eq)]
pub struct Played {
    /// The state before the stage.
    pub state: u32,
    /// The own action.
    pub own: u32,
    /// The informed action.
    pub informed: u32,
    /// The observation.
    pub seen: u32,
    /// The next state.
    pub to: u32,
}

/// A play: its stages, and its discounted gain over the denominator of the discount to the number of stages.
#[derive(Drop)]
pub struct PlayLog {
    pub steps: Vec<Played>,
    pub gain: Fraction,
}

/// Where a play stands before a stage.
#[derive(Clone, Copy)]
pub struct Standing {
    /// The state.
    pub state: u32,
    /// The node.
    pub node: u32,
    /// The informed player's point, where it plays by points.
    pub point: Option<u32>,
}

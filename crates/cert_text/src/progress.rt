//! How far the reading is, and what a line says.
use controller::Outcome;
use game_model::{Branch, MOST_ACTIONS, MOST_OBSERVATIONS};

/// The most pairs of an own action and an observation.
pub const MOST_PAIRS: usize = MOST_ACTIONS as usize * MOST_OBSERVATIONS as usize;

/// What a reader of certificates knows of the game.
#[derive(Clone, Copy, Debug, PartialEq, Eq)]
pub struct Limits {
    pub states: u32,
    pub own_actions: u32,
    pub informed_actions: u32,
    pub observations: u32,
    /// The span in units.
    pub span: i128,
}

/// What the weights of start nodes, or of start points, are so far.
#[derive(Clone, Copy, Debug, PartialEq, Eq)]
pub struct Weights {
    /// Whether there is one.
    pub some: bool,
    /// Whether there are several.
    pub many: bool,
    /// The greatest common divisor, 0 where there is none.
    pub divisor: u128,
}

/// Before the first of some weights.
pub const NO_WEIGHTS: Weights = Weights {
    some: false,
    many: false,
    divisor: 0,
};

/// What the lines say of the version and the starts so far.
#[derive(Clone, Copy, Debug, PartialEq, Eq)]
pub struct Starts {
    /// The version of the text, 0 before the first line.
    pub version: u32,
    /// The sum of the weights of start nodes.
    pub sum: i128,
    /// The weights of start nodes.
    pub nodes: Weights,
    /// The weights of start points.
    pub points: Weights,
}

/// The line just before.
#[derive(Clone, Copy, Debug, PartialEq, Eq)]
pub enum Latest {
    Nothing,
    Version,
    Outcome,
    Gap,
    Lower,
    Upper,
    Tail,
    Sizes,
    Start,
    Multiple,
    /// A `from` line, with its node.
    From(u32),
    /// An `over` line, with its point.
    Over(u32),
    Node,
    Vector,
    Mix,
    /// A `next` line, with its own action, observation and node.
    Next(u32, u32, u32),
    Point,
    Belief,
    Value,
    /// The `mix` line of a state of a point.
    Mixes,
    /// A `split` line, with its own action, observation and point.
    Split(u32, u32, u32),
    End,
}

/// How far the reading is.
#[derive(Clone, Copy, Debug, PartialEq, Eq)]
pub struct Progress {
    pub limits: Limits,
    pub latest: Latest,
    /// How many nodes and points the `sizes` line says.
    pub nodes: u32,
    pub points: u32,
    /// What the lines say of the version and the starts.
    pub starts: Starts,
    /// How many nodes were begun, or points from the first one on.
    pub begun: u32,
    /// How many states of the point have their `mix` line.
    pub state: u32,
    /// What the weights of the node's steps at each pair of an own action and an observation lack, in rising order.
    pub lacking: [i128; MOST_PAIRS],
    /// The total of the latest belief.
    pub total: i128,
}

/// What a line says.
#[derive(Debug, Drop)]
pub enum Entry {
    Version(u32),
    Outcome(Outcome),
    Gap(i128, i128),
    Lower(i128, i128),
    Upper(i128, i128),
    Tail(i128, i128),
    Sizes(u32, u32),
    Start(u32, u32),
    Multiple(i128),
    /// A start node and its weight.
    From(u32, i128),
    /// A start point and its weight.
    Over(u32, i128),
    Node(u32),
    Vector(Vec<i128>),
    Mix(Vec<i128>),
    Next(Branch),
    Point(u32),
    Belief(Vec<i128>),
    Value(i128),
    /// A state, and the weights of its mix.
    Mixes(u32, Vec<i128>),
    Split(Branch),
    End,
}

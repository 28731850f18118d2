//! How far the reading of rows is, and what a line of the rows says.
use game_model::{Landing, Shape};

/// The line just before, as far as the rows go.
#[derive(Clone, Copy, Debug, PartialEq, Eq)]
pub enum Latest {
    /// The `first` line.
    Start,
    /// A `step` line.
    Row,
    /// An `out` line, with its observation and next state.
    Pair(u32, u32),
}

/// How far the reading of rows is.
#[derive(Clone, Copy, Debug, PartialEq, Eq)]
pub struct Progress {
    pub shape: Shape,
    /// How many rows were begun.
    pub begun: u32,
    /// The sum of the weights of the row so far.
    pub sum: i128,
    pub latest: Latest,
}

/// What a line of the rows says.
#[derive(Clone, Copy, Debug, PartialEq, Eq)]
pub enum RowEntry {
    Step {
        state: u32,
        own: u32,
        informed: u32,
        reward: i128,
    },
    Out(Landing),
    End,
}

//! The limits of games, and the parts that games are made of.

/// The most states of a game, and the length of every fixed array over states.
pub const MOST_STATES: usize = 16;

/// The most actions of either player.
pub const MOST_ACTIONS: u32 = 6;

/// The most observations of a game.
pub const MOST_OBSERVATIONS: u32 = 8;

/// The greatest row total.
pub const MOST_ROW_TOTAL: i128 = 1 << 30;

/// The greatest denominator of a discount.
pub const MOST_DISCOUNT: i128 = 1 << 20;

/// The greatest total of a belief, and the greatest weight in one.
pub const MOST_BELIEF: i128 = 1 << 20;

/// The greatest magnitude of a reward.
pub const MOST_REWARD: i128 = 1 << 30;

/// The most that the row total times the squared denominator times a reward's magnitude may be.
pub const MOST_WIDTH: i128 = 1 << 72;

/// Units of a vector for one unit of reward.
pub const UNITS: i128 = 65_536;

/// The total of every mix.
pub const MIX_TOTAL: i128 = 65_536;

/// Rounds from minus the span to a seed vector, and from the span to the values of the corners.
pub const SEED_ROUNDS: u32 = 256;

/// The sizes of a game, the common total of its rows, and its discount.
#[derive(Clone, Copy, Debug, PartialEq, Eq)]
pub struct Shape {
    /// Number of states, 1 to 16.
    pub states: u32,
    /// Number of the maximiser's actions, 1 to 6.
    pub own_actions: u32,
    /// Number of the informed minimiser's actions, 1 to 6.
    pub informed_actions: u32,
    /// Number of observations, 1 to 8.
    pub observations: u32,
    /// The sum of the weights of each row, 1 to 2^30.
    pub row_total: i128,
    /// The discount as numerator and denominator: `0 <= P < Q <= 2^20`.
    pub discount: (i128, i128),
}

/// What may follow a state and both actions: an observation and a next state, with a whole weight out of the
/// row total.
#[derive(Clone, Copy, Debug, PartialEq, Eq)]
pub struct Landing {
    /// The observation.
    pub seen: u32,
    /// The next state.
    pub to: u32,
    /// The weight, 1 to the row total.
    pub weight: i128,
}

/// A reward, and the row that belongs to it.
#[derive(Debug, Drop)]
pub struct Entry {
    /// The reward of the maximiser.
    pub reward: i128,
    /// What may follow, by rising observation and next state.
    pub row: Vec<Landing>,
}

//! The games of the worked searches.

use game_model::{Game, GameBuilder, GameFault, Shape};
use std::alloc::Global;

/// One state and one action of each player, with this reward and this discount.
pub fn always(alloc: Global, reward: i128, discount: (i128, i128)) -> Result<Game, GameFault> {
    let shape = Shape {
        states: 1,
        own_actions: 1,
        informed_actions: 1,
        observations: 1,
        row_total: 1,
        discount,
    };
    let mut builder = GameBuilder::new(alloc, shape, &[1])?;
    builder.step(reward)?;
    builder.landing(0, 0, 1)?;
    builder.finish()
}

/// The reward 5, without a future.
pub fn five_each_time(alloc: Global) -> Result<Game, GameFault> {
    always(alloc, 5, (0, 1))
}

/// The reward 3, each stage counting half of the one before.
pub fn three_halved(alloc: Global) -> Result<Game, GameFault> {
    always(alloc, 3, (1, 2))
}

/// Matching pennies in one state, without a future.
pub fn pennies(alloc: Global) -> Result<Game, GameFault> {
    let shape = Shape {
        states: 1,
        own_actions: 2,
        informed_actions: 2,
        observations: 1,
        row_total: 1,
        discount: (0, 1),
    };
    let mut builder = GameBuilder::new(alloc, shape, &[1])?;
    for reward in [1, -1, -1, 1] {
        builder.step(reward)?;
        builder.landing(0, 0, 1)?;
    }
    builder.finish()
}

/// Two states that stay as they are, with this first belief: player one is paid where its action is the number of the
/// state.
pub fn guess(alloc: Global, first: &[i128]) -> Result<Game, GameFault> {
    let shape = Shape {
        states: 2,
        own_actions: 2,
        informed_actions: 1,
        observations: 1,
        row_total: 1,
        discount: (0, 1),
    };
    let mut builder = GameBuilder::new(alloc, shape, first)?;
    for s in 0..2 {
        for a in 0..2 {
            builder.step(if s == a { 1 } else { 0 })?;
            builder.landing(0, s, 1)?;
        }
    }
    builder.finish()
}

//! The reward and the row of a triple of state, own action and informed action.

ghost use Rattle.game_gen.specs.Rows.{ArePairs, Serves, landing_if_drawn, pair_at, pairs_from, reward_drawn, row_drawn, row_of, times, with_last, with_row};
ghost use Rattle.game_model.specs.Build.{HasRoom, HasWeightLeft, IsBegun, IsLastRowFull, IsNext, landing_of, last_row, with_step};
ghost use Rattle.game_model.specs.Game.{IsNarrow, IsRewardInRange};
ghost use Rattle.game_model.specs.declared.builder.GameFault.TheVariants as faults;
ghost use Rattle.hsvi_draw.specs.Draws.{after_draws, draw_at};
ghost use Rattle.std.specs.Prelude.{IfErr, OnOk, [], length, pos, ◌*◌, ◌++◌, ◌<◌, ◌≡◌, ◌≤◌};

use game_model::{GameBuilder, GameFault, Shape};
use hsvi_draw::Draw;

/// What a pair of observation and next state weighs for each time that it is drawn.
const PAIR_WEIGHT: i128 = 25;

/// Adds the reward and the row of the next triple.
pub fn add_row(builder: &mut GameBuilder, draw: &mut Draw, shape: &Shape) -> Result<(), GameFault>
    requires serves { Serves shape.now }
    requires shape { builder.old.shape ≡ shape.now }
    requires room { HasRoom builder.old }
    requires full { IsLastRowFull builder.old }
    ensures added { OnOk result
        (builder.new ≡ with_row builder.old (reward_drawn draw.old) (row_drawn shape.now draw.old)) }
    ensures moved { draw.new ≡ after_draws 9 draw.old }
    ensures memory { IfErr result (λ fault. fault ≡ faults.OutOfMemory) }
{
    let reward = draw_reward(draw);
    let pairs = draw_pairs(draw, shape);
    begin_row(builder, reward)?;
    add_landings(builder, shape, &pairs)
}

/// Begins a row that the builder takes.
fn begin_row(builder: &mut GameBuilder, reward: i128) -> Result<(), GameFault>
    requires room { HasRoom builder.old }
    requires range { IsRewardInRange reward }
    requires full { IsLastRowFull builder.old }
    requires narrow { IsNarrow builder.old.shape reward }
    ensures begun { OnOk result (builder.new ≡ with_step builder.old reward) }
    ensures memory { IfErr result (λ fault. fault ≡ faults.OutOfMemory) }
{
    builder.step(reward)
}

/// A reward from -9 to 9.
fn draw_reward(draw: &mut Draw) -> i128
    ensures reward { result ≡ reward_drawn draw.old }
    ensures moved { draw.new ≡ after_draws 1 draw.old }
{
    draw.below(19) as i128 - 9
}

/// Four pairs of an observation and a next state.
fn draw_pairs(draw: &mut Draw, shape: &Shape) -> [(u32, u32); 4]
    requires { Serves shape.now }
    ensures pairs { result ≡ pairs_from shape.now draw.old 0 }
    ensures moved { draw.new ≡ after_draws 8 draw.old }
{
    [
        draw_pair(draw, shape),
        draw_pair(draw, shape),
        draw_pair(draw, shape),
        draw_pair(draw, shape),
    ]
}

/// An observation and a next state.
fn draw_pair(draw: &mut Draw, shape: &Shape) -> (u32, u32)
    requires { Serves shape.now }
    ensures pair { result ≡ pair_at shape.now draw.old 0 }
    ensures moved { draw.new ≡ after_draws 2 draw.old }
{
    let seen = draw.below(u128::from(shape.observations)) as u32;
    let to = draw.below(u128::from(shape.states)) as u32;
    (seen, to)
}

/// Adds the landings of the drawn pairs, by rising observation and next state: all possible pairs in their order have
/// the places from 0 on.
fn add_landings(
    builder: &mut GameBuilder,
    shape: &Shape,
    pairs: &[(u32, u32)],
) -> Result<(), GameFault>
    requires serves { Serves shape.now }
    requires shape { builder.old.shape ≡ shape.now }
    requires pairs { ArePairs shape.now pairs.now }
    requires begun { IsBegun builder.old }
    requires empty { last_row builder.old ≡ [] }
    ensures added { OnOk result (builder.new ≡ with_last builder.old (row_of shape.now pairs.now)) }
    ensures memory { IfErr result (λ fault. fault ≡ faults.OutOfMemory) }
{
    for place in 0..shape.observations * shape.states {
        add_landing(builder, pairs, place / shape.states, place % shape.states)?;
    }
    Ok(())
}

/// Adds the landing of an observation and a next state, where the pair was drawn.
fn add_landing(
    builder: &mut GameBuilder,
    pairs: &[(u32, u32)],
    seen: u32,
    to: u32,
) -> Result<(), GameFault>
    requires begun { IsBegun builder.old }
    requires total { builder.old.shape.row_total ≡ pos 100 }
    requires seen { seen < builder.old.shape.observations }
    requires to { to < builder.old.shape.states }
    requires few { length pairs.now ≤ 4 }
    requires next { IsNext (last_row builder.old) (landing_of seen to (pos 25)) }
    requires left { HasWeightLeft builder.old (pos (25 * times pairs.now seen to)) }
    ensures added { OnOk result
        (builder.new ≡ with_last builder.old (last_row builder.old ++ landing_if_drawn pairs.now seen to)) }
    ensures memory { IfErr result (λ fault. fault ≡ faults.OutOfMemory) }
{
    let weight = weight_of(pairs, seen, to);
    if weight == 0 {
        return Ok(());
    }
    builder.landing(seen, to, weight)
}

/// What an observation and a next state weigh in the row of the pairs.
fn weight_of(pairs: &[(u32, u32)], seen: u32, to: u32) -> i128
    requires { length pairs.now ≤ 4 }
    ensures { result ≡ pos (25 * times pairs.now seen to) }
{
    let mut weight = 0;
    for pair in pairs {
        if *pair == (seen, to) {
            weight += PAIR_WEIGHT;
        }
    }
    weight
}

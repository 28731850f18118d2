//! Whether a shape, a first belief, a reward and a row keep the limits of a game.

ghost use Rattle.game_model.specs.Limits.{most_states, most_belief};
ghost use Rattle.game_model.specs.Build.{IsMultiple, IsNext};
ghost use Rattle.game_model.specs.Bounds.{HasCounts, HasFractions};
ghost use Rattle.game_model.specs.Game.{AreCoprime, IsBelief, IsLanding, IsNarrow, IsRewardInRange, IsShape, IsWithin, triples};
ghost use Rattle.std.specs.Bool.{IsTrue};
ghost use Rattle.std.specs.List.{AllByRecursion};
ghost use Rattle.std.specs.Prelude.{IfOk, int_div, map, max, pos, unsigned_abs, ℕ, ◌<ℤ◌, ◌^◌, ◌↔◌, ◌≡◌, ◌≤◌};

use crate::parts::{
    Landing, MOST_ACTIONS, MOST_BELIEF, MOST_DISCOUNT, MOST_OBSERVATIONS, MOST_REWARD,
    MOST_ROW_TOTAL, MOST_STATES, MOST_WIDTH, Shape,
};
use scaled_num::{common_divisor, sum};
use std::alloc::{AllocError, Global};

/// Whether each field of a shape is within its limit.
pub fn is_shape(shape: &Shape) -> bool
    ensures { IsTrue result ↔ IsShape shape.now }
{
    has_counts(shape) && has_fractions(shape)
}

/// Whether the numbers of states, actions and observations are within their limits.
fn has_counts(shape: &Shape) -> bool
    ensures { IsTrue result ↔ HasCounts shape.now }
{
    is_count(shape.states, MOST_STATES as u32)
        && is_count(shape.own_actions, MOST_ACTIONS)
        && is_count(shape.informed_actions, MOST_ACTIONS)
        && is_count(shape.observations, MOST_OBSERVATIONS)
}

/// Whether the row total and the discount are within their limits.
fn has_fractions(shape: &Shape) -> bool
    ensures { IsTrue result ↔ HasFractions shape.now }
{
    let (over, under) = shape.discount;
    1 <= shape.row_total
        && shape.row_total <= MOST_ROW_TOTAL
        && 0 <= over
        && over < under
        && under <= MOST_DISCOUNT
}

/// Whether a number is at least 1 and at most `most`.
fn is_count(count: u32, most: u32) -> bool
    ensures { IsTrue result ↔ ((1 ≤ count) × (count ≤ most)) }
{
    1 <= count && count <= most
}

/// Whether each weight of a belief is within its limit.
fn are_weights(weights: &[i128]) -> bool
    ensures { IsTrue result ↔ AllByRecursion (IsWithin (pos 0) (pos most_belief)) weights.now }
{
    weights
        .iter()
        .all(|weight| 0 <= *weight && *weight <= MOST_BELIEF)
}

/// Whether these are weights of a belief over so many states: each at most 2^20, and so is their total, which is
/// not zero.
pub fn is_belief(states: u32, weights: &[i128]) -> bool
    requires { states ≤ most_states }
    ensures { IsTrue result ↔ IsBelief states weights.now }
{
    if weights.len() != states as usize || !are_weights(weights) {
        return false;
    }
    let total = sum(weights);
    1 <= total && total <= MOST_BELIEF
}

/// Whether a reward is within its limit.
pub fn is_reward(reward: i128) -> bool
    ensures { IsTrue result ↔ IsRewardInRange reward }
{
    -MOST_REWARD <= reward && reward <= MOST_REWARD
}

/// The width rule: whether sums with this reward stay below 2^126.
pub fn is_narrow(shape: &Shape, reward: i128) -> bool
    requires shape { IsShape shape.now }
    requires reward { IsRewardInRange reward }
    ensures { IsTrue result ↔ IsNarrow shape.now reward }
{
    let (_, under) = shape.discount;
    shape.row_total * under * under * magnitude_or_one(reward) <= MOST_WIDTH
}

/// The magnitude of a reward, and at least 1.
fn magnitude_or_one(reward: i128) -> i128
    requires { IsRewardInRange reward }
    ensures { result ≡ pos (max 1 (unsigned_abs reward)) }
{
    reward.abs().max(1)
}

/// How many triples of state, own action and informed action there are.
pub fn count_triples(shape: &Shape) -> usize
    requires { IsShape shape.now }
    ensures { result ≡ triples shape.now }
{
    shape.states as usize * shape.own_actions as usize * shape.informed_actions as usize
}

/// Whether the numbers of a landing are within their limits.
pub fn is_landing(shape: &Shape, landing: &Landing) -> bool
    ensures { IsTrue result ↔ IsLanding shape.now landing.now }
{
    landing.seen < shape.observations
        && landing.to < shape.states
        && 1 <= landing.weight
        && landing.weight <= shape.row_total
}

/// Whether a landing comes after the last one of a row.
pub fn is_next(row: &[Landing], landing: &Landing) -> bool
    ensures { IsTrue result ↔ IsNext row.now landing.now }
{
    let Some(last) = row.last() else {
        return true;
    };
    last.seen < landing.seen || (last.seen == landing.seen && last.to < landing.to)
}

/// The weights of a belief, divided by their greatest common divisor.
pub fn coprime(alloc: Global, weights: &[i128]) -> Result<Vec<i128>, AllocError>
    requires { (states : ℕ) × IsBelief states weights.now }
    ensures multiple { IfOk result (λ kept. IsMultiple weights.now kept.items) }
    ensures coprime { IfOk result (λ kept. AreCoprime kept.items) }
{
    quotients(alloc, weights, common_divisor(weights) as i128)
}

/// Each weight of a belief over a divisor.
fn quotients(alloc: Global, weights: &[i128], divisor: i128) -> Result<Vec<i128>, AllocError>
    requires each { AllByRecursion (IsWithin (pos 0) (pos most_belief)) weights.now }
    requires positive { pos 0 <ℤ divisor }
    ensures { IfOk result (λ kept. kept.items ≡ map (λ x. int_div x divisor) weights.now) }
{
    let mut kept = Vec::with_capacity(alloc, weights.len())?;
    for weight in weights {
        kept.push(*weight / divisor)?;
    }
    Ok(kept)
}

//! What actions gain in a stage.

ghost use Rattle.stage_game.specs.Asked.{BeliefFits};
ghost use Rattle.stage_game.specs.Fits.{MixesFit};
ghost use Rattle.std.specs.Prelude.{◌<◌};

use crate::going::Going;
use crate::places::{OWN_PLACES, Weights};
use crate::sums::ratio;
use belief::{Belief, Mixes};
use game_model::{Game, MIX_TOTAL, MOST_STATES, UNITS, law_game};

/// What each own action is worth in units.
pub fn own_gains(game: &Game, belief: &Belief, mixes: &Mixes, going: &Going) -> Weights
    requires belief { BeliefFits game.now belief.now }
    requires mixes { MixesFit game.now mixes.now }
{
    law_game(game);
    let mut gains = [0; OWN_PLACES];
    for a in 0..game.own_actions() {
        gains[a as usize] = own_gain(game, belief, mixes, going, a);
    }
    gains
}

/// What an own action is worth in units: what it earns at once, and what going on is worth.
fn own_gain(game: &Game, belief: &Belief, mixes: &Mixes, going: &Going, a: u32) -> i128
    requires belief { BeliefFits game.now belief.now }
    requires mixes { MixesFit game.now mixes.now }
    requires own { a < game.now.shape.own_actions }
{
    let (over, under) = game.discount();
    let scale = game.row_total().saturating_mul(under);
    let now = earned(game, belief, mixes, a)
        .saturating_mul(UNITS)
        .saturating_mul(scale);
    let later = going.worth_after(game, a).saturating_mul(over);
    let total = belief
        .total()
        .saturating_mul(MIX_TOTAL)
        .saturating_mul(scale);
    ratio(now.saturating_add(later), total)
}

/// What an own action earns at once: the sum of the belief's weight, the mix's weight and the reward.
fn earned(game: &Game, belief: &Belief, mixes: &Mixes, a: u32) -> i128
    requires belief { BeliefFits game.now belief.now }
    requires mixes { MixesFit game.now mixes.now }
    requires own { a < game.now.shape.own_actions }
{
    let parts = belief.parts();
    let mut sum: i128 = 0;
    for s in 0..game.states() {
        let earned = earned_in(game, mixes, s, a);
        sum = sum.saturating_add(parts[s as usize].saturating_mul(earned));
    }
    sum
}

/// What an own action earns at once in a state: the sum of the mix's weight and the reward.
fn earned_in(game: &Game, mixes: &Mixes, s: u32, a: u32) -> i128
    requires mixes { MixesFit game.now mixes.now }
    requires state { s < game.now.shape.states }
    requires own { a < game.now.shape.own_actions }
{
    let mut sum: i128 = 0;
    for c in 0..game.informed_actions() {
        sum = sum.saturating_add(mixes.get(s, c).saturating_mul(game.reward(s, a, c)));
    }
    sum
}

/// What a state and both actions cost in units: the reward, and what going on is worth.
pub fn cost_in(game: &Game, going: &Going, s: u32, a: u32, c: u32) -> i128
    requires state { s < game.now.shape.states }
    requires own { a < game.now.shape.own_actions }
    requires action { c < game.now.shape.informed_actions }
{
    let (over, under) = game.discount();
    let scale = game.row_total().saturating_mul(under);
    let now = game
        .reward(s, a, c)
        .saturating_mul(UNITS)
        .saturating_mul(scale);
    let mut later: i128 = 0;
    for landing in game.row(s, a, c) {
        let end = going.end(a, landing.seen, landing.to);
        later = later.saturating_add(landing.weight.saturating_mul(end));
    }
    ratio(now.saturating_add(later.saturating_mul(over)), scale)
}

/// Mixes as weights, by state.
pub fn weights_of(mixes: &Mixes) -> [Weights; MOST_STATES] {
    let mut weights = [[1; OWN_PLACES]; MOST_STATES];
    for s in 0..mixes.states() {
        weights[s as usize] = mix_of(mixes, s);
    }
    weights
}

/// The mix of a state.
fn mix_of(mixes: &Mixes, s: u32) -> Weights
    requires { s < mixes.now.states }
{
    let mut mix = [0; OWN_PLACES];
    for c in 0..mixes.actions() {
        mix[c as usize] = mixes.get(s, c);
    }
    mix
}

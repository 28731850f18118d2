//! Mixes that share the mix total by weights of any size.

ghost use Rattle.alpha_set.specs.Nodes.{IsMix};
ghost use Rattle.game_model.specs.Game.{IsWithin};
ghost use Rattle.scaled_num.specs.Sums.{sum_of};
ghost use Rattle.stage_game.specs.Fits.{MixesFit};
ghost use Rattle.std.specs.List.{All};
ghost use Rattle.std.specs.Prelude.{IfOk, length, pos, ◌^◌, ◌≡◌, ◌≤ℤ◌, ◌≤◌};

use crate::places::Weights;
use belief::Mixes;
use game_model::{Game, MIX_TOTAL, MOST_STATES, law_game};
use scaled_num::take_share;
use std::alloc::{AllocError, Global};

/// The greatest weight that a share is taken by; greater weights count as this, and negative ones as 0.
const MOST_WEIGHT: i128 = 1 << 80;

/// Brings each weight into 0 to 2^80.
fn clamp_all(weights: &mut [i128])
    ensures long { length weights.new ≡ length weights.old }
    ensures within { All (λ weight. IsWithin (pos 0) (pos (2 ^ 80)) weight) weights.new }
{
    for weight in weights.iter_mut() {
        *weight = (*weight).clamp(0, MOST_WEIGHT);
    }
}

/// Shares a total of at most 65,536 by weights, which are brought into 0 to 2^80 first.
pub fn share(weights: &mut [i128], total: i128, out: &mut [i128])
    requires lengths { length out.old ≡ length weights.old }
    requires some { 1 ≤ length weights.old }
    requires few { length weights.old ≤ 1024 }
    requires total { IsWithin (pos 0) (pos 65536) total }
    ensures weights { length weights.new ≡ length weights.old }
    ensures long { length out.new ≡ length out.old }
    ensures whole { sum_of out.new ≡ total }
    ensures positive { All (λ part. pos 0 ≤ℤ part) out.new }
{
    clamp_all(weights);
    take_share(weights, total, out);
}

/// The mix of the own actions by weights.
///
/// # Errors
///
/// Where no memory is to be had.
pub fn own_mix(alloc: Global, game: &Game, weights: &Weights) -> Result<Vec<i128>, AllocError>
    ensures { IfOk result (λ own. IsMix game.now.shape.own_actions own.items) }
{
    law_game(game);
    let actions = game.own_actions() as usize;
    let mut places = *weights;
    let mut own = vec![in alloc; 0; actions]?;
    share(&mut places[..actions], MIX_TOTAL, &mut own);
    Ok(own)
}

/// Writes the mix of a state by its weights.
fn state_mix(game: &Game, weights: &Weights, mix: &mut [i128])
    requires mix { length mix.old ≡ game.now.shape.informed_actions }
    ensures long { length mix.new ≡ game.now.shape.informed_actions }
    ensures whole { sum_of mix.new ≡ pos 65536 }
    ensures positive { All (λ part. pos 0 ≤ℤ part) mix.new }
{
    law_game(game);
    let mut places = *weights;
    share(
        &mut places[..game.informed_actions() as usize],
        MIX_TOTAL,
        mix,
    );
}

/// The mixes of the informed player by weights.
///
/// # Errors
///
/// Where no memory is to be had.
pub fn informed_mixes(
    alloc: Global,
    game: &Game,
    weights: &[Weights; MOST_STATES],
) -> Result<Mixes, AllocError>
    ensures { IfOk result (λ mixes. MixesFit game.now mixes) }
{
    law_game(game);
    let actions = game.informed_actions() as usize;
    let mut mix = vec![in alloc; 0; actions]?;
    let mut all = Vec::with_capacity(alloc, game.states() as usize * actions)?;
    for s in 0..game.states() {
        state_mix(game, &weights[s as usize], &mut mix);
        all.extend_from_slice(&mix)?;
    }
    Mixes::of(alloc, game, &all)
}

//! The mixes of both players, read from the last dictionary of a solver.

ghost use Rattle.alpha_set.specs.Nodes.{IsMix};
ghost use Rattle.stage_game.specs.Advice.{AreInformedRead, IsMixRead, IsOwnRead};
ghost use Rattle.stage_game.specs.Fits.{MixesFit};
ghost use Rattle.stage_game.specs.Reading.{CanBeRead, last_of};
ghost use Rattle.std.specs.Prelude.{IfOk, length, ◌*◌, ◌+◌, ◌<◌, ◌≡◌, ◌≤◌, ◌^◌};

use crate::prices::read_price_weights;
use crate::weights::read_primal_weights;
use belief::Mixes;
use game_model::{Game, MIX_TOTAL, law_game};
use scaled_num::take_share;
use simplex::Solver;
use std::alloc::{AllocError, Global};

/// The own mix.
///
/// # Errors
///
/// Where no memory is to be had.
pub fn read_own_mix(alloc: Global, solver: &Solver, game: &Game) -> Result<Vec<i128>, AllocError>
    requires last { CanBeRead solver.now }
    requires variables { game.now.shape.states + game.now.shape.own_actions ≤ length (last_of solver.now).out }
    requires few { length (last_of solver.now).out < 2 ^ 32 }
    ensures own { IfOk result (λ own. IsOwnRead game.now (last_of solver.now) own.items) }
    ensures mix { IfOk result (λ own. IsMix game.now.shape.own_actions own.items) }
{
    law_game(game);
    let mut weights = vec![in alloc; 0; game.own_actions() as usize]?;
    read_primal_weights(solver, game.states(), &mut weights);
    let mut own = vec![in alloc; 0; weights.len()]?;
    take_share(&weights, MIX_TOTAL, &mut own);
    Ok(own)
}

/// Writes the mix of a state. The other slices are overwritten too.
fn read_mix(
    solver: &Solver,
    game: &Game,
    s: u32,
    prices: &mut [u64],
    weights: &mut [i128],
    mix: &mut [i128],
)
    requires last { CanBeRead solver.now }
    requires state { s < game.now.shape.states }
    requires rows { game.now.shape.states * game.now.shape.informed_actions ≤ length (last_of solver.now).basic }
    requires few { length (last_of solver.now).basic < 2 ^ 32 }
    requires prices { length prices.old ≡ game.now.shape.informed_actions }
    requires weights { length weights.old ≡ game.now.shape.informed_actions }
    requires mix { length mix.old ≡ game.now.shape.informed_actions }
    ensures prices { length prices.new ≡ length prices.old }
    ensures weights { length weights.new ≡ length weights.old }
    ensures long { length mix.new ≡ length mix.old }
    ensures mix { IsMixRead game.now (last_of solver.now) s mix.new }
{
    law_game(game);
    read_price_weights(solver, s * game.informed_actions(), prices, weights);
    take_share(weights, MIX_TOTAL, mix);
}

/// The mixes of the informed player.
///
/// # Errors
///
/// Where no memory is to be had.
pub fn read_informed_mixes(alloc: Global, solver: &Solver, game: &Game) -> Result<Mixes, AllocError>
    requires last { CanBeRead solver.now }
    requires rows { game.now.shape.states * game.now.shape.informed_actions ≤ length (last_of solver.now).basic }
    requires few { length (last_of solver.now).basic < 2 ^ 32 }
    ensures informed { IfOk result (λ mixes. AreInformedRead game.now (last_of solver.now) mixes) }
    ensures fit { IfOk result (λ mixes. MixesFit game.now mixes) }
{
    law_game(game);
    let actions = game.informed_actions() as usize;
    let mut prices = vec![in alloc; 0; actions]?;
    let mut weights = vec![in alloc; 0; actions]?;
    let mut mix = vec![in alloc; 0; actions]?;
    let mut all = Vec::with_capacity(alloc, game.states() as usize * actions)?;
    for s in 0..game.states() {
        read_mix(solver, game, s, &mut prices, &mut weights, &mut mix);
        all.extend_from_slice(&mix)?;
    }
    Mixes::of(alloc, game, &all)
}

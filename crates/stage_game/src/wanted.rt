//! The wanted points of the informed player, read from the last dictionary of a solver.

ghost use Rattle.game_model.specs.Branches.{branch_of};
ghost use Rattle.stage_game.specs.Advice.{AreWantedRead};
ghost use Rattle.stage_game.specs.AdviceData.{listed};
ghost use Rattle.stage_game.specs.Asked.{upper_rows};
ghost use Rattle.stage_game.specs.Passed.{AddsWanted, AddsWantedAfter};
ghost use Rattle.stage_game.specs.Reading.{CanBeRead, last_of};
ghost use Rattle.std.specs.Prelude.{IfOk, length, map, slice_index, ◌*◌, ◌+◌, ◌++◌, ◌<◌, ◌≡◌, ◌≤◌, ◌^◌};

use crate::prices::read_price_weights;
use game_model::{Game, law_game};
use point_set::Share;
use simplex::Solver;
use std::alloc::{AllocError, Global};

/// Adds the weight of each candidate, also where it is 0.
fn push_wanted(
    wanted: &mut Vec<Share>,
    a: u32,
    o: u32,
    candidates: &[u32],
    weights: &[i128],
) -> Result<(), AllocError>
    requires lengths { length weights.now ≡ length candidates.now }
    ensures { IfOk result (λ _.
        map branch_of wanted.new.items ≡ map branch_of wanted.old.items ++ listed a o candidates.now weights.now) }
{
    for place in 0..candidates.len() {
        wanted.push(Share {
            a,
            o,
            k: candidates[place],
            weight: weights[place],
        })?;
    }
    Ok(())
}

/// Adds the wanted weights after an own action and an observation. The slices of prices and weights are overwritten.
fn push_wanted_after(
    solver: &Solver,
    game: &Game,
    candidates: &[u32],
    a: u32,
    o: u32,
    prices: &mut [u64],
    weights: &mut [i128],
    wanted: &mut Vec<Share>,
) -> Result<(), AllocError>
    requires last { CanBeRead solver.now }
    requires action { a < game.now.shape.own_actions }
    requires observation { o < game.now.shape.observations }
    requires short { length candidates.now ≤ 24 }
    requires rows { upper_rows game.now (length candidates.now) ≤ length (last_of solver.now).basic }
    requires few { length (last_of solver.now).basic < 2 ^ 32 }
    requires prices { length prices.old ≡ length candidates.now }
    requires weights { length weights.old ≡ length candidates.now }
    ensures prices { length prices.new ≡ length prices.old }
    ensures weights { length weights.new ≡ length weights.old }
    ensures wanted { IfOk result (λ _.
        AddsWantedAfter game.now candidates.now (last_of solver.now) a o (map branch_of wanted.old.items)
        (map branch_of wanted.new.items)) }
{
    law_game(game);
    let block = (a * game.observations() + o) * candidates.len() as u32;
    read_price_weights(
        solver,
        game.states() * game.informed_actions() + block,
        prices,
        weights,
    );
    push_wanted(wanted, a, o, candidates, weights)
}

/// Adds the wanted weights after an own action.
fn push_wanted_of(
    solver: &Solver,
    game: &Game,
    candidates: &[u32],
    a: u32,
    prices: &mut [u64],
    weights: &mut [i128],
    wanted: &mut Vec<Share>,
) -> Result<(), AllocError>
    requires last { CanBeRead solver.now }
    requires action { a < game.now.shape.own_actions }
    requires short { length candidates.now ≤ 24 }
    requires rows { upper_rows game.now (length candidates.now) ≤ length (last_of solver.now).basic }
    requires few { length (last_of solver.now).basic < 2 ^ 32 }
    requires prices { length prices.old ≡ length candidates.now }
    requires weights { length weights.old ≡ length candidates.now }
    ensures prices { length prices.new ≡ length prices.old }
    ensures weights { length weights.new ≡ length weights.old }
    ensures wanted { IfOk result (λ _.
        AddsWanted game.now candidates.now (last_of solver.now) a (map branch_of wanted.old.items)
        (map branch_of wanted.new.items)) }
{
    for o in 0..game.observations() {
        push_wanted_after(solver, game, candidates, a, o, prices, weights, wanted)?;
    }
    Ok(())
}

/// The wanted weights of all own actions and observations in order.
///
/// # Errors
///
/// Where no memory is to be had.
pub fn read_wanted(
    alloc: Global,
    solver: &Solver,
    game: &Game,
    candidates: &[u32],
) -> Result<Vec<Share>, AllocError>
    requires last { CanBeRead solver.now }
    requires short { length candidates.now ≤ 24 }
    requires rows { upper_rows game.now (length candidates.now) ≤ length (last_of solver.now).basic }
    requires few { length (last_of solver.now).basic < 2 ^ 32 }
    ensures { IfOk result (λ wanted.
        AreWantedRead game.now candidates.now (last_of solver.now) (map branch_of wanted.items)) }
{
    let mut prices = vec![in alloc; 0; candidates.len()]?;
    let mut weights = vec![in alloc; 0; candidates.len()]?;
    let mut wanted = Vec::new(alloc);
    for a in 0..game.own_actions() {
        push_wanted_of(
            solver,
            game,
            candidates,
            a,
            &mut prices,
            &mut weights,
            &mut wanted,
        )?;
    }
    Ok(wanted)
}

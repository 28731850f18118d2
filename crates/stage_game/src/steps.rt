//! The steps of player one, read from the last dictionary of a solver.

ghost use Rattle.game_model.specs.Branches.{branch_of};
ghost use Rattle.alpha_set.specs.Nodes.{IsMix};
ghost use Rattle.stage_game.specs.Advice.{AreStepsRead};
ghost use Rattle.stage_game.specs.AdviceData.{has_weight, listed};
ghost use Rattle.stage_game.specs.Asked.{lower_variables};
ghost use Rattle.stage_game.specs.Passed.{AddsSteps, AddsStepsAfter};
ghost use Rattle.stage_game.specs.Reading.{CanBeRead, last_of};
ghost use Rattle.std.specs.Prelude.{IfOk, filter, length, map, slice_index, ◌*◌, ◌+◌, ◌++◌, ◌<◌, ◌≡◌, ◌≤◌, ◌^◌};

use crate::weights::read_primal_weights;
use alpha_set::Step;
use game_model::{Game, law_game};
use scaled_num::take_share;
use simplex::Solver;
use std::alloc::{AllocError, Global};

/// Adds a step for each candidate that has a share.
fn push_steps(
    next: &mut Vec<Step>,
    a: u32,
    o: u32,
    candidates: &[u32],
    shares: &[i128],
) -> Result<(), AllocError>
    requires lengths { length shares.now ≡ length candidates.now }
    ensures { IfOk result (λ _.
        map branch_of next.new.items ≡ map branch_of next.old.items
        ++ filter has_weight (listed a o candidates.now shares.now)) }
{
    for place in 0..candidates.len() {
        let weighs = shares[place] != 0;
        if weighs {
            next.push(Step {
                a,
                o,
                k: candidates[place],
                weight: shares[place],
            })?;
        }
    }
    Ok(())
}

/// Adds the steps after an own action and an observation. The slices of weights and shares are overwritten.
fn push_steps_after(
    solver: &Solver,
    game: &Game,
    candidates: &[u32],
    own: &[i128],
    a: u32,
    o: u32,
    weights: &mut [i128],
    shares: &mut [i128],
    next: &mut Vec<Step>,
) -> Result<(), AllocError>
    requires last { CanBeRead solver.now }
    requires own { IsMix game.now.shape.own_actions own.now }
    requires action { a < game.now.shape.own_actions }
    requires observation { o < game.now.shape.observations }
    requires some { 1 ≤ length candidates.now }
    requires short { length candidates.now ≤ 16 }
    requires variables { lower_variables game.now (length candidates.now) ≤ length (last_of solver.now).out }
    requires few { length (last_of solver.now).out < 2 ^ 32 }
    requires weights { length weights.old ≡ length candidates.now }
    requires shares { length shares.old ≡ length candidates.now }
    ensures weights { length weights.new ≡ length weights.old }
    ensures shares { length shares.new ≡ length shares.old }
    ensures steps { IfOk result (λ _.
        AddsStepsAfter game.now candidates.now (last_of solver.now) own.now a o (map branch_of next.old.items)
        (map branch_of next.new.items)) }
{
    law_game(game);
    let block = (a * game.observations() + o) * candidates.len() as u32;
    read_primal_weights(solver, game.states() + game.own_actions() + block, weights);
    take_share(weights, own[a as usize], shares);
    push_steps(next, a, o, candidates, shares)
}

/// Adds the steps after an own action.
fn push_steps_of(
    solver: &Solver,
    game: &Game,
    candidates: &[u32],
    own: &[i128],
    a: u32,
    weights: &mut [i128],
    shares: &mut [i128],
    next: &mut Vec<Step>,
) -> Result<(), AllocError>
    requires last { CanBeRead solver.now }
    requires own { IsMix game.now.shape.own_actions own.now }
    requires action { a < game.now.shape.own_actions }
    requires some { 1 ≤ length candidates.now }
    requires short { length candidates.now ≤ 16 }
    requires variables { lower_variables game.now (length candidates.now) ≤ length (last_of solver.now).out }
    requires few { length (last_of solver.now).out < 2 ^ 32 }
    requires weights { length weights.old ≡ length candidates.now }
    requires shares { length shares.old ≡ length candidates.now }
    ensures weights { length weights.new ≡ length weights.old }
    ensures shares { length shares.new ≡ length shares.old }
    ensures steps { IfOk result (λ _.
        AddsSteps game.now candidates.now (last_of solver.now) own.now a (map branch_of next.old.items)
        (map branch_of next.new.items)) }
{
    for o in 0..game.observations() {
        push_steps_after(solver, game, candidates, own, a, o, weights, shares, next)?;
    }
    Ok(())
}

/// The steps of all own actions and observations in order.
///
/// # Errors
///
/// Where no memory is to be had.
pub fn read_steps(
    alloc: Global,
    solver: &Solver,
    game: &Game,
    candidates: &[u32],
    own: &[i128],
) -> Result<Vec<Step>, AllocError>
    requires last { CanBeRead solver.now }
    requires own { IsMix game.now.shape.own_actions own.now }
    requires some { 1 ≤ length candidates.now }
    requires short { length candidates.now ≤ 16 }
    requires variables { lower_variables game.now (length candidates.now) ≤ length (last_of solver.now).out }
    requires few { length (last_of solver.now).out < 2 ^ 32 }
    ensures { IfOk result (λ next.
        AreStepsRead game.now candidates.now (last_of solver.now) own.now (map branch_of next.items)) }
{
    let mut weights = vec![in alloc; 0; candidates.len()]?;
    let mut shares = vec![in alloc; 0; candidates.len()]?;
    let mut next = Vec::new(alloc);
    for a in 0..game.own_actions() {
        push_steps_of(
            solver,
            game,
            candidates,
            own,
            a,
            &mut weights,
            &mut shares,
            &mut next,
        )?;
    }
    Ok(next)
}

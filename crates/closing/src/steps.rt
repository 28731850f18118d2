//! The steps of player one: after each own action and observation, nodes by the weights that they were chosen with.

ghost use Rattle.alpha_set.specs.Nodes.{IsMix};
ghost use Rattle.closing.specs.Plans.{AddsForEach, AddsSuch, AreForPairs, AreStepsFor, numbered};
ghost use Rattle.game_model.specs.Branches.{branch_of};
ghost use Rattle.scaled_num.specs.Share.{at};
ghost use Rattle.stage_game.specs.AdviceData.{has_weight};
ghost use Rattle.std.specs.Prelude.{IfOk, filter, length, map, ◌++◌, ◌<◌, ◌≡◌, ◌≤◌};

use crate::sharing::share;
use crate::stages::Stage;
use alpha_set::Step;
use game_model::Game;
use std::alloc::{AllocError, Global};

/// Adds a step to each node that has a share.
fn push_steps(a: u32, o: u32, shares: &[i128], next: &mut Vec<Step>) -> Result<(), AllocError>
    requires few { length shares.now ≤ 1024 }
    ensures { IfOk result (λ _.
        map branch_of next.new.items ≡ map branch_of next.old.items ++ filter has_weight (numbered a o shares.now)) }
{
    for place in 0..shares.len() {
        let weighs = shares[place] != 0;
        if weighs {
            next.push(Step {
                a,
                o,
                k: place as u32,
                weight: shares[place],
            })?;
        }
    }
    Ok(())
}

/// Adds the steps after an own action and an observation. The slices of weights and shares are overwritten.
fn push_steps_after(
    game: &Game,
    stage: &Stage,
    own: &[i128],
    a: u32,
    o: u32,
    weights: &mut [i128],
    shares: &mut [i128],
    next: &mut Vec<Step>,
) -> Result<(), AllocError>
    requires own { IsMix game.now.shape.own_actions own.now }
    requires action { a < game.now.shape.own_actions }
    requires observation { o < game.now.shape.observations }
    requires some { 1 ≤ length weights.old }
    requires few { length weights.old ≤ 1024 }
    requires shares { length shares.old ≡ length weights.old }
    ensures weights { length weights.new ≡ length weights.old }
    ensures shares { length shares.new ≡ length weights.old }
    ensures steps { IfOk result (λ _.
        AddsSuch (AreStepsFor (length weights.old) a o (at own.now a)) (map branch_of next.old.items)
        (map branch_of next.new.items)) }
{
    weights.fill(0);
    stage.weigh(a, o, weights);
    share(weights, own[a as usize], shares);
    push_steps(a, o, shares, next)
}

/// Adds the steps after an own action.
fn push_steps_of(
    game: &Game,
    stage: &Stage,
    own: &[i128],
    a: u32,
    weights: &mut [i128],
    shares: &mut [i128],
    next: &mut Vec<Step>,
) -> Result<(), AllocError>
    requires own { IsMix game.now.shape.own_actions own.now }
    requires action { a < game.now.shape.own_actions }
    requires some { 1 ≤ length weights.old }
    requires few { length weights.old ≤ 1024 }
    requires shares { length shares.old ≡ length weights.old }
    ensures weights { length weights.new ≡ length weights.old }
    ensures shares { length shares.new ≡ length weights.old }
    ensures steps { IfOk result (λ _.
        AddsForEach (λ o. AreStepsFor (length weights.old) a o (at own.now a)) game.now.shape.observations
        (map branch_of next.old.items) (map branch_of next.new.items)) }
{
    for o in 0..game.observations() {
        push_steps_after(game, stage, own, a, o, weights, shares, next)?;
    }
    Ok(())
}

/// The steps of all own actions and observations in order: the weight of the own action, shared by a part out of 65,536
/// of what the nodes were chosen with there, and the rest of what other steps give to them.
///
/// # Errors
///
/// Where no memory is to be had.
pub fn steps_of(
    alloc: Global,
    game: &Game,
    stage: &Stage,
    own: &[i128],
    nodes: u32,
) -> Result<Vec<Step>, AllocError>
    requires own { IsMix game.now.shape.own_actions own.now }
    requires some { 1 ≤ nodes }
    requires few { nodes ≤ 1024 }
    ensures { IfOk result (λ next.
        AreForPairs game.now (λ a o. AreStepsFor nodes a o (at own.now a)) (map branch_of next.items)) }
{
    let mut weights = vec![in alloc; 0; nodes as usize]?;
    let mut shares = vec![in alloc; 0; nodes as usize]?;
    let mut next = Vec::new(alloc);
    for a in 0..game.own_actions() {
        push_steps_of(game, stage, own, a, &mut weights, &mut shares, &mut next)?;
    }
    Ok(next)
}

//! Lists of weights to draw over.

ghost use Rattle.belief.specs.Mixes.{mix_at};
ghost use Rattle.controller.specs.Sums.{ArePoints};
ghost use Rattle.game_model.specs.Game.{first_at};
ghost use Rattle.point_set.specs.Points.{points_of};
ghost use Rattle.scaled_num.specs.Sums.{below};
ghost use Rattle.simulate.specs.Choices.{IsLight};
ghost use Rattle.simulate.specs.Plays.{row_weights};
ghost use Rattle.std.specs.List.{AllByRecursion};
ghost use Rattle.std.specs.Prelude.{IfOk, length, map, pos, slice_index_or, unsigned_abs, ◌*◌, ◌<◌, ◌≡◌, ◌≤◌, ◌^◌};

use belief::Mixes;
use game_model::{Branch, Game, Landing, law_game};
use point_set::PointSet;
use std::alloc::{AllocError, Global};

/// The weights of the states in the first belief.
pub fn first_weights(alloc: Global, game: &Game) -> Result<Vec<u128>, AllocError>
    ensures { IfOk result (λ weights. weights.items ≡ map (first_at game.now) (below game.now.shape.states)) }
{
    law_game(game);
    let mut weights = Vec::new(alloc);
    for s in 0..game.states() {
        weights.push(game.first()[s as usize].unsigned_abs())?;
    }
    Ok(weights)
}

/// The weights of the own actions in a node's mix.
pub fn mix_weights(alloc: Global, mix: &[i128]) -> Result<Vec<u128>, AllocError>
    ensures { IfOk result (λ weights.
        weights.items ≡ map (λ a. unsigned_abs (slice_index_or mix.now a (pos 0))) (below (length mix.now))) }
{
    let mut weights = Vec::new(alloc);
    for a in 0..mix.len() {
        weights.push(mix[a].unsigned_abs())?;
    }
    Ok(weights)
}

/// The weights of the informed actions in a state's mix.
pub fn state_weights(alloc: Global, mixes: &Mixes, s: u32) -> Result<Vec<u128>, AllocError>
    requires { s < mixes.now.states }
    ensures { IfOk result (λ weights.
        weights.items ≡ map (λ c. unsigned_abs (mix_at mixes.now s c)) (below mixes.now.actions)) }
{
    let mut weights = Vec::new(alloc);
    for c in 0..mixes.actions() {
        weights.push(mixes.get(s, c).unsigned_abs())?;
    }
    Ok(weights)
}

/// The weights of a row's landings.
pub fn landing_weights(alloc: Global, row: &[Landing]) -> Result<Vec<u128>, AllocError>
    ensures { IfOk result (λ weights. weights.items ≡ row_weights row.now) }
{
    let mut weights = Vec::new(alloc);
    for landing in row {
        weights.push(landing.weight.unsigned_abs())?;
    }
    Ok(weights)
}

/// The weights of branches.
pub fn branch_weights(alloc: Global, branches: &[Branch]) -> Result<Vec<u128>, AllocError>
    ensures { IfOk result (λ weights. weights.items ≡ map (λ branch. unsigned_abs branch.weight) branches.now) }
{
    let mut weights = Vec::new(alloc);
    for branch in branches {
        weights.push(branch.weight.unsigned_abs())?;
    }
    Ok(weights)
}

/// The weights of starts.
pub fn start_weights(alloc: Global, starts: &[(u32, i128)]) -> Result<Vec<u128>, AllocError>
    ensures { IfOk result (λ weights. weights.items ≡ map (λ start. unsigned_abs start.1) starts.now) }
{
    let mut weights = Vec::new(alloc);
    for start in starts {
        weights.push(start.1.unsigned_abs())?;
    }
    Ok(weights)
}

/// What shares bring to a state: weight times belief.
pub fn share_weights(
    alloc: Global,
    game: &Game,
    points: &PointSet,
    shares: &[Branch],
    s: u32,
) -> Result<Vec<u128>, AllocError>
    requires points { ArePoints game.now points.now.members }
    requires shares { AllByRecursion (λ share. IsLight (length points.now.members) share.k share.weight) shares.now }
    requires state { s < game.now.shape.states }
    ensures { IfOk result (λ weights. weights.items ≡
        map (λ share. unsigned_abs share.weight * (points_of points.now.members share.k).belief s) shares.now) }
{
    let mut weights = Vec::new(alloc);
    for share in shares {
        weights.push(brought(game, points, share.k, share.weight, s))?;
    }
    Ok(weights)
}

/// What start points bring to a state: weight times belief.
pub fn over_weights(
    alloc: Global,
    game: &Game,
    points: &PointSet,
    starts: &[(u32, i128)],
    s: u32,
) -> Result<Vec<u128>, AllocError>
    requires points { ArePoints game.now points.now.members }
    requires starts { AllByRecursion (λ start. IsLight (length points.now.members) start.0 start.1) starts.now }
    requires state { s < game.now.shape.states }
    ensures { IfOk result (λ weights. weights.items ≡
        map (λ start. unsigned_abs start.1 * (points_of points.now.members start.0).belief s) starts.now) }
{
    let mut weights = Vec::new(alloc);
    for start in starts {
        weights.push(brought(game, points, start.0, start.1, s))?;
    }
    Ok(weights)
}

/// A weight times what a point's belief gives to a state.
fn brought(game: &Game, points: &PointSet, j: u32, weight: i128, s: u32) -> u128
    requires points { ArePoints game.now points.now.members }
    requires light { IsLight (length points.now.members) j weight }
    requires state { s < game.now.shape.states }
    ensures { result ≡ unsigned_abs weight * (points_of points.now.members j).belief s }
{
    let parts = points.point(j).belief.parts();
    weight.unsigned_abs() * parts[s as usize].unsigned_abs()
}

//! Nodes and points that are preferred at the masses which follow a belief.

ghost use Rattle.alpha_set.specs.Worth.{AreWeighed};
ghost use Rattle.belief.specs.After.{mass_after};
ghost use Rattle.point_set.specs.Corners.{point_at};
ghost use Rattle.point_set.specs.Sawtooth.{AreMeasured};
ghost use Rattle.stage_game.specs.Asked.{BeliefFits, NodesServe, PointsServe};
ghost use Rattle.stage_game.specs.Fits.{MixesFit};
ghost use Rattle.stage_game.specs.Masses.{is_some_mass, masses};
ghost use Rattle.stage_game.specs.Pairs.{pairs};
ghost use Rattle.stage_game.specs.Preferred.{GoesOn, GoesOnBest, GoesOnWorthy};
ghost use Rattle.stage_game.specs.UpperCandidates.{is_at_corner, most_others, others_downwards};
ghost use Rattle.std.specs.Prelude.{OnOk, [], filter, length, not, ◌<◌, ◌∷◌, ◌≡◌, ◌≤◌};

use crate::candidates::{MOST_LOWER, MOST_OTHERS};
use crate::choices::prefer;
use alpha_set::NodeSet;
use belief::{Belief, Mixes, mass};
use game_model::{Game, MOST_STATES, law_game};
use point_set::PointSet;
use scaled_num::sum;
use std::alloc::AllocError;

/// Prefers next the node that is worth the most at each mass that is not zero, by own action and observation.
pub fn prefer_worthy(
    game: &Game,
    belief: &Belief,
    nodes: &NodeSet,
    mixes: &Mixes,
    after: &[(u32, u32)],
    kept: &mut Vec<u32>,
) -> Result<(), AllocError>
    requires belief { BeliefFits game.now belief.now }
    requires nodes { NodesServe game.now nodes.now.members }
    requires mixes { MixesFit game.now mixes.now }
    requires after { after.now ≡ pairs game.now.shape.own_actions game.now.shape.observations }
    ensures { OnOk result
        (GoesOnWorthy nodes.now.members (masses game.now belief.now mixes.now) kept.old.items kept.new.items) }
{
    for pair in after {
        prefer_worthy_after(game, belief, nodes, mixes, pair.0, pair.1, kept)?;
    }
    Ok(())
}

/// Prefers next the node that is worth the most at the mass after an own action and an observation.
fn prefer_worthy_after(
    game: &Game,
    belief: &Belief,
    nodes: &NodeSet,
    mixes: &Mixes,
    a: u32,
    o: u32,
    kept: &mut Vec<u32>,
) -> Result<(), AllocError>
    requires belief { BeliefFits game.now belief.now }
    requires nodes { NodesServe game.now nodes.now.members }
    requires mixes { MixesFit game.now mixes.now }
    requires own { a < game.now.shape.own_actions }
    requires observation { o < game.now.shape.observations }
    ensures { OnOk result
        (GoesOnWorthy nodes.now.members
        (filter is_some_mass (mass_after game.now belief.now mixes.now a o ∷ [])) kept.old.items kept.new.items) }
{
    law_game(game);
    let mut places = [0; MOST_STATES];
    let next = &mut places[..game.states() as usize];
    mass(game, belief, mixes, a, o, next);
    prefer_worthy_at(nodes, next, kept)
}

/// Prefers next the node that is worth the most at a mass, unless the mass is zero.
fn prefer_worthy_at(nodes: &NodeSet, mass: &[i128], kept: &mut Vec<u32>) -> Result<(), AllocError>
    requires some { 1 ≤ length nodes.now.members }
    requires weighed { AreWeighed nodes.now.members mass.now }
    ensures { OnOk result
        (GoesOnWorthy nodes.now.members (filter is_some_mass (mass.now ∷ [])) kept.old.items kept.new.items) }
{
    if sum(mass) <= 0 {
        return Ok(());
    }
    let (_, k) = nodes.worth(mass);
    prefer(kept, MOST_LOWER, k)
}

/// Prefers next the best point at each mass that is not zero, by own action and observation.
pub fn prefer_best(
    game: &Game,
    belief: &Belief,
    points: &PointSet,
    mixes: &Mixes,
    after: &[(u32, u32)],
    others: &mut Vec<u32>,
) -> Result<(), AllocError>
    requires belief { BeliefFits game.now belief.now }
    requires points { PointsServe game.now points.now.members }
    requires mixes { MixesFit game.now mixes.now }
    requires after { after.now ≡ pairs game.now.shape.own_actions game.now.shape.observations }
    ensures { OnOk result
        (GoesOnBest points.now.members (masses game.now belief.now mixes.now) others.old.items others.new.items) }
{
    for pair in after {
        prefer_best_after(game, belief, points, mixes, pair.0, pair.1, others)?;
    }
    Ok(())
}

/// Prefers next the best point at the mass after an own action and an observation.
fn prefer_best_after(
    game: &Game,
    belief: &Belief,
    points: &PointSet,
    mixes: &Mixes,
    a: u32,
    o: u32,
    others: &mut Vec<u32>,
) -> Result<(), AllocError>
    requires belief { BeliefFits game.now belief.now }
    requires points { PointsServe game.now points.now.members }
    requires mixes { MixesFit game.now mixes.now }
    requires own { a < game.now.shape.own_actions }
    requires observation { o < game.now.shape.observations }
    ensures { OnOk result
        (GoesOnBest points.now.members
        (filter is_some_mass (mass_after game.now belief.now mixes.now a o ∷ [])) others.old.items others.new.items) }
{
    law_game(game);
    let mut places = [0; MOST_STATES];
    let next = &mut places[..game.states() as usize];
    mass(game, belief, mixes, a, o, next);
    prefer_best_at(points, next, others)
}

/// Prefers next the best point at a mass, where there is one, unless the mass is zero.
fn prefer_best_at(points: &PointSet, mass: &[i128], others: &mut Vec<u32>) -> Result<(), AllocError>
    requires measured { AreMeasured points.now.members mass.now }
    ensures { OnOk result
        (GoesOnBest points.now.members (filter is_some_mass (mass.now ∷ [])) others.old.items others.new.items) }
{
    if sum(mass) <= 0 {
        return Ok(());
    }
    match points.best(mass) {
        None => Ok(()),
        Some(k) => prefer(others, MOST_OTHERS, k),
    }
}

/// Prefers next the points whose belief is no corner, from the last one downwards.
pub fn prefer_others(points: &PointSet, others: &mut Vec<u32>) -> Result<(), AllocError>
    ensures { OnOk result (GoesOn most_others (others_downwards points.now.members) others.old.items others.new.items) }
{
    let count = points.len();
    for i in 0..count {
        prefer_other(points, count - 1 - i, others)?;
    }
    Ok(())
}

/// Prefers next a point, unless its belief is a corner.
fn prefer_other(points: &PointSet, k: u32, others: &mut Vec<u32>) -> Result<(), AllocError>
    requires { k < length points.now.members }
    ensures { OnOk result
        (GoesOn most_others (filter (λ j. not (is_at_corner (point_at points.now.members j))) (k ∷ [])) others.old.items
        others.new.items) }
{
    if sum(points.point(k).belief.parts()) == 1 {
        return Ok(());
    }
    prefer(others, MOST_OTHERS, k)
}

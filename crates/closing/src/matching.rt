//! Members for a belief, found by playing its stage by columns.

ghost use Rattle.alpha_set.specs.Members.{node_data};
ghost use Rattle.alpha_set.specs.Nodes.{IsMix, NodeData, NodeFits, NodeStands, node_of, nodes_of};
ghost use Rattle.game_model.specs.Game.{numbers};
ghost use Rattle.point_set.specs.Members.{point_data};
ghost use Rattle.point_set.specs.Points.{PointData, PointFits, PointStands, point_of, points_of};
ghost use Rattle.stage_game.specs.Asked.{BeliefFits, NodesServe, PointsServe};
ghost use Rattle.stage_game.specs.Data.{lower_data, upper_data};
ghost use Rattle.stage_game.specs.Fits.{LowerFits, MixesFit, UpperFits};
ghost use Rattle.std.specs.Prelude.{IfOk, List, length, ◌++◌, ◌≡◌};

use crate::gains::weights_of;
use crate::going::{going_by_nodes, going_by_points};
use crate::hulls::Hull;
use crate::places::OWN_PLACES;
use crate::sharing::{informed_mixes, own_mix};
use crate::stages::{ROUNDS, Stage, StateWeights};
use crate::starts::least_at;
use crate::steps::steps_of;
use crate::wishes::wishes_of;
use alpha_set::{Node, NodeSet};
use backup::{new_node, new_point};
use belief::{Belief, Mixes};
use game_model::{Game, MOST_STATES};
use point_set::{Point, PointSet};
use simplex::End;
use stage_game::{LowerAdvice, UpperAdvice};
use std::alloc::{AllocError, Global};

/// Even mixes.
const EVEN: StateWeights = [[1; OWN_PLACES]; MOST_STATES];

/// A node for a belief, with the informed player's mixes that answer it. The node fits the game, and it stands among the
/// nodes, also when others come behind them.
///
/// # Errors
///
/// Where no memory is to be had.
pub fn matched_node(
    alloc: Global,
    game: &Game,
    belief: &Belief,
    nodes: &NodeSet,
    points: &PointSet,
) -> Result<(Mixes, Node), AllocError>
    requires belief { BeliefFits game.now belief.now }
    requires nodes { NodesServe game.now nodes.now.members }
    requires points { PointsServe game.now points.now.members }
    ensures informed { IfOk result (λ made. MixesFit game.now made.0) }
    ensures fits { IfOk result (λ made. NodeFits game.now (length nodes.now.members) (node_data made.1)) }
    ensures stands { IfOk result (λ made.
        NodeStands (numbers game.now) (nodes_of nodes.now.members) (node_of (node_data made.1))) }
    ensures stays { IfOk result (λ made. (more : List NodeData) →
        NodeStands (numbers game.now) (nodes_of (nodes.now.members ++ more)) (node_of (node_data made.1))) }
{
    let mut stage = Stage::of(alloc, game, belief)?;
    begin_nodes(alloc, game, belief, nodes, &EVEN, &mut stage)?;
    let known = known_mixes(belief, points);
    begin_nodes(alloc, game, belief, nodes, &known, &mut stage)?;
    play_nodes(alloc, game, belief, nodes, &mut stage)?;
    stage.end();
    let advice = lower_advice(alloc, game, nodes, &stage)?;
    let node = new_node(alloc, game, &advice, nodes)?;
    let informed = informed_mixes(alloc, game, &stage.next)?;
    Ok((informed, node))
}

/// Plays a stage by nodes.
fn play_nodes(
    alloc: Global,
    game: &Game,
    belief: &Belief,
    nodes: &NodeSet,
    stage: &mut Stage,
) -> Result<(), AllocError>
    requires belief { BeliefFits game.now belief.now }
    requires nodes { NodesServe game.now nodes.now.members }
{
    for _ in 0..ROUNDS {
        let mixes = informed_mixes(alloc, game, &stage.next)?;
        let going = going_by_nodes(game, belief, &mixes, nodes);
        if !stage.go_on(game, belief, &mixes, &going) {
            return Ok(());
        }
    }
    Ok(())
}

/// Begins a stage by nodes, with mixes of these weights.
fn begin_nodes(
    alloc: Global,
    game: &Game,
    belief: &Belief,
    nodes: &NodeSet,
    weights: &StateWeights,
    stage: &mut Stage,
) -> Result<(), AllocError>
    requires belief { BeliefFits game.now belief.now }
    requires nodes { NodesServe game.now nodes.now.members }
{
    let mixes = informed_mixes(alloc, game, weights)?;
    let going = going_by_nodes(game, belief, &mixes, nodes);
    stage.begin(game, &going);
    Ok(())
}

/// The mixes of the point of least value at a belief, and even ones where none is there.
fn known_mixes(belief: &Belief, points: &PointSet) -> StateWeights {
    let known = least_at(points, belief);
    if known < points.len() {
        weights_of(&points.point(known).mixes)
    } else {
        EVEN
    }
}

/// The lower advice of a stage.
fn lower_advice(
    alloc: Global,
    game: &Game,
    nodes: &NodeSet,
    stage: &Stage,
) -> Result<LowerAdvice, AllocError>
    requires nodes { NodesServe game.now nodes.now.members }
    ensures { IfOk result (λ advice. LowerFits game.now (length nodes.now.members) (lower_data advice)) }
{
    let own = own_mix(alloc, game, &stage.own_weights())?;
    let next = steps_of(alloc, game, stage, &own, nodes.len())?;
    let informed = informed_mixes(alloc, game, &stage.next)?;
    Ok(LowerAdvice {
        own,
        next,
        informed,
        end: End::Optimal,
    })
}

/// A point for a belief, with player one's mix that answers it; the hull is that of the points. The point has the belief and fits the game, and it
/// stands among the points, also when others come behind them.
///
/// # Errors
///
/// Where no memory is to be had.
pub fn matched_point(
    alloc: Global,
    game: &Game,
    belief: &Belief,
    points: &PointSet,
    hull: &mut Hull,
) -> Result<(Vec<i128>, Point), AllocError>
    requires belief { BeliefFits game.now belief.now }
    requires points { PointsServe game.now points.now.members }
    ensures own { IfOk result (λ made. IsMix game.now.shape.own_actions made.0.items) }
    ensures belief { IfOk result (λ made. (point_data made.1).belief ≡ belief.now) }
    ensures fits { IfOk result (λ made. PointFits game.now (length points.now.members) (point_data made.1)) }
    ensures stands { IfOk result (λ made.
        PointStands (numbers game.now) (points_of points.now.members) (point_of (point_data made.1))) }
    ensures stays { IfOk result (λ made. (more : List PointData) →
        PointStands (numbers game.now) (points_of (points.now.members ++ more)) (point_of (point_data made.1))) }
{
    let mut stage = Stage::of(alloc, game, belief)?;
    begin_points(alloc, game, belief, points, hull, &EVEN, &mut stage)?;
    let known = known_mixes(belief, points);
    begin_points(alloc, game, belief, points, hull, &known, &mut stage)?;
    play_points(alloc, game, belief, points, hull, &mut stage)?;
    stage.end();
    let advice = upper_advice(alloc, game, belief, points, hull, &stage)?;
    let point = new_point(alloc, game, belief, &advice, points)?;
    Ok((advice.own, point))
}

/// Plays a stage by points.
fn play_points(
    alloc: Global,
    game: &Game,
    belief: &Belief,
    points: &PointSet,
    hull: &mut Hull,
    stage: &mut Stage,
) -> Result<(), AllocError>
    requires belief { BeliefFits game.now belief.now }
    requires points { PointsServe game.now points.now.members }
{
    for _ in 0..ROUNDS {
        let mixes = informed_mixes(alloc, game, &stage.next)?;
        let going = going_by_points(game, belief, &mixes, points, hull);
        if !stage.go_on(game, belief, &mixes, &going) {
            return Ok(());
        }
    }
    Ok(())
}

/// Begins a stage by points, with mixes of these weights.
fn begin_points(
    alloc: Global,
    game: &Game,
    belief: &Belief,
    points: &PointSet,
    hull: &mut Hull,
    weights: &StateWeights,
    stage: &mut Stage,
) -> Result<(), AllocError>
    requires belief { BeliefFits game.now belief.now }
    requires points { PointsServe game.now points.now.members }
{
    let mixes = informed_mixes(alloc, game, weights)?;
    let going = going_by_points(game, belief, &mixes, points, hull);
    stage.begin(game, &going);
    Ok(())
}

/// The upper advice of a stage.
fn upper_advice(
    alloc: Global,
    game: &Game,
    belief: &Belief,
    points: &PointSet,
    hull: &mut Hull,
    stage: &Stage,
) -> Result<UpperAdvice, AllocError>
    requires belief { BeliefFits game.now belief.now }
    requires points { PointsServe game.now points.now.members }
    ensures { IfOk result (λ advice. UpperFits game.now points.now.members (upper_data advice)) }
{
    let informed = informed_mixes(alloc, game, &stage.best)?;
    let own = own_mix(alloc, game, &stage.own_weights())?;
    let wanted = wishes_of(alloc, game, belief, &informed, points, hull)?;
    Ok(UpperAdvice {
        informed,
        wanted,
        own,
        end: End::Optimal,
    })
}

//! Which new members are kept, and in whose place.

ghost use Rattle.alpha_set.specs.Changes.{IsNowhereLower};
ghost use Rattle.alpha_set.specs.Members.{most_nodes, node_data};
ghost use Rattle.alpha_set.specs.Nodes.{NodeData, NodeFits, NodeStands, no_node, node_of, nodes_of};
ghost use Rattle.closing.specs.Better.{AreNodes, ArePoints, IsAddedOrNot, NodesGoOn, PointsGoOn};
ghost use Rattle.game_model.specs.Game.{numbers};
ghost use Rattle.point_set.specs.Corners.{point_at};
ghost use Rattle.point_set.specs.Members.{most_points, point_data};
ghost use Rattle.point_set.specs.Points.{PointData, PointFits, PointStands, point_of, points_of};
ghost use Rattle.stage_game.specs.Asked.{BeliefFits};
ghost use Rattle.std.specs.Bool.{IsTrue};
ghost use Rattle.std.specs.Prelude.{IfSome, List, length, slice_index_or, ◌++◌, ◌<◌, ◌≡◌, ◌≤◌};

use alpha_set::{MOST_NODES, Node, NodeSet};
use belief::Belief;
use game_model::{Game, law_game};
use point_set::{MOST_POINTS, Point, PointSet};
use std::alloc::AllocError;

/// Keeps a node that is worth more at a belief than every node of the set: in the place of the first node that is
/// nowhere higher, and else as a new node where there is room. It answers whether the node was kept.
///
/// # Errors
///
/// Where no memory is to be had. The nodes are then as before.
pub fn keep_node(
    game: &Game,
    nodes: &mut NodeSet,
    belief: &Belief,
    node: Node,
) -> Result<bool, AllocError>
    requires nodes { AreNodes game.now nodes.old.members }
    requires belief { BeliefFits game.now belief.now }
    requires fits { NodeFits game.now (length nodes.old.members) (node_data node) }
    requires stays { (more : List NodeData) →
        NodeStands (numbers game.now) (nodes_of (nodes.old.members ++ more)) (node_of (node_data node)) }
    ensures { NodesGoOn game.now nodes.old.members nodes.new.members }
{
    law_game(game);
    prove!(nodes.len() as usize <= MOST_NODES);
    if node.worth(belief.parts()) <= nodes.worth(belief.parts()).0 {
        return Ok(false);
    }
    match first_below(game, nodes, &node) {
        Some(number) => {
            nodes.replace(number, node);
            Ok(true)
        }
        None => add_node(nodes, node),
    }
}

/// The first node that is nowhere higher than another one.
fn first_below(game: &Game, nodes: &NodeSet, node: &Node) -> Option<u32>
    requires nodes { AreNodes game.now nodes.now.members }
    requires fits { NodeFits game.now (length nodes.now.members) (node_data node.now) }
    ensures { IfSome result (λ number. (number < length nodes.now.members) × IsNowhereLower game.now.shape.states
        (slice_index_or nodes.now.members number no_node).vector (node_data node.now).vector) }
{
    for number in 0..nodes.len() {
        if is_nowhere_lower(&nodes.node(number).vector, &node.vector) {
            return Some(number);
        }
    }
    None
}

/// Whether each entry of a vector is at least that of another.
fn is_nowhere_lower(old: &[i128], new: &[i128]) -> bool
    requires { length old.now ≡ length new.now }
    ensures { IsTrue result → IsNowhereLower (length old.now) old.now new.now }
{
    for s in 0..old.len() {
        if new[s] < old[s] {
            return false;
        }
    }
    true
}

/// Adds a node where there is room for one, and answers whether it was added.
fn add_node(nodes: &mut NodeSet, node: Node) -> Result<bool, AllocError>
    ensures added { IsAddedOrNot nodes.old.members (node_data node) nodes.new.members }
    ensures few { length nodes.new.members ≤ most_nodes }
{
    if nodes.len() as usize == MOST_NODES {
        return Ok(false);
    }
    nodes.reserve(1)?;
    Ok(nodes.push(node).is_ok())
}

/// Keeps a point: in the place of the first point of its belief where its value is lower than that of every point
/// there; where none is there, as a new point where its value is below the sawtooth bound and there is room. It answers
/// whether the point was kept.
///
/// # Errors
///
/// Where no memory is to be had. The points are then as before.
pub fn keep_point(game: &Game, points: &mut PointSet, point: Point) -> Result<bool, AllocError>
    requires points { ArePoints game.now points.old.members }
    requires fits { PointFits game.now (length points.old.members) (point_data point) }
    requires stays { (more : List PointData) →
        PointStands (numbers game.now) (points_of (points.old.members ++ more)) (point_of (point_data point)) }
    ensures { PointsGoOn game.now points.old.members points.new.members }
{
    law_game(game);
    prove!(points.len() as usize <= MOST_POINTS);
    match least_at(points, &point.belief) {
        Some(number) => {
            if points.point(number).value <= point.value {
                return Ok(false);
            }
            points.replace(number, point);
            Ok(true)
        }
        None => {
            if points.sawtooth(point.belief.parts()) <= point.value {
                return Ok(false);
            }
            add_point(points, point)
        }
    }
}

/// A point of least value among those of a belief.
pub fn least_at(points: &PointSet, belief: &Belief) -> Option<u32>
    ensures { IfSome result (λ number. (number < length points.now.members)
        × ((point_at points.now.members number).belief ≡ belief.now)) }
{
    let mut least: Option<u32> = None;
    for number in 0..points.len() {
        if points.point(number).belief.same(belief) && is_below(points, number, least) {
            least = Some(number);
        }
    }
    least
}

/// Whether a point's value is below that of another, or there is no other.
fn is_below(points: &PointSet, number: u32, other: Option<u32>) -> bool
    requires point { number < length points.now.members }
    requires other { IfSome other (λ other. other < length points.now.members) }
{
    match other {
        Some(other) => points.point(number).value < points.point(other).value,
        None => true,
    }
}

/// Adds a point where there is room for one, and answers whether it was added.
fn add_point(points: &mut PointSet, point: Point) -> Result<bool, AllocError>
    ensures added { IsAddedOrNot points.old.members (point_data point) points.new.members }
    ensures few { length points.new.members ≤ most_points }
{
    if points.len() as usize == MOST_POINTS {
        return Ok(false);
    }
    points.reserve(1)?;
    Ok(points.push(point).is_ok())
}

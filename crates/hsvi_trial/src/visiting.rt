//! The parts of a visit: what is made at a belief, and what of it is kept.

ghost use Rattle.alpha_set.specs.Members.{node_data};
ghost use Rattle.alpha_set.specs.Nodes.{NodeFits};
ghost use Rattle.hsvi_trial.specs.Due.{IsCut, IsNodeRefused, KeepsNode, KeepsPoint};
ghost use Rattle.hsvi_trial.specs.Remembered.{AreLowerSides, AreUpperSides, IsLowerMade, IsMemory, IsUpperMade, left_of};
ghost use Rattle.point_set.specs.Members.{point_data};
ghost use Rattle.point_set.specs.Points.{PointFits};
ghost use Rattle.stage_game.specs.Asked.{BeliefFits, HasRoomForLower, HasRoomForLowers, HasRoomForUpper, HasRoomForUppers, NodesServe, PointsServe};
ghost use Rattle.stage_game.specs.Data.{lower_data, upper_data};
ghost use Rattle.std.specs.Bool.{IsTrue};
ghost use Rattle.std.specs.Prelude.{IfOk, OnOk, length, vec_capacity, vec_len, ◌+◌, ◌<◌, ◌↔◌, ◌≡◌, ◌≤◌};

use crate::keeping::{keep_node, keep_point};
use crate::memory::{LowerSide, Memory, UpperSide, recall_lower, recall_upper};
use crate::visits::Visit;
use alpha_set::{Node, NodeSet};
use backup::{lower_visit, upper_visit};
use belief::Belief;
use game_model::{Game, law_game};
use point_set::{Point, PointSet};
use simplex::Solver;
use stage_game::{LowerAdvice, UpperAdvice};
use std::alloc::{AllocError, Global};

/// Both advices at a belief, and their members.
#[derive(Drop)]
pub struct Made {
    pub lower: LowerAdvice,
    pub node: Node,
    pub upper: UpperAdvice,
    pub point: Point,
}

/// Makes both advices at a belief with their members, or takes those that are remembered, and makes room
/// for what a visit may add.
///
/// # Errors
///
/// Where no memory is to be had. Sets and journal are as they were.
pub fn make(
    alloc: Global,
    solver: &mut Solver,
    game: &Game,
    belief: &Belief,
    nodes: &mut NodeSet,
    points: &mut PointSet,
    journal: &mut Vec<Visit>,
    memory: &mut Memory,
) -> Result<Made, AllocError>
    requires belief { BeliefFits game.now belief.now }
    requires nodes { NodesServe game.now nodes.old.members }
    requires points { PointsServe game.now points.old.members }
    requires lower { HasRoomForLower solver.old game.now 16 }
    requires upper { HasRoomForUpper solver.old game.now (game.now.shape.states + 8) }
    requires memory { IsMemory game.now nodes.old.members points.old.members memory.old }
    ensures rows { solver.new.most_rows ≡ solver.old.most_rows }
    ensures variables { solver.new.most_variables ≡ solver.old.most_variables }
    ensures same_nodes { nodes.new.members ≡ nodes.old.members }
    ensures same_points { points.new.members ≡ points.old.members }
    ensures same_journal { journal.new.items ≡ journal.old.items }
    ensures node_room { OnOk result (1 ≤ nodes.new.spare) }
    ensures point_room { OnOk result (1 ≤ points.new.spare) }
    ensures journal_room { OnOk result (vec_len journal.new < vec_capacity journal.new) }
    ensures memory { IsMemory game.now nodes.old.members points.old.members memory.new }
    ensures lower { IfOk result (λ made.
        IsLowerMade game.now nodes.old.members belief.now (lower_data made.lower) (node_data made.node)) }
    ensures upper { IfOk result (λ made.
        IsUpperMade game.now points.old.members belief.now (upper_data made.upper) (point_data made.point)) }
{
    law_game(game);
    let (lower, node) = lower_side(alloc, solver, game, belief, nodes, &mut memory.lower)?;
    let (upper, point) = upper_side(alloc, solver, game, belief, points, &mut memory.upper)?;
    nodes.reserve(1)?;
    points.reserve(1)?;
    journal.reserve(1)?;
    Ok(Made {
        lower,
        node,
        upper,
        point,
    })
}

/// The lower advice at a belief and its node: those that are remembered, or new ones.
fn lower_side(
    alloc: Global,
    solver: &mut Solver,
    game: &Game,
    belief: &Belief,
    nodes: &NodeSet,
    sides: &mut Vec<Option<LowerSide>>,
) -> Result<(LowerAdvice, Node), AllocError>
    requires belief { BeliefFits game.now belief.now }
    requires nodes { NodesServe game.now nodes.now.members }
    requires room { HasRoomForLowers solver.old game.now nodes.now.members }
    requires sides { AreLowerSides game.now nodes.now.members sides.old.items }
    ensures rows { solver.new.most_rows ≡ solver.old.most_rows }
    ensures variables { solver.new.most_variables ≡ solver.old.most_variables }
    ensures sides { AreLowerSides game.now nodes.now.members sides.new.items }
    ensures made { IfOk result (λ made.
        IsLowerMade game.now nodes.now.members belief.now (lower_data made.0) (node_data made.1)) }
{
    match recall_lower(sides, game, belief, nodes) {
        Some(side) => Ok((side.advice, side.node)),
        None => lower_visit(alloc, solver, game, belief, nodes),
    }
}

/// The upper advice at a belief and its point: those that are remembered, or new ones.
fn upper_side(
    alloc: Global,
    solver: &mut Solver,
    game: &Game,
    belief: &Belief,
    points: &PointSet,
    sides: &mut Vec<Option<UpperSide>>,
) -> Result<(UpperAdvice, Point), AllocError>
    requires belief { BeliefFits game.now belief.now }
    requires points { PointsServe game.now points.now.members }
    requires room { HasRoomForUppers solver.old game.now points.now.members }
    requires sides { AreUpperSides game.now points.now.members sides.old.items }
    ensures rows { solver.new.most_rows ≡ solver.old.most_rows }
    ensures variables { solver.new.most_variables ≡ solver.old.most_variables }
    ensures sides { AreUpperSides game.now points.now.members sides.new.items }
    ensures made { IfOk result (λ made.
        IsUpperMade game.now points.now.members belief.now (upper_data made.0) (point_data made.1)) }
{
    match recall_upper(sides, game, belief, points) {
        Some(side) => Ok((side.advice, side.point)),
        None => upper_visit(alloc, solver, game, belief, points),
    }
}

/// What a visit kept, what of its members is left, and whether it is cut.
#[derive(Drop)]
pub struct KeptBoth {
    pub node: Option<u32>,
    pub left_node: Option<Node>,
    pub point: Option<u32>,
    pub left_point: Option<Point>,
    pub cut: bool,
}

/// Keeps the node and then the point of a visit, each where it is due and there is room. Both sets have room to spare
/// for one, so no memory is taken.
pub fn keep(
    game: &Game,
    nodes: &mut NodeSet,
    points: &mut PointSet,
    belief: &Belief,
    node: Node,
    point: Point,
) -> KeptBoth
    requires belief { BeliefFits game.now belief.now }
    requires nodes { NodesServe game.now nodes.old.members }
    requires points { PointsServe game.now points.old.members }
    requires node { NodeFits game.now (length nodes.old.members) (node_data node) }
    requires point { PointFits game.now (length points.old.members) (point_data point) }
    requires node_room { 1 ≤ nodes.old.spare }
    requires point_room { 1 ≤ points.old.spare }
    ensures node { KeepsNode nodes.old.members nodes.new.members belief.now (node_data node) result.node }
    ensures point { KeepsPoint (IsNodeRefused nodes.old.members belief.now (node_data node))
        points.old.members points.new.members belief.now (point_data point) result.point }
    ensures nodes { NodesServe game.now nodes.new.members }
    ensures points { PointsServe game.now points.new.members }
    ensures cut { IsTrue result.cut ↔
        IsCut (record { nodes = nodes.old.members; points = points.old.members })
        belief.now (node_data node) (point_data point) }
    ensures left_node { result.left_node ≡ left_of result.node node }
    ensures left_point { result.left_point ≡ left_of result.point point }
{
    law_game(game);
    let (node, left_node) = keep_node(game, nodes, belief, node);
    let (point, left_point) = keep_point(points, belief, point, node.refused);
    let cut = node.refused || point.refused;
    KeptBoth {
        node: node.number,
        left_node,
        point: point.number,
        left_point,
        cut,
    }
}

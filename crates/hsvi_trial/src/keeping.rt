//! Which new members a search keeps.

ghost use Rattle.alpha_set.specs.Members.{most_nodes, node_data};
ghost use Rattle.alpha_set.specs.Nodes.{NodeFits};
ghost use Rattle.alpha_set.specs.Worth.{worth_at};
ghost use Rattle.game_model.specs.Game.{IsWithin};
ghost use Rattle.game_model.specs.Limits.{most_belief, most_states};
ghost use Rattle.hsvi_trial.specs.Due.{IsNodeDue, IsNodeRefused, IsPointDue, IsPointRefused, KeepsNode, KeepsPoint};
ghost use Rattle.hsvi_trial.specs.Remembered.{left_of};
ghost use Rattle.point_set.specs.Members.{point_data};
ghost use Rattle.point_set.specs.Sawtooth.{AreMeasured};
ghost use Rattle.stage_game.specs.Asked.{BeliefFits, NodesServe};
ghost use Rattle.std.specs.Bool.{IsTrue};
ghost use Rattle.std.specs.List.{AllByRecursion};
ghost use Rattle.std.specs.Prelude.{length, pos, unsigned_abs, ◌^◌, ◌↔◌, ◌≡◌, ◌≤◌};

use crate::least::least_at;
use alpha_set::{MOST_NODES, Node, NodeSet};
use belief::Belief;
use game_model::{Game, law_game};
use point_set::{MOST_POINTS, Point, PointSet};

/// What became of a new member.
#[derive(Clone, Copy)]
pub struct Kept {
    /// Its number, where it was kept.
    pub number: Option<u32>,
    /// Whether it had to be kept, and the set was full.
    pub refused: bool,
}

/// Not kept.
const NOT_KEPT: Kept = Kept {
    number: None,
    refused: false,
};

/// Had to be kept, and the set was full.
const REFUSED: Kept = Kept {
    number: None,
    refused: true,
};

/// Keeps a node where it is due and there is room, and else gives it back. The set has room to spare for one, so no
/// memory is taken.
pub fn keep_node(
    game: &Game,
    nodes: &mut NodeSet,
    belief: &Belief,
    node: Node,
) -> (Kept, Option<Node>)
    requires belief { BeliefFits game.now belief.now }
    requires nodes { NodesServe game.now nodes.old.members }
    requires node { NodeFits game.now (length nodes.old.members) (node_data node) }
    requires spare { 1 ≤ nodes.old.spare }
    ensures kept { KeepsNode nodes.old.members nodes.new.members belief.now (node_data node) result.0.number }
    ensures refused { IsTrue result.0.refused ↔ IsNodeRefused nodes.old.members belief.now (node_data node) }
    ensures left { result.1 ≡ left_of result.0.number node }
{
    if !is_node_due(game, nodes, belief, &node) {
        return (NOT_KEPT, Some(node));
    }
    if nodes.len() as usize == MOST_NODES {
        return (REFUSED, Some(node));
    }
    let kept = Kept {
        number: nodes.push(node).ok(),
        refused: false,
    };
    (kept, None)
}

/// Whether a node's product with a belief is greater than what the nodes are worth there.
fn is_node_due(game: &Game, nodes: &NodeSet, belief: &Belief, node: &Node) -> bool
    requires belief { BeliefFits game.now belief.now }
    requires nodes { NodesServe game.now nodes.now.members }
    requires node { NodeFits game.now (length nodes.now.members) (node_data node.now) }
    ensures { IsTrue result ↔ IsNodeDue nodes.now.members belief.now (node_data node.now) }
{
    law_game(game);
    prove!(nodes.len() as usize <= MOST_NODES);
    let (worth, _) = nodes.worth(belief.parts());
    worth < node_worth(game, node, belief.parts())
}

/// The product of a node's vector with a belief.
fn node_worth(game: &Game, node: &Node, belief: &[i128]) -> i128
    requires belief { BeliefFits game.now belief.now }
    requires node { NodeFits game.now most_nodes (node_data node.now) }
    ensures { result ≡ worth_at belief.now (node_data node.now).vector }
{
    law_game(game);
    product(belief, &node.vector)
}

/// The sum over the states of a belief's weights times entries.
fn product(belief: &[i128], vector: &[i128]) -> i128
    requires same { length belief.now ≡ length vector.now }
    requires few { length belief.now ≤ most_states }
    requires weights { AllByRecursion (IsWithin (pos 0) (pos most_belief)) belief.now }
    requires entries { AllByRecursion (λ x. unsigned_abs x ≤ 2 ^ 70) vector.now }
    ensures { result ≡ worth_at belief.now vector.now }
{
    let mut sum = 0;
    for s in 0..belief.len() {
        sum += belief[s] * vector[s];
    }
    sum
}

/// Keeps a point where it is due, there is room, and no node of the same visit was refused, and else gives it back. The
/// set has room to spare for one, so no memory is taken.
pub fn keep_point(
    points: &mut PointSet,
    belief: &Belief,
    point: Point,
    node_refused: bool,
) -> (Kept, Option<Point>)
    requires measured { AreMeasured points.old.members belief.now }
    requires spare { 1 ≤ points.old.spare }
    ensures kept { KeepsPoint (IsTrue node_refused) points.old.members points.new.members
        belief.now (point_data point) result.0.number }
    ensures refused { IsTrue result.0.refused ↔ IsPointRefused points.old.members belief.now (point_data point) }
    ensures left { result.1 ≡ left_of result.0.number point }
{
    if !is_point_due(points, belief, &point) {
        return (NOT_KEPT, Some(point));
    }
    if points.len() as usize == MOST_POINTS {
        return (REFUSED, Some(point));
    }
    if node_refused {
        return (NOT_KEPT, Some(point));
    }
    let kept = Kept {
        number: points.push(point).ok(),
        refused: false,
    };
    (kept, None)
}

/// Whether a point's value is below the least one among the points at a belief, and where there is none, below the
/// sawtooth bound.
fn is_point_due(points: &PointSet, belief: &Belief, point: &Point) -> bool
    requires { AreMeasured points.now.members belief.now }
    ensures { IsTrue result ↔ IsPointDue points.now.members belief.now (point_data point.now) }
{
    match least_at(points, belief) {
        Some(least) => point.value < points.point(least).value,
        None => point.value < points.sawtooth(belief.parts()),
    }
}

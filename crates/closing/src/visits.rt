//! Visits: the node and the point that are found at a belief, kept where they help.

ghost use Rattle.alpha_set.specs.Nodes.{IsMix};
ghost use Rattle.closing.specs.Better.{AreNodes, ArePoints, NodesGoOn, PointsGoOn};
ghost use Rattle.closing.specs.Seen.{IsSeen};
ghost use Rattle.stage_game.specs.Asked.{BeliefFits, PointsServe};
ghost use Rattle.stage_game.specs.Fits.{MixesFit};
ghost use Rattle.std.specs.Prelude.{IfOk};

use crate::hulls::Hull;
use crate::keeps::{keep_node, keep_point};
use crate::matching::{matched_node, matched_point};
use crate::sums::product;
use alpha_set::NodeSet;
use belief::{Belief, Mixes};
use game_model::{Game, law_game};
use point_set::{Point, PointSet};
use std::alloc::{AllocError, Global};

/// How both players would play at a belief.
#[derive(Drop)]
pub struct Seen {
    /// The mixes of the informed player against the node.
    pub informed: Mixes,
    /// The mix of player one against the point.
    pub own: Vec<i128>,
}

/// Makes a node and a point at a belief, and keeps each of them where it helps.
///
/// # Errors
///
/// Where no memory is to be had.
pub fn visit(
    alloc: Global,
    game: &Game,
    belief: &Belief,
    nodes: &mut NodeSet,
    points: &mut PointSet,
) -> Result<Seen, AllocError>
    requires belief { BeliefFits game.now belief.now }
    requires nodes { AreNodes game.now nodes.old.members }
    requires points { ArePoints game.now points.old.members }
    ensures nodes { NodesGoOn game.now nodes.old.members nodes.new.members }
    ensures points { PointsGoOn game.now points.old.members points.new.members }
    ensures seen { IfOk result (IsSeen game.now) }
{
    law_game(game);
    let informed = visit_nodes(alloc, game, belief, nodes, points)?;
    let own = visit_points(alloc, game, belief, points)?;
    Ok(Seen { informed, own })
}

/// Makes a node at a belief, keeps it where it helps, and answers the mixes of the informed player against it.
fn visit_nodes(
    alloc: Global,
    game: &Game,
    belief: &Belief,
    nodes: &mut NodeSet,
    points: &PointSet,
) -> Result<Mixes, AllocError>
    requires belief { BeliefFits game.now belief.now }
    requires nodes { AreNodes game.now nodes.old.members }
    requires points { ArePoints game.now points.now.members }
    ensures nodes { NodesGoOn game.now nodes.old.members nodes.new.members }
    ensures mixes { IfOk result (MixesFit game.now) }
{
    law_game(game);
    let (informed, node) = matched_node(alloc, game, belief, nodes, points)?;
    keep_node(game, nodes, belief, node)?;
    Ok(informed)
}

/// Makes a point at a belief, keeps it where it helps, and answers the mix of player one against it.
pub fn visit_points(
    alloc: Global,
    game: &Game,
    belief: &Belief,
    points: &mut PointSet,
) -> Result<Vec<i128>, AllocError>
    requires belief { BeliefFits game.now belief.now }
    requires points { ArePoints game.now points.old.members }
    ensures points { PointsGoOn game.now points.old.members points.new.members }
    ensures own { IfOk result (λ own. IsMix game.now.shape.own_actions own.items) }
{
    law_game(game);
    let mut hull = Hull::of(alloc, game, points)?;
    let (own, point) = matched_point(alloc, game, belief, points, &mut hull)?;
    if is_lower(game, points, &mut hull, &point) {
        keep_point(game, points, point)?;
    }
    Ok(own)
}

/// Whether a point lies below all divisions of its belief among the points of a hull, by a unit or more.
fn is_lower(game: &Game, points: &PointSet, hull: &mut Hull, point: &Point) -> bool
    requires { PointsServe game.now points.now.members }
{
    let parts = point.belief.parts();
    let heights = hull.divide(game, points, 0, parts);
    point.value.saturating_add(point.belief.total()) <= product(parts, &heights)
}

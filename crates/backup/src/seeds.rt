//! The seeds of a search: the nodes and the points that it begins with.

ghost use Rattle.backup.specs.Standing.{NodesStand, PointsStand};
ghost use Rattle.alpha_set.specs.Nodes.{NodeFits};
ghost use Rattle.backup.specs.Seeds.{AreSeedNodes, AreSeedPoints};
ghost use Rattle.game_model.specs.Game.{span};
ghost use Rattle.point_set.specs.Points.{PointFits};
ghost use Rattle.std.specs.List.{AllByRecursion};
ghost use Rattle.std.specs.Prelude.{IfOk, length, ◌<◌};

use crate::nodes::seed_nodes;
use crate::points::seed_points;
use alpha_set::NodeSet;
use game_model::Game;
use point_set::PointSet;
use std::alloc::{AllocError, Global};

/// The seeds of a search: one node for each own action, which always plays it, with the vector that 256 rounds make
/// from minus the span; one point for each state, at its corner, with the value that 256 rounds make from the span and
/// with the informed player's replies of the last round; and where the first belief is no corner, a point at it. All
/// masses are split into corners. All nodes and points fit the game and stand, so they bound every plan.
///
/// # Errors
///
/// Where no memory is to be had.
pub fn seed(alloc: Global, game: &Game) -> Result<(NodeSet, PointSet), AllocError>
    ensures nodes { IfOk result (λ sets. AreSeedNodes game.now sets.0.members) }
    ensures points { IfOk result (λ sets. AreSeedPoints game.now sets.1.members) }
    ensures nodes_fit { IfOk result (λ sets. AllByRecursion (NodeFits game.now (length sets.0.members))
        sets.0.members) }
    ensures nodes_stand { IfOk result (λ sets. NodesStand game.now sets.0.members) }
    ensures points_fit { IfOk result (λ sets. AllByRecursion (PointFits game.now (length sets.1.members))
        sets.1.members) }
    ensures points_stand { IfOk result (λ sets. PointsStand game.now sets.1.members) }
{
    let nodes = seed_nodes(alloc, game)?;
    let points = seed_points(alloc, game)?;
    Ok((nodes, points))
}

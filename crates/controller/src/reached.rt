//! The nodes that start nodes reach by steps, and the points that corners and start points reach by shares.

ghost use Rattle.controller.specs.Export.{shares_of, steps_of};
ghost use Rattle.controller.specs.Reached.{AreReachedNodes, AreReachedPoints, NameMembers, flag_at};
ghost use Rattle.std.specs.List.{AllByRecursion};
ghost use Rattle.std.specs.Prelude.{IfOk, length, ◌<◌, ◌≡◌, ◌≤◌};

use crate::found::Found;
use alpha_set::NodeSet;
use game_model::Game;
use point_set::PointSet;
use std::alloc::{AllocError, Global};

/// For each node, whether the start nodes reach it by steps.
///
/// # Errors
///
/// Where no memory is to be had.
pub fn reached_nodes(
    alloc: Global,
    nodes: &NodeSet,
    starts: &[(u32, i128)],
) -> Result<Vec<bool>, AllocError>
    requires named { NameMembers (length nodes.now.members) (steps_of nodes.now.members) }
    requires starts { AllByRecursion (λ start. start.0 < length nodes.now.members) starts.now }
    ensures long { IfOk result (λ flags. length flags.items ≡ length nodes.now.members) }
    ensures kept { IfOk result (λ flags. AreReachedNodes nodes.now.members starts.now (flag_at flags.items)) }
{
    let mut found = Found::none(alloc, nodes.len())?;
    found.add_starts(starts)?;
    let mut next = 0;
    while next < found.numbers.len() {
        let i = found.numbers[next];
        found.add_named(&nodes.node(i).next)?;
        next += 1;
    }
    Ok(found.flags)
}

/// For each point, whether the corners and the start points reach it by shares. The corners are the first points.
///
/// # Errors
///
/// Where no memory is to be had.
pub fn reached_points(
    alloc: Global,
    game: &Game,
    points: &PointSet,
    starts: &[(u32, i128)],
) -> Result<Vec<bool>, AllocError>
    requires named { NameMembers (length points.now.members) (shares_of points.now.members) }
    requires corners { game.now.shape.states ≤ length points.now.members }
    requires starts { AllByRecursion (λ start. start.0 < length points.now.members) starts.now }
    ensures long { IfOk result (λ flags. length flags.items ≡ length points.now.members) }
    ensures kept { IfOk result (λ flags.
        AreReachedPoints game.now.shape.states points.now.members starts.now (flag_at flags.items)) }
{
    let mut found = Found::none(alloc, points.len())?;
    found.add_first(game.states())?;
    found.add_starts(starts)?;
    let mut next = 0;
    while next < found.numbers.len() {
        let j = found.numbers[next];
        found.add_named(&points.point(j).splits)?;
        next += 1;
    }
    Ok(found.flags)
}

//! The members and starts that a certificate keeps, under new numbers.

ghost use Rattle.alpha_set.specs.Members.{most_nodes, node_data};
ghost use Rattle.controller.specs.Export.{nodes_kept, points_kept, renumbered, renumbered_node, renumbered_point, renumbered_starts, shares_of, steps_of};
ghost use Rattle.controller.specs.Reached.{NameMembers, flag_at};
ghost use Rattle.game_model.specs.Branches.{branch_of};
ghost use Rattle.point_set.specs.Members.{most_points, point_data};
ghost use Rattle.std.specs.List.{AllByRecursion};
ghost use Rattle.std.specs.Prelude.{IfOk, OnOk, [], length, map, ◌++◌, ◌<◌, ◌∷◌, ◌≡◌};

use crate::numbering::Numbering;
use alpha_set::{Node, NodeSet};
use game_model::{Branch, Game};
use point_set::{Point, PointSet};
use std::alloc::{AllocError, Global};

/// The nodes that are kept, in order.
///
/// # Errors
///
/// Where no memory is to be had.
pub fn keep_nodes(
    alloc: Global,
    game: &Game,
    nodes: &NodeSet,
    numbering: &Numbering,
) -> Result<NodeSet, AllocError>
    requires count { length numbering.now ≡ length nodes.now.members }
    requires named { NameMembers (length nodes.now.members) (steps_of nodes.now.members) }
    ensures { IfOk result (λ kept. kept.members ≡ nodes_kept (flag_at numbering.now) nodes.now.members) }
{
    let mut kept = NodeSet::new(alloc, game);
    for i in 0..nodes.len() {
        if !numbering.keeps(i) {
            continue;
        }
        let node = renumber_node(alloc, nodes.node(i), numbering)?;
        add_node(&mut kept, node)?;
    }
    Ok(kept)
}

/// Adds a node to a set that has room for it.
fn add_node(nodes: &mut NodeSet, node: Node) -> Result<(), AllocError>
    requires { length nodes.old.members < most_nodes }
    ensures { OnOk result (nodes.new.members ≡ nodes.old.members ++ node_data node ∷ []) }
{
    match nodes.push(node) {
        Ok(_) => Ok(()),
        Err(alpha_set::PushFault::OutOfMemory) => Err(AllocError),
        Err(alpha_set::PushFault::Full) => unreachable!(),
    }
}

/// A node with its steps renumbered.
fn renumber_node(alloc: Global, node: &Node, numbering: &Numbering) -> Result<Node, AllocError>
    requires { AllByRecursion (λ b. b.member < length numbering.now) (node_data node.now).next }
    ensures { IfOk result (λ new. node_data new ≡ renumbered_node (flag_at numbering.now) (node_data node.now)) }
{
    Ok(Node {
        vector: node.vector.clone()?,
        mix: node.mix.clone()?,
        next: renumber(alloc, &node.next, numbering)?,
    })
}

/// The points that are kept, in order.
///
/// # Errors
///
/// Where no memory is to be had.
pub fn keep_points(
    alloc: Global,
    game: &Game,
    points: &PointSet,
    numbering: &Numbering,
) -> Result<PointSet, AllocError>
    requires count { length numbering.now ≡ length points.now.members }
    requires named { NameMembers (length points.now.members) (shares_of points.now.members) }
    ensures { IfOk result (λ kept. kept.members ≡ points_kept (flag_at numbering.now) points.now.members) }
{
    let mut kept = PointSet::new(alloc, game);
    for j in 0..points.len() {
        if !numbering.keeps(j) {
            continue;
        }
        let point = renumber_point(alloc, points.point(j), numbering)?;
        add_point(&mut kept, point)?;
    }
    Ok(kept)
}

/// Adds a point to a set that has room for it.
fn add_point(points: &mut PointSet, point: Point) -> Result<(), AllocError>
    requires { length points.old.members < most_points }
    ensures { OnOk result (points.new.members ≡ points.old.members ++ point_data point ∷ []) }
{
    match points.push(point) {
        Ok(_) => Ok(()),
        Err(point_set::PushFault::OutOfMemory) => Err(AllocError),
        Err(point_set::PushFault::Full) => unreachable!(),
    }
}

/// A point with its shares renumbered.
fn renumber_point(alloc: Global, point: &Point, numbering: &Numbering) -> Result<Point, AllocError>
    requires { AllByRecursion (λ b. b.member < length numbering.now) (point_data point.now).splits }
    ensures { IfOk result (λ new. point_data new ≡ renumbered_point (flag_at numbering.now) (point_data point.now)) }
{
    Ok(Point {
        belief: point.belief.copied(),
        value: point.value,
        mixes: point.mixes.copied()?,
        splits: renumber(alloc, &point.splits, numbering)?,
    })
}

/// Branches that name the same members by their new numbers.
fn renumber(
    alloc: Global,
    branches: &[Branch],
    numbering: &Numbering,
) -> Result<Vec<Branch>, AllocError>
    requires { AllByRecursion (λ b. b.member < length numbering.now) (map branch_of branches.now) }
    ensures { IfOk result (λ new.
        map branch_of new.items ≡ renumbered (flag_at numbering.now) (map branch_of branches.now)) }
{
    let mut new = Vec::with_capacity(alloc, branches.len())?;
    for branch in branches {
        new.push(Branch {
            a: branch.a,
            o: branch.o,
            k: numbering.number(branch.k),
            weight: branch.weight,
        })?;
    }
    Ok(new)
}

/// Starts that name the same members by their new numbers.
///
/// # Errors
///
/// Where no memory is to be had.
pub fn renumber_starts(
    alloc: Global,
    starts: &[(u32, i128)],
    numbering: &Numbering,
) -> Result<Vec<(u32, i128)>, AllocError>
    requires { AllByRecursion (λ start. start.0 < length numbering.now) starts.now }
    ensures { IfOk result (λ new. new.items ≡ renumbered_starts (flag_at numbering.now) starts.now) }
{
    let mut new = Vec::with_capacity(alloc, starts.len())?;
    for start in starts {
        new.push((numbering.number(start.0), start.1))?;
    }
    Ok(new)
}

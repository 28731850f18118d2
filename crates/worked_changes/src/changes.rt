//! A node and a point that are replaced.

ghost use Rattle.std.specs.Prelude.{◌≡◌};

use alpha_set::{Node, NodeSet, Step};
use belief::{Belief, Mixes};
use game_model::{Game, GameBuilder, GameFault, Shape};
use point_set::{Point, PointSet, Share};
use std::alloc::{AllocError, Global};

/// One state and one own action, and the informed player pays 3 or 1; the discount is a half.
fn three_or_one(alloc: Global) -> Result<Game, GameFault> {
    let shape = Shape {
        states: 1,
        own_actions: 1,
        informed_actions: 2,
        observations: 1,
        row_total: 1,
        discount: (1, 2),
    };
    let mut builder = GameBuilder::new(alloc, shape, &[1])?;
    for reward in [3, 1] {
        builder.step(reward)?;
        builder.landing(0, 0, 1)?;
    }
    builder.finish()
}

/// The node of this entry that goes on with node 0.
fn node_of(alloc: Global, entry: i128) -> Result<Node, AllocError> {
    let step = Step {
        a: 0,
        o: 0,
        k: 0,
        weight: 65_536,
    };
    Ok(Node {
        vector: vec![in alloc; entry]?,
        mix: vec![in alloc; 65_536]?,
        next: vec![in alloc; step]?,
    })
}

/// The nodes: one of this entry.
fn nodes_of(alloc: Global, game: &Game, entry: i128) -> Result<NodeSet, AllocError> {
    let mut nodes = NodeSet::new(alloc, game);
    match nodes.push(node_of(alloc, entry)?) {
        Ok(_) => Ok(nodes),
        Err(_) => Err(AllocError),
    }
}

/// The point of this value that pays 1 and goes on with point 0.
fn point_of(alloc: Global, game: &Game, value: i128) -> Result<Point, AllocError>
    requires states { game.now.shape.states ≡ 1 }
    requires informed { game.now.shape.informed_actions ≡ 2 }
{
    let share = Share {
        a: 0,
        o: 0,
        k: 0,
        weight: 65_536,
    };
    Ok(Point {
        belief: Belief::corner(1, 0),
        value,
        mixes: Mixes::pure(alloc, game, &[1])?,
        splits: vec![in alloc; share]?,
    })
}

/// The points: one of this value.
fn points_of(alloc: Global, game: &Game, value: i128) -> Result<PointSet, AllocError>
    requires states { game.now.shape.states ≡ 1 }
    requires informed { game.now.shape.informed_actions ≡ 2 }
{
    let mut points = PointSet::new(alloc, game);
    match points.push(point_of(alloc, game, value)?) {
        Ok(_) => Ok(points),
        Err(_) => Err(AllocError),
    }
}

#[test]
fn a_node_becomes_another_at_its_number(rt: HostRuntime) {
    let Ok(game) = three_or_one(rt.alloc()) else {
        panic!(rt; "the game is refused");
    };
    let Ok(mut nodes) = nodes_of(rt.alloc(), &game, 0) else {
        panic!(rt; "out of memory");
    };
    let Ok(node) = node_of(rt.alloc(), 131_072) else {
        panic!(rt; "out of memory");
    };
    assert_eq!(rt; nodes.len(), 1);
    nodes.replace(0, node);
    assert!(rt; nodes.node(0).vector.first() == Some(&131_072));
}

#[test]
fn a_point_becomes_another_at_its_number(rt: HostRuntime) {
    let Ok(game) = three_or_one(rt.alloc()) else {
        panic!(rt; "the game is refused");
    };
    assert_eq!(rt; game.states(), 1);
    assert_eq!(rt; game.informed_actions(), 2);
    let Ok(mut points) = points_of(rt.alloc(), &game, 393_216) else {
        panic!(rt; "out of memory");
    };
    let Ok(point) = point_of(rt.alloc(), &game, 131_072) else {
        panic!(rt; "out of memory");
    };
    assert_eq!(rt; points.len(), 1);
    points.replace(0, point);
    assert_eq!(rt; points.point(0).value, 131_072);
}

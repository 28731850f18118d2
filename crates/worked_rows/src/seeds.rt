//! Worked seeds of a search.

use alpha_set::{NodeSet, Step};
use backup::seed;
use game_model::{Game, GameBuilder, GameFault, Shape};
use point_set::{PointSet, Share};
use std::alloc::Global;

/// Matching pennies in one state, without a future.
pub fn pennies(alloc: Global) -> Result<Game, GameFault> {
    let shape = Shape {
        states: 1,
        own_actions: 2,
        informed_actions: 2,
        observations: 1,
        row_total: 1,
        discount: (0, 1),
    };
    let mut builder = GameBuilder::new(alloc, shape, &[1])?;
    for reward in [1, -1, -1, 1] {
        builder.step(reward)?;
        builder.landing(0, 0, 1)?;
    }
    builder.finish()
}

/// Two states that stay as they are, with this first belief: player one is paid where its action is the number of the
/// state.
pub fn guess(alloc: Global, first: &[i128]) -> Result<Game, GameFault> {
    let shape = Shape {
        states: 2,
        own_actions: 2,
        informed_actions: 1,
        observations: 1,
        row_total: 1,
        discount: (0, 1),
    };
    let mut builder = GameBuilder::new(alloc, shape, first)?;
    for s in 0..2 {
        for a in 0..2 {
            builder.step(if s == a { 1 } else { 0 })?;
            builder.landing(0, s, 1)?;
        }
    }
    builder.finish()
}

/// Whether the node of a number has this vector, this mix and these steps.
fn has_node(nodes: &NodeSet, number: u32, vector: &[i128], mix: &[i128], next: &[Step]) -> bool {
    if number >= nodes.len() {
        return false;
    }
    let node = nodes.node(number);
    node.vector.as_slice() == vector && node.mix.as_slice() == mix && node.next.as_slice() == next
}

/// Whether the point of a number has this belief, this value and these shares.
fn has_point(
    points: &PointSet,
    number: u32,
    belief: &[i128],
    value: i128,
    shares: &[Share],
) -> bool {
    if number >= points.len() {
        return false;
    }
    let point = points.point(number);
    point.belief.parts() == belief && point.value == value && point.splits.as_slice() == shares
}

/// Whether the mixes at a point are those of so many states and informed actions, and play this action in each state.
fn plays(points: &PointSet, number: u32, states: u32, actions: u32, action: u32) -> bool {
    if number >= points.len() {
        return false;
    }
    let mixes = &points.point(number).mixes;
    if mixes.states() != states || mixes.actions() != actions || action >= actions {
        return false;
    }
    for s in 0..states {
        if mixes.get(s, action) != 65_536 {
            return false;
        }
    }
    true
}

/// The whole weight of a mix on a member, after an own action and the only observation.
fn share(a: u32, k: u32) -> Share {
    Share {
        a,
        o: 0,
        k,
        weight: 65_536,
    }
}

#[test]
fn seeds_of_matching_pennies_have_no_root(rt: HostRuntime) {
    let Ok(game) = pennies(rt.alloc()) else {
        panic!(rt; "the game is refused");
    };
    let Ok((nodes, points)) = seed(rt.alloc(), &game) else {
        panic!(rt; "out of memory");
    };
    assert_eq!(rt; nodes.len(), 2);
    assert!(rt; has_node(&nodes, 0, &[-65_536], &[65_536, 0], &[share(0, 0)]));
    assert!(rt; has_node(&nodes, 1, &[-65_536], &[0, 65_536], &[share(1, 1)]));
    assert_eq!(rt; points.len(), 1);
    assert!(rt; has_point(&points, 0, &[1], 65_536, &[share(0, 0), share(1, 0)]));
    assert!(rt; plays(&points, 0, 1, 2, 0));
}

#[test]
fn seeds_of_guess_the_state_have_a_root(rt: HostRuntime) {
    let Ok(game) = guess(rt.alloc(), &[1, 1]) else {
        panic!(rt; "the game is refused");
    };
    let Ok((nodes, points)) = seed(rt.alloc(), &game) else {
        panic!(rt; "out of memory");
    };
    assert_eq!(rt; nodes.len(), 2);
    assert!(rt; has_node(&nodes, 0, &[65_536, 0], &[65_536, 0], &[share(0, 0)]));
    assert!(rt; has_node(&nodes, 1, &[0, 65_536], &[0, 65_536], &[share(1, 1)]));
    assert_eq!(rt; points.len(), 3);
    assert!(rt; has_point(&points, 0, &[1, 0], 65_536, &[share(0, 0), share(1, 0)]));
    assert!(rt; has_point(&points, 1, &[0, 1], 65_536, &[share(0, 1), share(1, 1)]));
    let all = [share(0, 0), share(0, 1), share(1, 0), share(1, 1)];
    assert!(rt; has_point(&points, 2, &[1, 1], 65_536, &all));
    for number in 0..3 {
        assert!(rt; plays(&points, number, 2, 1, 0));
    }
}

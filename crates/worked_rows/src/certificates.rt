//! Tests of what fits: a vector above the span and a share of no point do not.

use alpha_set::{Node, NodeSet, Step};
use belief::{Belief, Mixes};
use controller::{Certificate, Outcome};
use game_model::{Game, GameBuilder, GameFault, Shape};
use point_set::{Point, PointSet, Share};
use scaled_num::Fraction;
use std::alloc::{AllocError, Global};

/// One state and one action of each player, with the reward 3 at each stage; the discount is a half.
pub fn three_halved(alloc: Global) -> Result<Game, GameFault> {
    let shape = Shape {
        states: 1,
        own_actions: 1,
        informed_actions: 1,
        observations: 1,
        row_total: 1,
        discount: (1, 2),
    };
    let mut builder = GameBuilder::new(alloc, shape, &[1])?;
    builder.step(3)?;
    builder.landing(0, 0, 1)?;
    builder.finish()
}

/// The nodes: one of this entry that goes on with itself.
fn nodes_of(alloc: Global, game: &Game, entry: i128) -> Result<NodeSet, AllocError> {
    let vector = vec![in alloc; entry]?;
    let mix = vec![in alloc; 65_536]?;
    let step = Step {
        a: 0,
        o: 0,
        k: 0,
        weight: 65_536,
    };
    let next = vec![in alloc; step]?;
    let mut nodes = NodeSet::new(alloc, game);
    let Ok(_) = nodes.push(Node { vector, mix, next }) else {
        return Err(AllocError);
    };
    Ok(nodes)
}

/// The points: one corner with these mixes that goes on with point `k`.
fn points_of(alloc: Global, game: &Game, mixes: Mixes, k: u32) -> Result<PointSet, AllocError> {
    let share = Share {
        a: 0,
        o: 0,
        k,
        weight: 65_536,
    };
    let point = Point {
        belief: Belief::corner(1, 0),
        value: 393_216,
        mixes,
        splits: vec![in alloc; share]?,
    };
    let mut points = PointSet::new(alloc, game);
    let Ok(_) = points.push(point) else {
        return Err(AllocError);
    };
    Ok(points)
}

/// A certificate of three at each stage.
fn certificate_of(
    alloc: Global,
    nodes: NodeSet,
    points: PointSet,
) -> Result<Certificate, AllocError> {
    let six = Fraction {
        num: 393_216,
        den: 65_536,
    };
    Ok(Certificate {
        lower: six,
        upper: six,
        tail: six,
        gap: Fraction { num: 0, den: 1 },
        outcome: Outcome::Closed,
        nodes,
        points,
        start_nodes: vec![in alloc; (0, 1)]?,
        start_points: vec![in alloc; (0, 1)]?,
        multiple: 1,
    })
}

/// Whether the certificate with this entry fits, whose point goes on with point `k`.
fn fits_with(
    alloc: Global,
    game: &Game,
    mixes: Mixes,
    entry: i128,
    k: u32,
) -> Result<bool, AllocError> {
    let nodes = nodes_of(alloc, game, entry)?;
    let points = points_of(alloc, game, mixes, k)?;
    Ok(certificate_of(alloc, nodes, points)?.fits(game))
}

#[test]
fn a_vector_above_the_span_and_a_share_of_no_point_do_not_fit(rt: HostRuntime) {
    let Ok(game) = three_halved(rt.alloc()) else {
        panic!(rt; "the game is refused");
    };
    assert_eq!(rt; game.states(), 1);
    assert_eq!(rt; game.informed_actions(), 1);
    for (entry, k, wanted) in [(393_216, 0, true), (393_217, 0, false), (393_216, 1, false)] {
        let Ok(mixes) = Mixes::of(rt.alloc(), &game, &[65_536]) else {
            panic!(rt; "out of memory");
        };
        let fits = fits_with(rt.alloc(), &game, mixes, entry, k);
        assert!(rt; matches!(fits, Ok(found) if found == wanted));
    }
}

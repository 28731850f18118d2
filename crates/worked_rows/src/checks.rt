//! Tests of the checker: certificates that stand, and the first place of others.

use alpha_set::{Node, NodeSet, Step};
use belief::{Belief, Mixes};
use cert_check::{Reason, Verdict, check};
use controller::{Certificate, Outcome};
use game_model::{Game, GameBuilder, GameFault, Shape};
use point_set::{Point, PointSet, Share};
use scaled_num::Fraction;
use std::alloc::{AllocError, Global};

/// One state and one own action, with these rewards by informed action; the discount is a half.
fn halved(alloc: Global, rewards: &[i128], informed_actions: u32) -> Result<Game, GameFault> {
    let shape = Shape {
        states: 1,
        own_actions: 1,
        informed_actions,
        observations: 1,
        row_total: 1,
        discount: (1, 2),
    };
    let mut builder = GameBuilder::new(alloc, shape, &[1])?;
    for reward in rewards {
        builder.step(*reward)?;
        builder.landing(0, 0, 1)?;
    }
    builder.finish()
}

/// The nodes: one of this entry that goes on with itself.
fn nodes_of(alloc: Global, game: &Game, entry: i128) -> Result<NodeSet, AllocError> {
    let vector = vec![in alloc; entry]?;
    let mix = vec![in alloc; 65_536]?;
    let step = Step {
        a: 0,
        o: 0,
        k: 0,
        weight: 65_536,
    };
    let next = vec![in alloc; step]?;
    let mut nodes = NodeSet::new(alloc, game);
    let Ok(_) = nodes.push(Node { vector, mix, next }) else {
        return Err(AllocError);
    };
    Ok(nodes)
}

/// The points: one corner of this value, which goes on with itself by this weight.
fn points_of(
    alloc: Global,
    game: &Game,
    mixes: Mixes,
    value: i128,
    weight: i128,
) -> Result<PointSet, AllocError> {
    let share = Share {
        a: 0,
        o: 0,
        k: 0,
        weight,
    };
    let point = Point {
        belief: Belief::corner(1, 0),
        value,
        mixes,
        splits: vec![in alloc; share]?,
    };
    let mut points = PointSet::new(alloc, game);
    let Ok(_) = points.push(point) else {
        return Err(AllocError);
    };
    Ok(points)
}

/// So many units of reward.
fn units(num: i128) -> Fraction {
    Fraction { num, den: 65_536 }
}

/// A closed certificate with this lower bound, upper bound and tail.
fn closed(
    alloc: Global,
    nodes: NodeSet,
    points: PointSet,
    bounds: [i128; 3],
) -> Result<Certificate, AllocError> {
    let [lower, upper, tail] = bounds;
    Ok(Certificate {
        lower: units(lower),
        upper: units(upper),
        tail: units(tail),
        gap: Fraction { num: 0, den: 1 },
        outcome: Outcome::Closed,
        nodes,
        points,
        start_nodes: vec![in alloc; (0, 1)]?,
        start_points: vec![in alloc; (0, 1)]?,
        multiple: 1,
    })
}

/// The verdict on three halved with a point of this value that goes on by this weight, None where the certificate
/// does not fit.
fn verdict_of(
    alloc: Global,
    game: &Game,
    mixes: Mixes,
    value: i128,
    weight: i128,
) -> Result<Option<Verdict>, AllocError> {
    let nodes = nodes_of(alloc, game, 393_216)?;
    let points = points_of(alloc, game, mixes, value, weight)?;
    let certificate = closed(alloc, nodes, points, [393_216; 3])?;
    if !certificate.fits(game) {
        return Ok(None);
    }
    Ok(Some(check(game, &certificate)))
}

#[test]
fn three_at_each_stage_stands_and_a_lower_value_or_share_fails(rt: HostRuntime) {
    let Ok(game) = halved(rt.alloc(), &[3], 1) else {
        panic!(rt; "the game is refused");
    };
    assert_eq!(rt; game.states(), 1);
    assert_eq!(rt; game.informed_actions(), 1);
    let low = Verdict::No(Reason::Value { j: 0, a: 0 });
    let small = Verdict::No(Reason::Split {
        j: 0,
        a: 0,
        o: 0,
        s: 0,
    });
    for (value, weight, wanted) in [
        (393_216, 65_536, Verdict::Yes),
        (393_215, 65_536, low),
        (393_216, 65_535, small),
    ] {
        let Ok(mixes) = Mixes::of(rt.alloc(), &game, &[65_536]) else {
            panic!(rt; "out of memory");
        };
        let verdict = verdict_of(rt.alloc(), &game, mixes, value, weight);
        assert!(rt; matches!(verdict, Ok(Some(found)) if found == wanted));
    }
}

#[test]
fn a_node_above_three_at_each_stage_fails_where_four_may_be_paid(rt: HostRuntime) {
    let Ok(game) = halved(rt.alloc(), &[3, 4], 2) else {
        panic!(rt; "the game is refused");
    };
    assert_eq!(rt; game.states(), 1);
    assert_eq!(rt; game.informed_actions(), 2);
    let Ok(mixes) = Mixes::of(rt.alloc(), &game, &[65_536, 0]) else {
        panic!(rt; "out of memory");
    };
    let Ok(nodes) = nodes_of(rt.alloc(), &game, 393_217) else {
        panic!(rt; "out of memory");
    };
    let Ok(points) = points_of(rt.alloc(), &game, mixes, 393_216, 65_536) else {
        panic!(rt; "out of memory");
    };
    let bounds = [393_217, 393_216, 524_288];
    let Ok(certificate) = closed(rt.alloc(), nodes, points, bounds) else {
        panic!(rt; "out of memory");
    };
    assert!(rt; certificate.fits(&game));
    assert!(rt; check(&game, &certificate) == Verdict::No(Reason::Node { i: 0, s: 0, c: 0 }));
}

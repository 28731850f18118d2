ghost use Rattle.game_model.specs.Game.{IsWithin};
ghost use Rattle.std.specs.Prelude.{◌<◌, ◌≡◌, ◌^◌, ◌≤◌, neg_ℤ, pos};

use crate::limits::is_mass;
use alpha_set::{MOST_NODES, Node, NodeSet, Step};
use belief::{Belief, Mixes, reduce};
use controller::{Certificate, Outcome};
use game_model::{Game, GameBuilder, GameFault, MIX_TOTAL, MOST_STATES, Shape, law_game};
use point_set::{MOST_POINTS, Point, PointSet};
use scaled_num::Fraction;
use std::alloc::{AllocError, Global};

/// The number of states.
pub const STATES: u32 = MOST_STATES as u32;

/// The greatest magnitude of a reward.
const MOST_PAID: u32 = 100;

/// A drawn number below 2^31.
fn draw(seed: &mut u64) -> u64
    ensures { result < 2 ^ 31 }
{
    *seed = seed
        .wrapping_mul(6364136223846793005)
        .wrapping_add(1442695040888963407);
    *seed >> 33
}

/// A drawn number of at most this magnitude.
fn draw_within(most: u32, seed: &mut u64) -> i128
    requires { most < 2 ^ 30 }
    ensures { IsWithin (neg_ℤ (pos (2 ^ 31))) (pos (2 ^ 31)) result }
{
    let most = u64::from(most);
    i128::from(draw(seed) % (2 * most + 1)) - i128::from(most)
}

/// The states in a mixed order.
fn mixed(k: u32) -> usize
    requires { k < 16 }
    ensures { result < 16 }
{
    ((7 * k + 5) % STATES) as usize
}

/// A mass of which the first states of the mixed order have some, up to 2^31 each.
fn draw_mass(held: u32, seed: &mut u64) -> [i128; MOST_STATES]
    requires { held ≤ 16 }
{
    let mut mass = [0; MOST_STATES];
    for k in 0..held {
        mass[mixed(k)] = i128::from(draw(seed)) + 1;
    }
    mass
}

/// So many masses, of which the first states of the mixed order have some.
pub fn draw_masses(
    alloc: Global,
    count: u32,
    held: u32,
    seed: &mut u64,
) -> Result<Vec<[i128; MOST_STATES]>, AllocError>
    requires { held ≤ 16 }
{
    let mut masses = Vec::new(alloc);
    for _ in 0..count {
        masses.push(draw_mass(held, seed))?;
    }
    Ok(masses)
}

/// A game of 16 states, two actions of each player and two observations, with drawn rewards and one drawn landing in
/// each row; the discount is nine tenths.
pub fn draw_game(alloc: Global, seed: &mut u64) -> Result<Game, GameFault> {
    let shape = Shape {
        states: STATES,
        own_actions: 2,
        informed_actions: 2,
        observations: 2,
        row_total: 1,
        discount: (9, 10),
    };
    let mut builder = GameBuilder::new(alloc, shape, &[1; MOST_STATES])?;
    for _ in 0..4 * STATES {
        builder.step(draw_within(MOST_PAID, seed))?;
        builder.landing((draw(seed) % 2) as u32, (draw(seed) % 16) as u32, 1)?;
    }
    builder.finish()
}

/// A node of drawn entries of at most this magnitude.
fn draw_node(alloc: Global, span: u32, seed: &mut u64) -> Result<Node, AllocError>
    requires { span < 2 ^ 30 }
{
    let mut vector = Vec::with_capacity(alloc, MOST_STATES)?;
    for _ in 0..MOST_STATES {
        vector.push(draw_within(span, seed))?;
    }
    let mix = vec![in alloc; MIX_TOTAL, 0]?;
    let mut next = Vec::with_capacity(alloc, 2)?;
    for o in 0..2 {
        next.push(Step {
            a: 0,
            o,
            k: 0,
            weight: MIX_TOTAL,
        })?;
    }
    Ok(Node { vector, mix, next })
}

/// A full set of drawn nodes.
fn draw_nodes(alloc: Global, game: &Game, span: u32, seed: &mut u64) -> Result<NodeSet, AllocError>
    requires { span < 2 ^ 30 }
{
    let mut nodes = NodeSet::new(alloc, game);
    for _ in 0..MOST_NODES {
        let Ok(_) = nodes.push(draw_node(alloc, span, seed)?) else {
            return Err(AllocError);
        };
    }
    Ok(nodes)
}

/// A drawn belief: three in four of a drawn number of first states of the mixed order have weight, or one state alone.
fn draw_belief(game: &Game, seed: &mut u64) -> Belief {
    law_game(game);
    let mut weights = [0; MOST_STATES];
    let held = 2 + (draw(seed) % 15) as u32;
    for k in 0..held {
        if draw(seed) % 4 != 0 {
            weights[mixed(k)] = i128::from(draw(seed) % 1024);
        }
    }
    if is_mass(game, &weights) {
        if let Some(belief) = reduce(&weights) {
            return belief;
        }
    }
    Belief::corner(STATES, (draw(seed) % 16) as u32)
}

/// A point without shares, whose value is so many units for each unit of the belief's total.
fn plain_point(alloc: Global, game: &Game, belief: Belief, units: i128) -> Result<Point, AllocError>
    requires states { game.now.shape.states ≡ 16 }
    requires units { IsWithin (neg_ℤ (pos (2 ^ 31))) (pos (2 ^ 31)) units }
{
    law_game(game);
    let _parts = belief.parts();
    let value = units * belief.total();
    Ok(Point {
        belief,
        value,
        mixes: Mixes::pure(alloc, game, &[0; MOST_STATES])?,
        splits: Vec::new(alloc),
    })
}

/// A full set of points: first the corners at the span, then drawn ones.
fn draw_points(
    alloc: Global,
    game: &Game,
    span: u32,
    seed: &mut u64,
) -> Result<PointSet, AllocError>
    requires states { game.now.shape.states ≡ 16 }
    requires span { span < 2 ^ 30 }
{
    let mut points = PointSet::new(alloc, game);
    for j in 0..MOST_POINTS as u32 {
        let point = if j < STATES {
            plain_point(alloc, game, Belief::corner(STATES, j), i128::from(span))?
        } else {
            plain_point(
                alloc,
                game,
                draw_belief(game, seed),
                draw_within(span, seed),
            )?
        };
        let Ok(_) = points.push(point) else {
            return Err(AllocError);
        };
    }
    Ok(points)
}

/// A certificate of a full set of drawn nodes and one of drawn points, which proves nothing.
pub fn draw_certificate(
    alloc: Global,
    game: &Game,
    span: u32,
    seed: &mut u64,
) -> Result<Certificate, AllocError>
    requires states { game.now.shape.states ≡ 16 }
    requires span { span < 2 ^ 30 }
{
    let nothing = Fraction { num: 0, den: 1 };
    Ok(Certificate {
        lower: nothing,
        upper: nothing,
        tail: nothing,
        gap: nothing,
        outcome: Outcome::Full,
        nodes: draw_nodes(alloc, game, span, seed)?,
        points: draw_points(alloc, game, span, seed)?,
        start_nodes: vec![in alloc; (0, 1)]?,
        start_points: vec![in alloc; (0, 1)]?,
        multiple: 1,
    })
}

/// A drawn weight of a wanted point.
fn draw_weight(seed: &mut u64) -> i128
    ensures { IsWithin (pos 0) (pos (2 ^ 30)) result }
{
    i128::from(draw(seed) / 2)
}

/// Eight wanted points beyond the corners, with drawn weights.
pub fn draw_wanted(seed: &mut u64) -> [(u32, i128); 8] {
    [
        (16, draw_weight(seed)),
        (100, draw_weight(seed)),
        (200, draw_weight(seed)),
        (300, draw_weight(seed)),
        (400, draw_weight(seed)),
        (500, draw_weight(seed)),
        (600, draw_weight(seed)),
        (700, draw_weight(seed)),
    ]
}

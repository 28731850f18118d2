//! Beliefs pushed out: corners are taken off a mass, so that one belief on a face serves all masses behind it.

ghost use Rattle.closing.specs.Better.{AreNodes};
ghost use Rattle.game_model.specs.Game.{IsMass};
ghost use Rattle.stage_game.specs.Asked.{PointsServe};
ghost use Rattle.std.specs.Prelude.{length, ◌<◌, ◌≡◌};

use crate::sharing::share;
use crate::sums::ratio;
use alpha_set::NodeSet;
use game_model::{Game, MIX_TOTAL, MOST_STATES, law_game};
use point_set::PointSet;

/// A part that is less is not taken off: a thousandth.
const LEAST_PART: i128 = 64;

/// Nor is one that leaves less than this: a sixty-fourth.
const LEAST_REST: i128 = 1_024;

/// A corner that may be taken off.
#[derive(Clone, Copy)]
struct Corner {
    state: u32,
    /// What of the gap is lost by it, in units.
    loss: i128,
}

/// Writes weights as parts of 65,536.
pub fn write_parts(game: &Game, weights: &[i128], parts: &mut [i128])
    requires weights { length weights.now ≡ game.now.shape.states }
    requires parts { length parts.old ≡ game.now.shape.states }
    ensures { IsMass game.now parts.new }
{
    law_game(game);
    let mut places = [0; MOST_STATES];
    let copied = &mut places[..weights.len()];
    copied.copy_from_slice(weights);
    share(copied, MIX_TOTAL, parts);
}

/// Takes corners off a belief of the total 65,536, each time the greatest whose loss the budget allows: what of the gap
/// is lost where the corner is worth its point's value, and what is left what the nodes are worth. Answers whether one
/// was taken. The budget is in units.
pub fn push_out(
    game: &Game,
    nodes: &NodeSet,
    points: &PointSet,
    budget: i128,
    parts: &mut [i128],
) -> bool
    requires nodes { AreNodes game.now nodes.now.members }
    requires points { PointsServe game.now points.now.members }
    requires parts { IsMass game.now parts.old }
    ensures { IsMass game.now parts.new }
{
    let mut left = budget;
    let mut weight = MIX_TOTAL;
    let mut pushed = false;
    for _ in 0..game.states() {
        let Some(corner) = greatest_corner(game, nodes, points, left, weight, parts) else {
            return pushed;
        };
        left = left.saturating_sub(corner.loss);
        weight = scaled(
            weight,
            MIX_TOTAL.saturating_sub(part_at(parts, corner.state)),
        );
        take_off(game, corner.state, parts);
        pushed = true;
    }
    pushed
}

/// The corner of greatest part whose loss a budget allows, the first of equal ones.
fn greatest_corner(
    game: &Game,
    nodes: &NodeSet,
    points: &PointSet,
    budget: i128,
    weight: i128,
    parts: &[i128],
) -> Option<Corner>
    requires nodes { AreNodes game.now nodes.now.members }
    requires points { PointsServe game.now points.now.members }
    requires parts { IsMass game.now parts.now }
{
    let now = low(game, nodes, parts);
    let mut most = LEAST_PART;
    let mut found = None;
    for state in 0..game.states() {
        let part = part_at(parts, state);
        if part > most && part <= MIX_TOTAL - LEAST_REST {
            let more = mean_without(game, nodes, points, state, parts).saturating_sub(now);
            let loss = scaled(more.max(0), weight);
            if loss <= budget {
                most = part;
                found = Some(Corner { state, loss });
            }
        }
    }
    found
}

/// What a belief is worth where a corner of it is worth its point's value, and the rest what the nodes are worth.
fn mean_without(game: &Game, nodes: &NodeSet, points: &PointSet, state: u32, parts: &[i128]) -> i128
    requires nodes { AreNodes game.now nodes.now.members }
    requires points { PointsServe game.now points.now.members }
    requires parts { IsMass game.now parts.now }
    requires state { state < game.now.shape.states }
{
    law_game(game);
    let mut places = [0; MOST_STATES];
    let rest = &mut places[..parts.len()];
    rest.copy_from_slice(parts);
    take_off(game, state, rest);
    let part = part_at(parts, state);
    let corner = points.point(points.corner(state)).value;
    let other = low(game, nodes, rest);
    scaled(corner, part).saturating_add(scaled(other, MIX_TOTAL.saturating_sub(part)))
}

/// Takes a corner off a belief; what is left is brought to the total 65,536.
fn take_off(game: &Game, state: u32, parts: &mut [i128])
    requires parts { IsMass game.now parts.old }
    ensures { IsMass game.now parts.new }
{
    law_game(game);
    let mut places = [0; MOST_STATES];
    let rest = &mut places[..parts.len()];
    rest.copy_from_slice(parts);
    if let Some(part) = rest.get_mut(state as usize) {
        *part = 0;
    }
    write_parts(game, rest, parts);
}

/// What the nodes are worth at a belief of the total 65,536, in units.
fn low(game: &Game, nodes: &NodeSet, parts: &[i128]) -> i128
    requires nodes { AreNodes game.now nodes.now.members }
    requires parts { IsMass game.now parts.now }
{
    law_game(game);
    let (worth, _) = nodes.worth(parts);
    ratio(worth, MIX_TOTAL)
}

/// The part of a state.
fn part_at(parts: &[i128], state: u32) -> i128 {
    match parts.get(state as usize) {
        Some(part) => *part,
        None => 0,
    }
}

/// A number times a part of 65,536.
fn scaled(number: i128, part: i128) -> i128 {
    ratio(number.saturating_mul(part), MIX_TOTAL)
}

//! The first place at which the split rule of a point fails.

ghost use Rattle.game_model.specs.Branches.{AreRising, branch_of};
ghost use Rattle.game_model.specs.Game.{IsWithin, numbers};
ghost use Rattle.point_set.specs.Faults.{split_place, split_places, split_places_after, split_places_seen};
ghost use Rattle.point_set.specs.Members.{AllHoldAmong, FailsFirstAmong, IsAfter, IsMember, IsNamed, brought, data_of, most_points};
ghost use Rattle.point_set.specs.Points.{PointFits, most_share, points_of};
ghost use Rattle.std.specs.List.{AllByRecursion};
ghost use Rattle.std.specs.Prelude.{IfSome, IsNone, filter, length, map, pos, sum_by, ◌<◌, ◌≡◌, ◌≤◌};

use crate::points::Point;
use belief::mass;
use game_model::{Branch, Game, MOST_STATES, law_game};

/// The first place at which the split rule fails, by own action, observation and next state.
pub fn first_split(game: &Game, points: &[Point], point: &Point) -> Option<(u32, u32, u32)>
    requires { IsMember game.now points.now point.now }
    ensures none { IsNone result → AllHoldAmong game.now points.now point.now (split_places (numbers game.now)) }
    ensures first { IfSome result (λ place. FailsFirstAmong game.now points.now point.now
        (split_places (numbers game.now)) (split_place place)) }
{
    for a in 0..game.own_actions() {
        if let Some((o, s)) = first_after(game, points, point, a) {
            return Some((a, o, s));
        }
    }
    None
}

/// The first observation and next state at which the split rule fails after an own action.
fn first_after(game: &Game, points: &[Point], point: &Point, a: u32) -> Option<(u32, u32)>
    requires member { IsMember game.now points.now point.now }
    requires own { a < game.now.shape.own_actions }
    ensures none { IsNone result → AllHoldAmong game.now points.now point.now
        (split_places_after (numbers game.now) a) }
    ensures first { IfSome result (λ place. FailsFirstAmong game.now points.now point.now
        (split_places_after (numbers game.now) a) (split_place (a, place.0, place.1))) }
{
    for o in 0..game.observations() {
        if let Some(s) = first_state(game, points, point, a, o) {
            return Some((o, s));
        }
    }
    None
}

/// The first next state at which the split rule fails after an own action and an observation.
fn first_state(game: &Game, points: &[Point], point: &Point, a: u32, o: u32) -> Option<u32>
    requires member { IsMember game.now points.now point.now }
    requires own { a < game.now.shape.own_actions }
    requires seen { o < game.now.shape.observations }
    ensures none { IsNone result → AllHoldAmong game.now points.now point.now
        (split_places_seen (numbers game.now) a o) }
    ensures first { IfSome result (λ t. FailsFirstAmong game.now points.now point.now
        (split_places_seen (numbers game.now) a o) (split_place (a, o, t))) }
{
    law_game(game);
    let mut masses = [0; MOST_STATES];
    let masses = &mut masses[..game.states() as usize];
    mass(game, &point.belief, &point.mixes, a, o, masses);
    let shares = shares_after(&point.splits, a, o);
    for s in 0..game.states() {
        if shared(game, points, shares, s) != masses[s as usize] {
            return Some(s);
        }
    }
    None
}

/// The shares after an own action and an observation.
pub fn shares_after(splits: &[Branch], a: u32, o: u32) -> &[Branch]
    requires { AreRising (map branch_of splits.now) }
    ensures { result.now ≡ filter (IsAfter a o) splits.now }
{
    let start = splits.partition_point(|share| share.a < a || (share.a == a && share.o < o));
    let rest = &splits[start..];
    let count = rest.partition_point(|share| share.a == a && share.o == o);
    &rest[..count]
}

/// What shares bring to a next state: the sum of their weights times the weight of the state in their points'
/// beliefs.
fn shared(game: &Game, points: &[Point], shares: &[Branch], s: u32) -> i128
    requires named { AllByRecursion (IsNamed points.now) shares.now }
    requires few { length shares.now ≤ most_points }
    requires weights { AllByRecursion (λ share. IsWithin (pos 1) most_share share.weight) shares.now }
    requires fits { AllByRecursion (PointFits game.now most_points) (data_of points.now) }
    requires state { s < game.now.shape.states }
    ensures { result ≡ pos (sum_by (brought (points_of (data_of points.now)) s) shares.now) }
{
    let mut sum = 0;
    for share in shares {
        sum += share.weight * points[share.k as usize].belief.parts()[s as usize];
    }
    sum
}

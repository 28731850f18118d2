//! What a stage costs a point, and the first own action at which its value rule fails.

ghost use Rattle.belief.specs.Beliefs.{weight_at};
ghost use Rattle.game_model.specs.Branches.{AreRising, branch_of};
ghost use Rattle.game_model.specs.Game.{IsBelief, numbers};
ghost use Rattle.point_set.specs.Faults.{value_place, value_places};
ghost use Rattle.point_set.specs.Members.{AllHoldAmong, FailsFirstAmong, IsAfter, IsMember, IsNamed, SplitsHoldAmong, ValueHoldsAmong, counted, counted_after, counted_size, data_of, row_rewards, worth_among};
ghost use Rattle.point_set.specs.Points.{points_of};
ghost use Rattle.scaled_num.specs.Sums.{below, total};
ghost use Rattle.std.specs.Bool.{IsTrue};
ghost use Rattle.std.specs.List.{AllByRecursion};
ghost use Rattle.std.specs.Prelude.{IfSome, IsNone, filter, map, pos, sum_by, unsigned_abs, ◌*ℤ◌, ◌<◌, ◌^◌, ◌↔◌, ◌≡◌, ◌≤◌};

use crate::points::Point;
use crate::splits::shares_after;
use belief::{Belief, Mixes};
use game_model::{Branch, Game, MIX_TOTAL, UNITS, law_game};

/// The first own action at which the value rule fails.
pub fn first_value(game: &Game, points: &[Point], point: &Point) -> Option<u32>
    requires member { IsMember game.now points.now point.now }
    requires splits { SplitsHoldAmong game.now points.now point.now }
    ensures none { IsNone result → AllHoldAmong game.now points.now point.now (value_places (numbers game.now)) }
    ensures first { IfSome result (λ a. FailsFirstAmong game.now points.now point.now
        (value_places (numbers game.now)) (value_place a)) }
{
    for a in 0..game.own_actions() {
        if !holds(game, points, point, a) {
            return Some(a);
        }
    }
    None
}

/// Whether the value rule holds at an own action.
fn holds(game: &Game, points: &[Point], point: &Point, a: u32) -> bool
    requires member { IsMember game.now points.now point.now }
    requires splits { SplitsHoldAmong game.now points.now point.now }
    requires own { a < game.now.shape.own_actions }
    ensures { IsTrue result ↔ ValueHoldsAmong game.now points.now point.now a }
{
    law_game(game);
    let (_, under) = game.discount();
    let scale = game.row_total() * under;
    let worth = worth_after(game, points, point, a);
    worth <= point.value * (MIX_TOTAL * scale)
}

/// What one stage costs at most after an own action, times the mix total, the row total and the discount's
/// denominator: the left side of the value rule.
pub fn worth_after(game: &Game, points: &[Point], point: &Point, a: u32) -> i128
    requires member { IsMember game.now points.now point.now }
    requires splits { SplitsHoldAmong game.now points.now point.now }
    requires own { a < game.now.shape.own_actions }
    ensures exact { result ≡ worth_among game.now points.now point.now a }
    ensures small { unsigned_abs result ≤ 2 ^ 125 }
{
    law_game(game);
    let (over, under) = game.discount();
    let scale = game.row_total() * under;
    let at_once = UNITS * scale * rewards(game, &point.belief, &point.mixes, a);
    let later = over * counted(game, points, &point.splits, a);
    at_once + later
}

/// The sum over the states and the informed actions of the belief's weight times the mix's weight times the reward.
fn rewards(game: &Game, belief: &Belief, mixes: &Mixes, a: u32) -> i128
    requires fits { IsBelief game.now.shape.states belief.now }
    requires states { mixes.now.states ≡ game.now.shape.states }
    requires actions { mixes.now.actions ≡ game.now.shape.informed_actions }
    requires own { a < game.now.shape.own_actions }
    ensures { result ≡ total (λ s. pos (weight_at belief.now s) *ℤ row_rewards game.now mixes.now a s)
        (below game.now.shape.states) }
{
    law_game(game);
    let mut sum = 0;
    for s in 0..game.states() {
        sum += belief.parts()[s as usize] * mixed_reward(game, mixes, s, a);
    }
    sum
}

/// The sum over the informed actions of the mix's weight in a state times the reward.
fn mixed_reward(game: &Game, mixes: &Mixes, s: u32, a: u32) -> i128
    requires states { mixes.now.states ≡ game.now.shape.states }
    requires actions { mixes.now.actions ≡ game.now.shape.informed_actions }
    requires state { s < game.now.shape.states }
    requires own { a < game.now.shape.own_actions }
    ensures exact { result ≡ row_rewards game.now mixes.now a s }
    ensures small { unsigned_abs result ≤ 2 ^ 49 }
{
    law_game(game);
    let mut sum = 0;
    for c in 0..game.informed_actions() {
        sum += mixes.get(s, c) * game.reward(s, a, c);
    }
    sum
}

/// The sum over the observations and the shares after an own action of the share's weight times its point's value.
fn counted(game: &Game, points: &[Point], splits: &[Branch], a: u32) -> i128
    requires named { AllByRecursion (IsNamed points.now) splits.now }
    requires rising { AreRising (map branch_of splits.now) }
    requires small { sum_by (λ o. counted_size (points_of (data_of points.now)) (filter (IsAfter a o) splits.now))
        (below game.now.shape.observations) ≤ 2 ^ 124 }
    ensures { result ≡ counted_after (points_of (data_of points.now)) splits.now game.now.shape.observations a }
{
    let mut sum = 0;
    for o in 0..game.observations() {
        sum += counted_shares(points, shares_after(splits, a, o));
    }
    sum
}

/// The sum over shares of the share's weight times its point's value.
fn counted_shares(points: &[Point], shares: &[Branch]) -> i128
    requires named { AllByRecursion (IsNamed points.now) shares.now }
    requires small { counted_size (points_of (data_of points.now)) shares.now ≤ 2 ^ 124 }
    ensures { result ≡ total (counted (points_of (data_of points.now))) shares.now }
{
    let mut sum = 0;
    for share in shares {
        sum += share.weight * points[share.k as usize].value;
    }
    sum
}

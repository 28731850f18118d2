//! How often a belief is taken off a mass, within a share.

ghost use Rattle.point_set.specs.Points.{most_share};
ghost use Rattle.game_model.specs.Limits.{most_belief};
ghost use Rattle.game_model.specs.Game.{IsBelief, IsWithin};
ghost use Rattle.point_set.specs.Sawtooth.{FitsTimes};
ghost use Rattle.point_set.specs.Split.{TakesMost, less_times, most_wish};
ghost use Rattle.point_set.specs.Takes.{IsLesser};
ghost use Rattle.scaled_num.specs.Share.{IsShared};
ghost use Rattle.scaled_num.specs.Sums.{sum_of};
ghost use Rattle.std.specs.List.{AllByRecursion};
ghost use Rattle.std.specs.Prelude.{length, map, pos, ◌*ℤ◌, ◌^◌, ◌≡◌, ◌≤ℤ◌, ◌≤◌};

use crate::split::MOST_ITEMS;
use crate::times::most_times;
use belief::Belief;
use scaled_num::{floor_div, take_share};

/// Shares a total by the weights of wanted points.
pub fn share_by(wanted: &[(u32, i128)], total: i128, shares: &mut [i128])
    requires some { 1 ≤ length wanted.now }
    requires few { length wanted.now ≤ 24 }
    requires weights { AllByRecursion (λ want. IsWithin (pos 0) (pos most_wish) want.1) wanted.now }
    requires total { IsWithin (pos 0) most_share total }
    requires places { length shares.old ≡ length wanted.now }
    ensures shared { IsShared (map (λ want. want.1) wanted.now) total shares.new }
    ensures each { AllByRecursion (IsWithin (pos 0) most_share) shares.new }
    ensures places { length shares.new ≡ length wanted.now }
{
    let mut weights = [0; MOST_ITEMS];
    let weights = &mut weights[..wanted.len()];
    copy_weights(wanted, weights);
    take_share(weights, total, shares);
}

/// Writes the weights of wanted points.
fn copy_weights(wanted: &[(u32, i128)], weights: &mut [i128])
    requires { length weights.old ≡ length wanted.now }
    ensures { weights.new ≡ map (λ want. want.1) wanted.now }
{
    for (index, want) in wanted.iter().enumerate() {
        weights[index] = want.1;
    }
}

/// Takes a belief off a mass as often as its share allows and as it fits, and answers how often.
pub fn take(belief: &Belief, share: i128, rest: &mut [i128]) -> i128
    requires belief { IsBelief (length rest.old) belief.now }
    requires share { IsWithin (pos 0) most_share share }
    requires mass { AllByRecursion (λ x. pos 0 ≤ℤ x) rest.old }
    requires small { AllByRecursion (λ x. x ≤ℤ pos (2 ^ 100)) rest.old }
    requires sum { sum_of rest.old ≤ℤ most_share }
    ensures most { TakesMost rest.old belief.now share result }
    ensures rest { rest.new ≡ less_times rest.old belief.now result }
    ensures within { IsWithin (pos 0) most_share result }
{
    let total = belief.total();
    if share < total {
        return 0;
    }
    let times = allowed(most_times(rest, belief.parts()), share, total);
    lessen(rest, belief.parts(), times);
    times
}

/// The lesser of a number of times, and of how often the total of a belief goes into a share.
fn allowed(times: i128, share: i128, total: i128) -> i128
    requires times { IsWithin (pos 0) most_share times }
    requires share { IsWithin (pos 0) most_share share }
    requires low { pos 1 ≤ℤ total }
    requires total { IsWithin (pos 0) (pos most_belief) total }
    ensures { IsLesser times share total result }
{
    if times * total <= share {
        times
    } else {
        floor_div(share, total)
    }
}

/// Takes a belief off a mass so many times.
fn lessen(rest: &mut [i128], belief: &[i128], times: i128)
    requires belief { IsBelief (length rest.old) belief.now }
    requires mass { AllByRecursion (λ x. pos 0 ≤ℤ x) rest.old }
    requires sum { sum_of rest.old ≤ℤ most_share }
    requires times { pos 0 ≤ℤ times }
    requires fits { FitsTimes rest.old belief.now times }
    ensures { rest.new ≡ less_times rest.old belief.now times }
{
    if times == 0 {
        return;
    }
    for (s, part) in belief.iter().enumerate() {
        if *part > 0 {
            rest[s] -= times * *part;
        }
    }
}

//! The belief that a mass is reduced to.

ghost use Rattle.game_model.specs.Limits.{most_states};
ghost use Rattle.belief.specs.Reduced.{IsReduced, IsSharedOut};
ghost use Rattle.scaled_num.specs.Sums.{sum_of};
ghost use Rattle.std.specs.Int.{◌∣◌};
ghost use Rattle.std.specs.List.{AllByRecursion};
ghost use Rattle.std.specs.Prelude.{IfSome, IsNone, length, pos, unsigned_abs, ℕ, ◌<◌, ◌^◌, ◌↔◌, ◌≡◌, ◌≤ℤ◌, ◌≤◌};

use crate::beliefs::Belief;
use crate::divisors::divide;
use game_model::{MOST_BELIEF, MOST_STATES};
use scaled_num::{common_divisor, sum, take_share};

/// The belief of a mass over 1 to 16 states: the mass divided by its greatest common divisor. Where the total is then
/// above 2^20, the mass so divided is replaced by the shares of 2^20 by its weights, and divided by their greatest
/// common divisor. None exactly where the mass is zero everywhere. It takes no memory.
pub fn reduce(mass: &[i128]) -> Option<Belief>
    requires some { 1 ≤ length mass.now }
    requires few { length mass.now ≤ most_states }
    requires weights { AllByRecursion (λ x. pos 0 ≤ℤ x) mass.now }
    requires total { sum_of mass.now ≤ℤ pos (2 ^ 100) }
    ensures none { IsNone result ↔ AllByRecursion (λ x. x ≡ pos 0) mass.now }
    ensures reduced { IfSome result (IsReduced mass.now) }
{
    let divisor = common_divisor(mass);
    if divisor == 0 {
        return None;
    }
    Some(divided(mass, divisor))
}

/// The belief of a mass with this greatest common divisor.
fn divided(mass: &[i128], divisor: u128) -> Belief
    requires some { 1 ≤ length mass.now }
    requires few { length mass.now ≤ most_states }
    requires weights { AllByRecursion (λ x. pos 0 ≤ℤ x) mass.now }
    requires total { sum_of mass.now ≤ℤ pos (2 ^ 100) }
    requires positive { 0 < divisor }
    requires divides { AllByRecursion (λ x. divisor ∣ unsigned_abs x) mass.now }
    requires greatest { (d : ℕ) → AllByRecursion (λ x. d ∣ unsigned_abs x) mass.now → d ∣ divisor }
    ensures { IsReduced mass.now result }
{
    let mut weights = [0; MOST_STATES];
    let lowest = &mut weights[..mass.len()];
    lowest.copy_from_slice(mass);
    divide(lowest, divisor);
    if sum(lowest) <= MOST_BELIEF {
        return Belief::of_parts(lowest);
    }
    shared_out(lowest)
}

/// The belief whose parts are the greatest total of a belief, shared by these weights, in lowest terms.
fn shared_out(weights: &[i128]) -> Belief
    requires some { 1 ≤ length weights.now }
    requires few { length weights.now ≤ most_states }
    requires weights { AllByRecursion (λ x. pos 0 ≤ℤ x) weights.now }
    requires total { sum_of weights.now ≤ℤ pos (2 ^ 100) }
    ensures { IsSharedOut weights.now result }
{
    let mut places = [0; MOST_STATES];
    let shares = &mut places[..weights.len()];
    take_share(weights, MOST_BELIEF, shares);
    let divisor = common_divisor(shares);
    divide(shares, divisor);
    Belief::of_parts(shares)
}

//! How often a belief fits into a mass.

ghost use Rattle.game_model.specs.Limits.{most_belief};
ghost use Rattle.game_model.specs.Game.{IsBelief, IsWithin};
ghost use Rattle.point_set.specs.Sawtooth.{FitsTimes, IsMostTimes};
ghost use Rattle.scaled_num.specs.Share.{IsFloor, at};
ghost use Rattle.std.specs.Bool.{IsTrue};
ghost use Rattle.std.specs.List.{AllByRecursion};
ghost use Rattle.std.specs.Prelude.{length, pos, ℕ, ℤ, ◌*ℤ◌, ◌<◌, ◌^◌, ◌↔◌, ◌≡◌, ◌≤ℤ◌};

/// The greatest number of a machine word.
const WORD: i128 = 0xFFFF_FFFF_FFFF_FFFF;

/// The greatest whole number of times that a belief fits into a mass, in every place.
pub fn most_times(mass: &[i128], belief: &[i128]) -> i128
    requires belief { IsBelief (length mass.now) belief.now }
    requires mass { AllByRecursion (λ x. pos 0 ≤ℤ x) mass.now }
    requires small { AllByRecursion (λ x. x ≤ℤ pos (2 ^ 100)) mass.now }
    ensures { IsMostTimes mass.now belief.now result }
{
    let first = first_weight(belief);
    let mut times = quotient(mass[first], belief[first]);
    for s in first + 1..mass.len() {
        if times == 0 {
            return 0;
        }
        times = lowered(times, mass[s], belief[s]);
    }
    times
}

/// Whether a belief fits so many times into a mass, in every place.
pub fn fits_times(mass: &[i128], belief: &[i128], times: i128) -> bool
    requires belief { IsBelief (length mass.now) belief.now }
    requires times { IsWithin (pos 0) (pos (2 ^ 101)) times }
    ensures { IsTrue result ↔ FitsTimes mass.now belief.now times }
{
    for (s, weight) in belief.iter().enumerate() {
        if times * *weight > mass[s] {
            return false;
        }
    }
    true
}

/// The first place at which a belief has weight.
pub fn first_weight(belief: &[i128]) -> usize
    requires { IsBelief (length belief.now) belief.now }
    ensures inside { result < length belief.now }
    ensures weight { pos 1 ≤ℤ at belief.now result }
    ensures before { (s : ℕ) → s < result → at belief.now s ≡ pos 0 }
{
    for (s, weight) in belief.iter().enumerate() {
        if *weight != 0 {
            return s;
        }
    }
    0
}

/// The greatest number up to `times` whose product with a weight is at most a part of a mass.
fn lowered(times: i128, part: i128, weight: i128) -> i128
    requires times { IsWithin (pos 0) (pos (2 ^ 100)) times }
    requires part { pos 0 ≤ℤ part }
    requires weight { IsWithin (pos 0) (pos most_belief) weight }
    ensures low { pos 0 ≤ℤ result }
    ensures high { result ≤ℤ times }
    ensures fits { (result *ℤ weight) ≤ℤ part }
    ensures most { (more : ℤ) → more ≤ℤ times → (more *ℤ weight) ≤ℤ part → more ≤ℤ result }
{
    if weight == 0 || times * weight <= part {
        times
    } else {
        quotient(part, weight)
    }
}

/// The quotient of a part and a weight, rounded down.
pub fn quotient(part: i128, weight: i128) -> i128
    requires part { pos 0 ≤ℤ part }
    requires weight { pos 1 ≤ℤ weight }
    ensures { IsFloor result part weight }
{
    if part <= WORD && weight <= WORD {
        i128::from(part as u64 / weight as u64)
    } else {
        part / weight
    }
}

ghost use Rattle.std.specs.Prelude.{◌≡◌, ◌^◌, ◌<◌, ◌≤◌, pos, ◌*ℤ◌, ◌≤ℤ◌, ◌<ℤ◌, length};
ghost use Rattle.std.specs.List.{All};
ghost use Rattle.scaled_num.specs.Sums.{sum_of};
ghost use Rattle.scaled_num.specs.Share.{IsShared, AreFloors, IsFirstGreatest};

use crate::floor_div;
use crate::lists::sum;

/// Shares the total by the weights. Place `i` gets `floor(weights[i] * total / sum)`, and what is then missing from the
/// total is added at the first place of greatest weight. Where all weights are 0, place 0 gets the total and the
/// others 0.
pub fn take_share(weights: &[i128], total: i128, out: &mut [i128])
    requires lengths { length out.old ≡ length weights.now }
    requires some { 0 < length weights.now }
    requires weights { All (λ weight. pos 0 ≤ℤ weight) weights.now }
    requires total { pos 0 ≤ℤ total }
    requires sum { sum_of weights.now ≤ℤ pos (2 ^ 100) }
    requires product { (sum_of weights.now *ℤ total) ≤ℤ pos (2 ^ 126) }
    ensures shared { IsShared weights.now total out.new }
    ensures whole { sum_of out.new ≡ total }
    ensures positive { All (λ share. pos 0 ≤ℤ share) out.new }
{
    let whole = sum(weights);
    if whole == 0 {
        out.fill(0);
        out[0] = total;
        return;
    }
    take_floors(weights, whole, total, out);
    let missing = total - sum(out);
    out[first_greatest(weights)] += missing;
}

/// The first place of greatest weight.
fn first_greatest(weights: &[i128]) -> usize
    requires { 0 < length weights.now }
    ensures { IsFirstGreatest weights.now result }
{
    let mut best = 0;
    for (place, weight) in weights.iter().enumerate() {
        if *weight > weights[best] {
            best = place;
        }
    }
    best
}

/// Each place gets the floor of its weight times the total, over the sum of the weights.
fn take_floors(weights: &[i128], sum: i128, total: i128, out: &mut [i128])
    requires lengths { length out.old ≡ length weights.now }
    requires weights { All (λ weight. pos 0 ≤ℤ weight) weights.now }
    requires total { pos 0 ≤ℤ total }
    requires sum { sum ≡ sum_of weights.now }
    requires positive { pos 0 <ℤ sum }
    requires product { (sum *ℤ total) ≤ℤ pos (2 ^ 126) }
    ensures { AreFloors weights.now total out.new }
{
    for (place, weight) in weights.iter().enumerate() {
        out[place] = floor_div(*weight * total, sum);
    }
}

//! Draws over lists of weights.

ghost use Rattle.hsvi_draw.specs.Draws.{after_draws};
ghost use Rattle.simulate.specs.Choices.{place_drawn, place_past};
ghost use Rattle.std.specs.List.{sum};
ghost use Rattle.std.specs.Prelude.{length, slice_index_or, ◌^◌, ◌<◌, ◌≡◌, ◌≤◌};

use hsvi_draw::Draw;

/// The place that is drawn over weights: the first at which their running sum passes a number drawn below their sum.
pub fn draw_place(draw: &mut Draw, weights: &[u128]) -> usize
    requires some { 1 ≤ sum weights.now }
    requires most { sum weights.now < 2 ^ 128 }
    ensures place { result ≡ place_drawn draw.old weights.now }
    ensures moved { draw.new ≡ after_draws 1 draw.old }
    ensures within { result < length weights.now }
    ensures weight { 1 ≤ slice_index_or weights.now result 0 }
{
    let number = draw.below(sum_of(weights));
    place_past(weights, number)
}

/// The sum of weights.
pub fn sum_of(weights: &[u128]) -> u128
    requires { sum weights.now < 2 ^ 128 }
    ensures { result ≡ sum weights.now }
{
    let mut sum = 0;
    for weight in weights {
        sum += *weight;
    }
    sum
}

/// The first place at which the running sum of weights passes a number.
fn place_past(weights: &[u128], number: u128) -> usize
    requires { number < sum weights.now }
    ensures place { result ≡ place_past number weights.now }
    ensures within { result < length weights.now }
    ensures weight { 1 ≤ slice_index_or weights.now result 0 }
{
    let mut left = number;
    for place in 0..weights.len() {
        if left < weights[place] {
            return place;
        }
        left -= weights[place];
    }
    weights.len()
}

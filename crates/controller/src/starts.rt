//! Whether the starts of a certificate over nodes and points are right.

ghost use Rattle.controller.specs.Starts.{AreStarts, IsStart, StartsFit, most_from, weights_sum};
ghost use Rattle.game_model.specs.Game.{AreCoprime, IsWithin};
ghost use Rattle.point_set.specs.Split.{AreRisingPairs};
ghost use Rattle.std.specs.Bool.{IsTrue};
ghost use Rattle.std.specs.List.{AllByRecursion};
ghost use Rattle.std.specs.Prelude.{length, map, pos, ◌↔◌, ◌≡◌, ◌≤ℤ◌};

use scaled_num::gcd;

/// The greatest sum of the weights of start nodes, and the greatest multiple of the first belief.
pub const MOST_FROM: i128 = 65_536;

/// The greatest weight of a start point.
pub const MOST_OVER: i128 = 1 << 36;

/// Whether starts and a multiple fit sets of so many nodes and points.
pub fn starts_fit(
    nodes: u32,
    points: u32,
    start_nodes: &[(u32, i128)],
    start_points: &[(u32, i128)],
    multiple: i128,
) -> bool
    ensures { IsTrue result ↔ StartsFit nodes points start_nodes.now start_points.now multiple }
{
    are_starts(start_nodes, nodes, MOST_FROM)
        && sum_of_weights(start_nodes) <= MOST_FROM
        && are_starts(start_points, points, MOST_OVER)
        && 1 <= multiple
        && multiple <= MOST_FROM
        && (multiple == 1 || start_nodes.len() != 1 || start_points.len() != 1)
}

/// Whether these are starts among so many members, of weights of 1 to the most.
fn are_starts(starts: &[(u32, i128)], count: u32, most: i128) -> bool
    ensures { IsTrue result ↔ AreStarts count most starts.now }
{
    !starts.is_empty()
        && are_rising(starts)
        && are_in_range(starts, count, most)
        && are_coprime(starts)
}

/// Whether the numbers rise strictly.
fn are_rising(starts: &[(u32, i128)]) -> bool
    ensures { IsTrue result ↔ AreRisingPairs starts.now }
{
    for i in 1..starts.len() {
        if starts[i - 1].0 >= starts[i].0 {
            return false;
        }
    }
    true
}

/// Whether each start names one of so many members, by a weight of 1 to the most.
fn are_in_range(starts: &[(u32, i128)], count: u32, most: i128) -> bool
    ensures { IsTrue result ↔ AllByRecursion (IsStart count most) starts.now }
{
    for start in starts {
        if !is_start(start, count, most) {
            return false;
        }
    }
    true
}

/// Whether a start names one of so many members, by a weight of 1 to the most.
fn is_start(start: &(u32, i128), count: u32, most: i128) -> bool
    ensures { IsTrue result ↔ IsStart count most start.now }
{
    start.0 < count && 1 <= start.1 && start.1 <= most
}

/// Whether nothing but 1 divides all weights.
fn are_coprime(starts: &[(u32, i128)]) -> bool
    ensures { IsTrue result ↔ AreCoprime (map (λ start. start.1) starts.now) }
{
    let mut divisor = 0;
    for start in starts {
        divisor = gcd(divisor, start.1.unsigned_abs());
    }
    divisor == 1
}

/// The sum of the weights of start nodes, each of them 1 to 65,536.
pub fn sum_of_weights(starts: &[(u32, i128)]) -> i128
    requires { AllByRecursion (λ start. IsWithin (pos 1) (pos most_from) start.1) starts.now }
    ensures { result ≡ weights_sum starts.now }
{
    let mut sum = 0;
    for start in starts {
        sum += start.1;
    }
    sum
}

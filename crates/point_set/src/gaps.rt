//! The gaps that a set keeps by point: its value less what its belief costs at the corners.

ghost use Rattle.game_model.specs.Limits.{most_states};
ghost use Rattle.point_set.specs.Bounds.{cost_at, cost_size};
ghost use Rattle.point_set.specs.Corners.{point_at};
ghost use Rattle.point_set.specs.Kept.{AreGaps, AreGapsOf, AreKept, AreValuesOf, IsGap};
ghost use Rattle.point_set.specs.Members.{data_of, point_data};
ghost use Rattle.scaled_num.specs.Share.{at};
ghost use Rattle.std.specs.Prelude.{length, ℕ, ◌+◌, ◌<◌, ◌^◌, ◌≡◌, ◌≤◌};

use crate::points::Point;
use game_model::MOST_STATES;

/// Renews the gaps where the last point is new, and the corners before it were these: the gap of the last point
/// alone where the corners stay, and else all.
pub fn renew_gaps(
    points: &[Point],
    before: &[u32; MOST_STATES],
    corners: &[u32; MOST_STATES],
    gaps: &mut [i128],
)
    requires some { 1 ≤ length points.now }
    requires kept { AreKept (data_of points.now) corners.now }
    requires count { length gaps.old ≡ length points.now }
    requires old { (n : ℕ) → n + 1 ≡ length points.now → AreGapsOf n (data_of points.now) before.now gaps.old }
    ensures { AreGaps (data_of points.now) corners.now gaps.new }
{
    let values = corner_values(points, corners);
    let first = if before == corners {
        points.len() - 1
    } else {
        0
    };
    write_gaps(points, &values, first, gaps);
}

/// The values of the points of these numbers, in order; the mark for none counts 0.
pub fn corner_values(points: &[Point], corners: &[u32]) -> [i128; MOST_STATES]
    requires few { length corners.now ≤ most_states }
    ensures { AreValuesOf (data_of points.now) corners.now result }
{
    let mut values = [0; MOST_STATES];
    for (s, corner) in corners.iter().enumerate() {
        values[s] = value_of(points, *corner);
    }
    values
}

/// The value of the point of a number, and 0 where there is none.
fn value_of(points: &[Point], number: u32) -> i128
    ensures { result ≡ (point_at (data_of points.now) number).value }
{
    match points.get(number as usize) {
        Some(point) => point.value,
        None => 0,
    }
}

/// Writes the gaps of the points from a number on.
pub fn write_gaps(points: &[Point], values: &[i128; MOST_STATES], first: usize, gaps: &mut [i128])
    requires states { length values.now ≡ most_states }
    requires count { length gaps.old ≡ length points.now }
    ensures count { length gaps.new ≡ length gaps.old }
    ensures before { (i : ℕ) → i < first → at gaps.new i ≡ at gaps.old i }
    ensures each { (i : ℕ) → first ≤ i → i < length points.now →
        IsGap values.now (point_at (data_of points.now) i) (at gaps.new i) }
{
    for i in first..points.len() {
        gaps[i] = gap_of(&points[i], values);
    }
}

/// The gap of a point at the values of the corners.
pub fn gap_of(point: &Point, values: &[i128; MOST_STATES]) -> i128
    requires states { length values.now ≡ most_states }
    ensures { IsGap values.now (point_data point.now) result }
{
    point
        .value
        .wrapping_sub(wrapping_cost(point.belief.parts(), values))
}

/// The sum of weights times values, where no number is too great.
fn wrapping_cost(weights: &[i128], values: &[i128]) -> i128
    requires long { length weights.now ≤ length values.now }
    ensures { cost_size weights.now values.now ≤ 2 ^ 124 → result ≡ cost_at weights.now values.now }
{
    let mut sum: i128 = 0;
    for (s, weight) in weights.iter().enumerate() {
        sum = sum.wrapping_add(weight.wrapping_mul(values[s]));
    }
    sum
}

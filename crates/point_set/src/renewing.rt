//! Renewing what a set keeps beside its points, after one was changed.

ghost use Rattle.game_model.specs.Limits.{most_states};
ghost use Rattle.point_set.specs.Changes.{WasKept};
ghost use Rattle.point_set.specs.Kept.{AreGaps, AreKept, IsKept};
ghost use Rattle.point_set.specs.Members.{data_of, most_points};
ghost use Rattle.std.specs.Prelude.{length, ◌<◌, ◌≡◌, ◌≤◌};

use crate::corners::{NO_CORNER, corners_with, sure_state};
use crate::gaps::{corner_values, gap_of, write_gaps};
use crate::points::Point;
use game_model::MOST_STATES;

/// Finds the current corners anew, and renews all gaps.
pub fn renew_all(points: &[Point], gaps: &mut [i128]) -> [u32; MOST_STATES]
    requires few { length points.now ≤ most_points }
    requires count { length gaps.old ≡ length points.now }
    ensures { IsKept (data_of points.now) result gaps.new }
{
    let corners = corners_of(points);
    let values = corner_values(points, &corners);
    write_gaps(points, &values, 0, gaps);
    corners
}

/// Renews the corners and the gaps after the value of a point was changed: all of them where its belief is sure of a
/// state, and else its own gap alone.
pub fn renew_lower(
    points: &[Point],
    number: usize,
    corners: &[u32; MOST_STATES],
    gaps: &mut [i128],
) -> [u32; MOST_STATES]
    requires member { number < length points.now }
    requires was { WasKept (data_of points.now) number corners.now gaps.old }
    ensures { IsKept (data_of points.now) result gaps.new }
{
    if sure_state(&points[number].belief).is_some() {
        return renew_all(points, gaps);
    }
    let values = corner_values(points, corners);
    gaps[number] = gap_of(&points[number], &values);
    *corners
}

/// The current corners, by state.
fn corners_of(points: &[Point]) -> [u32; MOST_STATES]
    requires { length points.now ≤ most_points }
    ensures { AreKept (data_of points.now) result }
{
    let mut corners = [NO_CORNER; MOST_STATES];
    for i in 0..points.len() {
        let more = corners_with(corners, &points[..i], &points[i]);
        corners = more;
    }
    corners
}

//! The current corners that a set keeps by state.

ghost use Rattle.game_model.specs.Limits.{most_states};
ghost use Rattle.point_set.specs.Kept.{AreKept, IsAbove, IsNumber, IsSure};
ghost use Rattle.point_set.specs.Members.{data_of, most_points, point_data};
ghost use Rattle.std.specs.Bool.{IsTrue};
ghost use Rattle.std.specs.Prelude.{IfSome, IsNone, [], length, ℕ, ◌++◌, ◌<◌, ◌↔◌, ◌∷◌, ◌≤◌};

use crate::points::Point;
use crate::sets::MOST_POINTS;
use crate::times::first_weight;
use belief::Belief;
use game_model::MOST_STATES;

/// The mark of a state at whose corner no point is.
pub const NO_CORNER: u32 = MOST_POINTS as u32;

/// The current corners, by state, after one more point.
pub fn corners_with(
    mut corners: [u32; MOST_STATES],
    points: &[Point],
    point: &Point,
) -> [u32; MOST_STATES]
    requires kept { AreKept (data_of points.now) corners }
    requires room { length points.now < most_points }
    ensures { AreKept (data_of points.now ++ point_data point.now ∷ []) result }
{
    if let Some(s) = sure_state(&point.belief) {
        if is_above(points, corners[s], point.value) {
            corners[s] = points.len() as u32;
        }
    }
    corners
}

/// The state of which a belief is sure.
pub fn sure_state(belief: &Belief) -> Option<usize>
    ensures few { length belief.now ≤ most_states }
    ensures sure { IfSome result (IsSure belief.now) }
    ensures unsure { IsNone result → (s : ℕ) → IsSure belief.now s → ⊥ }
{
    let first = first_weight(belief.parts());
    if belief.total() == 1 {
        Some(first)
    } else {
        None
    }
}

/// Whether a kept number is the mark for none, or its point has a value above this one.
fn is_above(points: &[Point], corner: u32, value: i128) -> bool
    requires { IsNumber (data_of points.now) corner }
    ensures { IsTrue result ↔ IsAbove (data_of points.now) corner value }
{
    corner == NO_CORNER || value < points[corner as usize].value
}

//! The point that is known for a belief.

ghost use Rattle.std.specs.Prelude.{length, ◌≤◌};

use belief::Belief;
use point_set::PointSet;

/// The first point of least value at a belief, and the number of points where there is none.
pub fn least_at(points: &PointSet, belief: &Belief) -> u32
    ensures { result ≤ length points.now.members }
{
    let count = points.len();
    let mut best = count;
    for k in 0..count {
        if points.point(k).belief.same(belief) && value_of(points, k) < value_of(points, best) {
            best = k;
        }
    }
    best
}

/// The value of a point, and the greatest number where there is no such point.
fn value_of(points: &PointSet, k: u32) -> i128 {
    if k < points.len() {
        points.point(k).value
    } else {
        i128::MAX
    }
}

//! The point of least value at a belief.

ghost use Rattle.hsvi_trial.specs.Least.{IsBelow, IsLeastOrNone};
ghost use Rattle.std.specs.Bool.{IsTrue};
ghost use Rattle.std.specs.Prelude.{IfSome, length, ◌<◌, ◌↔◌};

use belief::Belief;
use point_set::PointSet;

/// The first point of least value among those at a belief; None where no point is there. It takes no memory.
pub fn least_at(points: &PointSet, belief: &Belief) -> Option<u32>
    ensures { IsLeastOrNone points.now.members belief.now (length points.now.members) result }
{
    let mut least: Option<u32> = None;
    for j in 0..points.len() {
        if points.point(j).belief.same(belief) && is_below(points, j, least) {
            least = Some(j);
        }
    }
    least
}

/// Whether a point's value is below that of another, or there is no other.
fn is_below(points: &PointSet, j: u32, other: Option<u32>) -> bool
    requires point { j < length points.now.members }
    requires other { IfSome other (λ k. k < length points.now.members) }
    ensures { IsTrue result ↔ IsBelow points.now.members j other }
{
    match other {
        Some(k) => points.point(j).value < points.point(k).value,
        None => true,
    }
}

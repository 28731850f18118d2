//! Lowering the value of a point to what one stage of it costs.

ghost use Rattle.game_model.specs.Game.{numbers};
ghost use Rattle.point_set.specs.Changes.{IsGreatestOf, IsLoweredValue, IsSettled, divisor_of};
ghost use Rattle.point_set.specs.Corners.{point_at};
ghost use Rattle.point_set.specs.Faults.{SplitsHold};
ghost use Rattle.point_set.specs.Kept.{IsKept};
ghost use Rattle.point_set.specs.Members.{IsMember, SplitsHoldAmong, data_of, most_points, point_data, worth_among};
ghost use Rattle.point_set.specs.Points.{PointFits, points_of};
ghost use Rattle.std.specs.Bool.{IsTrue};
ghost use Rattle.std.specs.List.{AllByRecursion};
ghost use Rattle.std.specs.Prelude.{length, ◌<ℤ◌, ◌<◌, ◌↔◌, ◌≡◌, ◌≤◌};

use crate::points::Point;
use crate::renewing::renew_lower;
use crate::values::worth_after;
use game_model::{Game, MIX_TOTAL, MOST_STATES, law_game};
use scaled_num::ceil_div;

/// Lowers the value of the point of a number to what one stage of it costs, renews what is kept beside the points, and
/// answers whether the value fell.
pub fn settle_point(
    game: &Game,
    points: &mut [Point],
    number: usize,
    corners: &mut [u32; MOST_STATES],
    gaps: &mut [i128],
) -> bool
    requires member { number < length points.old }
    requires fits { AllByRecursion (PointFits game.now (length points.old)) (data_of points.old) }
    requires splits { SplitsHold (numbers game.now) (points_of (data_of points.old))
        (points_of (data_of points.old) number) }
    requires kept { IsKept (data_of points.old) corners.old gaps.old }
    ensures settled { IsSettled game.now (data_of points.old) number (data_of points.new) }
    ensures told { IsTrue result ↔ ((point_at (data_of points.new) number).value
        <ℤ (point_at (data_of points.old) number).value) }
    ensures kept { IsKept (data_of points.new) corners.new gaps.new }
{
    let value = value_at(game, points, number);
    if points[number].value <= value {
        return false;
    }
    points[number].value = value;
    *corners = renew_lower(points, number, corners, gaps);
    true
}

/// The lesser of the value of the point of a number, and of what one stage of it costs.
fn value_at(game: &Game, points: &[Point], number: usize) -> i128
    requires member { number < length points.now }
    requires few { length points.now ≤ most_points }
    requires fits { AllByRecursion (PointFits game.now (length points.now)) (data_of points.now) }
    requires splits { SplitsHold (numbers game.now) (points_of (data_of points.now))
        (points_of (data_of points.now) number) }
    ensures { IsLoweredValue game.now (data_of points.now) (point_at (data_of points.now) number) result }
{
    lowered(game, points, &points[number])
}

/// The lesser of the value of a point, and of what one stage of it costs among others, divided and rounded up.
fn lowered(game: &Game, points: &[Point], point: &Point) -> i128
    requires member { IsMember game.now points.now point.now }
    requires splits { SplitsHoldAmong game.now points.now point.now }
    ensures { IsLoweredValue game.now (data_of points.now) (point_data point.now) result }
{
    law_game(game);
    let worth = greatest_worth(game, points, point);
    point.value.min(ceil_div(worth, divisor(game)))
}

/// The greatest, over the own actions, of what one stage costs a point at most.
fn greatest_worth(game: &Game, points: &[Point], point: &Point) -> i128
    requires member { IsMember game.now points.now point.now }
    requires splits { SplitsHoldAmong game.now points.now point.now }
    ensures { IsGreatestOf (worth_among game.now points.now point.now) game.now.shape.own_actions result }
{
    law_game(game);
    let mut most = worth_after(game, points, point, 0);
    for a in 1..game.own_actions() {
        most = most.max(worth_after(game, points, point, a));
    }
    most
}

/// The mix total times the row total times the discount's denominator.
fn divisor(game: &Game) -> i128
    ensures { result ≡ divisor_of game.now }
{
    law_game(game);
    let (_, under) = game.discount();
    MIX_TOTAL * (game.row_total() * under)
}

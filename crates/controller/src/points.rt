//! Whether the points of a certificate fit a game and name points of the set.

ghost use Rattle.game_model.specs.Game.{IsWithin, span};
ghost use Rattle.point_set.specs.Members.{point_data};
ghost use Rattle.point_set.specs.Points.{PointFits, most_share};
ghost use Rattle.scaled_num.specs.Sums.{sum_of};
ghost use Rattle.std.specs.Bool.{IsTrue};
ghost use Rattle.std.specs.List.{AllByRecursion};
ghost use Rattle.std.specs.Prelude.{length, neg_ℤ, pos, unsigned_abs, ◌*ℤ◌, ◌^◌, ◌↔◌, ◌≡◌, ◌≤◌};

use crate::branches::are_branches;
use belief::Belief;
use game_model::{Game, law_game};
use point_set::{MOST_SHARE, Point, PointSet};

/// Whether each point fits a game and names points of the set.
pub fn points_fit(game: &Game, points: &PointSet) -> bool
    ensures { IsTrue result ↔ AllByRecursion (PointFits game.now (length points.now.members)) points.now.members }
{
    for j in 0..points.len() {
        if !point_fits(game, points.len(), points.point(j)) {
            return false;
        }
    }
    true
}

/// Whether a point fits a game and so many points.
fn point_fits(game: &Game, count: u32, point: &Point) -> bool
    ensures { IsTrue result ↔ PointFits game.now count (point_data point.now) }
{
    point.belief.parts().len() == game.states() as usize
        && is_value(game, point)
        && point.mixes.states() == game.states()
        && point.mixes.actions() == game.informed_actions()
        && are_branches(game, count, MOST_SHARE, &point.splits)
}

/// Whether the value is at most the span times the belief's total in magnitude.
fn is_value(game: &Game, point: &Point) -> bool
    ensures { IsTrue result ↔
        IsWithin (neg_ℤ (pos (span game.now) *ℤ sum_of point.now.belief))
        (pos (span game.now) *ℤ sum_of point.now.belief) point.now.value }
{
    let most = most_value(game, &point.belief);
    -most <= point.value && point.value <= most
}

/// The span times the total of a belief.
fn most_value(game: &Game, belief: &Belief) -> i128
    ensures exact { result ≡ pos (span game.now) *ℤ sum_of belief.now }
    ensures small { unsigned_abs result ≤ 2 ^ 86 }
{
    law_game(game);
    let _parts = belief.parts();
    game.span() * belief.total()
}

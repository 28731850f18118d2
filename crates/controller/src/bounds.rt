//! The bounds that starts prove, and the tail.

ghost use Rattle.controller.specs.Certificates.{IsFraction, first_total, node_product};
ghost use Rattle.controller.specs.Data.{fraction_data};
ghost use Rattle.controller.specs.Starts.{AreStarts, MakesUpMultiple, most_from, most_over, weighted, weights_sum};
ghost use Rattle.controller.specs.Sums.{AreNodes, ArePoints};
ghost use Rattle.game_model.specs.Game.{IsWithin, span, unit};
ghost use Rattle.point_set.specs.Corners.{point_at};
ghost use Rattle.point_set.specs.Points.{points_of};
ghost use Rattle.scaled_num.specs.Share.{at};
ghost use Rattle.std.specs.Prelude.{length, pos, ◌*ℤ◌, ◌*◌, ◌<◌, ◌^◌, ◌≡◌, ◌≤ℤ◌};

use crate::starts::sum_of_weights;
use crate::sums::{weighted_belief, weighted_product, weighted_value};
use alpha_set::NodeSet;
use game_model::{Game, UNITS, law_game};
use point_set::PointSet;
use scaled_num::Fraction;

/// What start points bring to a state: the sum of weight times belief. They rise, name points and have weights of 1 to
/// 2^36. It takes no memory.
pub fn start_mass(game: &Game, points: &PointSet, starts: &[(u32, i128)], s: u32) -> i128
    requires points { ArePoints game.now points.now.members }
    requires starts { AreStarts (length points.now.members) (pos most_over) starts.now }
    requires state { s < game.now.shape.states }
    ensures { result ≡ weighted starts.now (λ j. at (point_at points.now.members j).belief s) }
{
    weighted_belief(game, points, starts, s)
}

/// The total of the first belief, times the units of a reward.
pub fn bound_scale(game: &Game) -> i128
    ensures exact { result ≡ pos (first_total game.now * unit) }
    ensures low { pos 1 ≤ℤ result }
    ensures small { result ≤ℤ pos (2 ^ 36) }
{
    law_game(game);
    game.first_total() * UNITS
}

/// The lower bound of start nodes: the sum of weight times product with the first belief, over the sum of the weights,
/// the total of the first belief and the units of a reward. It takes no memory.
pub fn lower_bound(game: &Game, nodes: &NodeSet, starts: &[(u32, i128)]) -> Fraction
    requires nodes { AreNodes game.now nodes.now.members }
    requires starts { AreStarts (length nodes.now.members) (pos most_from) starts.now }
    requires light { weights_sum starts.now ≤ℤ pos most_from }
    ensures { IsFraction (fraction_data result) (weighted starts.now (node_product game.now nodes.now.members))
        (weights_sum starts.now *ℤ pos (first_total game.now * unit)) }
{
    let num = weighted_product(game, nodes, starts);
    let den = sum_of_weights(starts) * bound_scale(game);
    Fraction { num, den }
}

/// The upper bound of start points that make up a multiple of the first belief: the sum of weight times value, over the
/// multiple, the total of the first belief and the units of a reward. It takes no memory.
pub fn upper_bound(
    game: &Game,
    points: &PointSet,
    starts: &[(u32, i128)],
    multiple: i128,
) -> Fraction
    requires points { ArePoints game.now points.now.members }
    requires starts { AreStarts (length points.now.members) (pos most_over) starts.now }
    requires multiple { IsWithin (pos 1) (pos most_from) multiple }
    requires made_up { MakesUpMultiple points.now.members starts.now multiple game.now.first game.now.shape.states }
    ensures { IsFraction (fraction_data result) (weighted starts.now (λ j. (points_of points.now.members j).value))
        (multiple *ℤ pos (first_total game.now * unit)) }
{
    law_game(game);
    let num = weighted_value(points, starts);
    let den = multiple * bound_scale(game);
    Fraction { num, den }
}

/// The tail: the span in units of reward.
pub fn tail(game: &Game) -> Fraction
    ensures { IsFraction (fraction_data result) (pos (span game.now)) (pos unit) }
{
    Fraction {
        num: game.span(),
        den: UNITS,
    }
}

//! Sums over starts.

ghost use Rattle.controller.specs.Certificates.{node_product};
ghost use Rattle.controller.specs.Starts.{IsStart, most_from, most_over, weighted};
ghost use Rattle.controller.specs.Sums.{AreFewStarts, AreNodes, ArePoints, IsSmallValue};
ghost use Rattle.point_set.specs.Corners.{point_at};
ghost use Rattle.point_set.specs.Points.{points_of};
ghost use Rattle.scaled_num.specs.Share.{at};
ghost use Rattle.std.specs.List.{AllByRecursion};
ghost use Rattle.std.specs.Prelude.{length, pos, unsigned_abs, ◌*ℤ◌, ◌<◌, ◌^◌, ◌≡◌, ◌≤◌};

use alpha_set::NodeSet;
use game_model::{Game, law_game};
use point_set::PointSet;

/// What start points bring to a state: the sum of weight times belief.
pub fn weighted_belief(game: &Game, points: &PointSet, starts: &[(u32, i128)], s: u32) -> i128
    requires points { ArePoints game.now points.now.members }
    requires starts { AreFewStarts (length points.now.members) (pos most_over) starts.now }
    requires state { s < game.now.shape.states }
    ensures { result ≡ weighted starts.now (λ j. at (point_at points.now.members j).belief s) }
{
    let mut sum = 0;
    for start in starts {
        sum += belief_part(game, points, start, s);
    }
    sum
}

/// What one start point brings to a state.
fn belief_part(game: &Game, points: &PointSet, start: &(u32, i128), s: u32) -> i128
    requires points { ArePoints game.now points.now.members }
    requires start { IsStart (length points.now.members) (pos most_over) start.now }
    requires state { s < game.now.shape.states }
    ensures exact { result ≡ start.now.1 *ℤ at (point_at points.now.members start.now.0).belief s }
    ensures small { unsigned_abs result ≤ 2 ^ 110 }
{
    let parts = points.point(start.0).belief.parts();
    start.1 * parts[s as usize]
}

/// The sum of weight times value over start points.
pub fn weighted_value(points: &PointSet, starts: &[(u32, i128)]) -> i128
    requires starts { AreFewStarts (length points.now.members) (pos most_over) starts.now }
    requires small { AllByRecursion (IsSmallValue points.now.members) starts.now }
    ensures { result ≡ weighted starts.now (λ j. (points_of points.now.members j).value) }
{
    let mut sum = 0;
    for start in starts {
        sum += value_part(points, start);
    }
    sum
}

/// The weight of a start point times its value.
fn value_part(points: &PointSet, start: &(u32, i128)) -> i128
    requires start { IsStart (length points.now.members) (pos most_over) start.now }
    requires small { IsSmallValue points.now.members start.now }
    ensures { result ≡ start.now.1 *ℤ (points_of points.now.members start.now.0).value }
{
    start.1 * points.point(start.0).value
}

/// The sum of weight times product with the first belief over start nodes.
pub fn weighted_product(game: &Game, nodes: &NodeSet, starts: &[(u32, i128)]) -> i128
    requires nodes { AreNodes game.now nodes.now.members }
    requires starts { AreFewStarts (length nodes.now.members) (pos most_from) starts.now }
    ensures { result ≡ weighted starts.now (node_product game.now nodes.now.members) }
{
    let mut sum = 0;
    for start in starts {
        sum += product_part(game, nodes, start);
    }
    sum
}

/// The weight of a start node times the product of its vector with the first belief.
fn product_part(game: &Game, nodes: &NodeSet, start: &(u32, i128)) -> i128
    requires nodes { AreNodes game.now nodes.now.members }
    requires start { IsStart (length nodes.now.members) (pos most_from) start.now }
    ensures exact { result ≡ start.now.1 *ℤ node_product game.now nodes.now.members start.now.0 }
    ensures small { unsigned_abs result ≤ 2 ^ 110 }
{
    law_game(game);
    let node = nodes.node(start.0);
    start.1 * game.first_product(&node.vector)
}

//! Sweeps: every member is brought to what one stage gives, over and over.

ghost use Rattle.closing.specs.Better.{AreNodes, ArePoints, NodesGoOn, PointsGoOn};

use alpha_set::NodeSet;
use game_model::Game;
use point_set::PointSet;

/// The most passes of a sweep.
const PASSES: u32 = 40;

/// Raises all nodes to what one stage of each gives, until no entry rises, and at most 40 times. It takes no memory.
pub fn sweep_nodes(game: &Game, nodes: &mut NodeSet)
    requires { AreNodes game.now nodes.old.members }
    ensures { NodesGoOn game.now nodes.old.members nodes.new.members }
{
    for _ in 0..PASSES {
        if !lift_all(game, nodes) {
            return;
        }
    }
}

/// Raises each node once, from the last to the first, and answers whether an entry rose.
fn lift_all(game: &Game, nodes: &mut NodeSet) -> bool
    requires { AreNodes game.now nodes.old.members }
    ensures { NodesGoOn game.now nodes.old.members nodes.new.members }
{
    let count = nodes.len();
    let mut moved = false;
    for i in 0..count {
        if nodes.lift(game, count - 1 - i) {
            moved = true;
        }
    }
    moved
}

/// Lowers the values of all points to what one stage of each costs, until none falls, and at most 40 times. It takes no
/// memory.
pub fn sweep_points(game: &Game, points: &mut PointSet)
    requires { ArePoints game.now points.old.members }
    ensures { PointsGoOn game.now points.old.members points.new.members }
{
    for _ in 0..PASSES {
        if !settle_all(game, points) {
            return;
        }
    }
}

/// Lowers the value of each point once, from the last to the first, and answers whether one fell.
fn settle_all(game: &Game, points: &mut PointSet) -> bool
    requires { ArePoints game.now points.old.members }
    ensures { PointsGoOn game.now points.old.members points.new.members }
{
    let count = points.len();
    let mut moved = false;
    for i in 0..count {
        if points.settle(game, count - 1 - i) {
            moved = true;
        }
    }
    moved
}

//! Worked visits of first beliefs: what they make. `bench/stage/model.py` made the wanted checksums.

ghost use Rattle.backup.specs.Rooms.{HasRooms};
ghost use Rattle.stage_game.specs.Asked.{NodesServe, PointsServe};
ghost use Rattle.std.specs.Prelude.{IfOk, OnOk, ◌≤◌};

use crate::generated::checksum;
use crate::stages::seeds_of;
use crate::told::{lower_told, upper_told};
use alpha_set::NodeSet;
use backup::{lower_visit, reserve_solver, upper_visit};
use belief::Belief;
use game_gen::make;
use game_model::{Game, law_game};
use point_set::PointSet;
use simplex::Solver;
use std::alloc::{AllocError, Global};
use std::test::Fail;

/// A solver with room for the programs of every visit of a game.
pub fn solver_of(alloc: Global, game: &Game) -> Result<Solver, AllocError>
    ensures { IfOk result (λ solver. HasRooms game.now solver) }
{
    let mut solver = Solver::new(alloc);
    reserve_solver(&mut solver, game)?;
    Ok(solver)
}

/// A visit of a game's first belief, which keeps both members: what it makes, as text.
fn visit(
    alloc: Global,
    solver: &mut Solver,
    game: &Game,
    nodes: &mut NodeSet,
    points: &mut PointSet,
) -> Result<String, AllocError>
    requires room { HasRooms game.now solver.old }
    requires nodes { NodesServe game.now nodes.old.members }
    requires points { PointsServe game.now points.old.members }
    ensures room { OnOk result (HasRooms game.now solver.new) }
    ensures nodes { OnOk result (NodesServe game.now nodes.new.members) }
    ensures points { OnOk result (PointsServe game.now points.new.members) }
{
    law_game(game);
    let belief = Belief::first_of(game);
    let (lower, node) = lower_visit(alloc, solver, game, &belief, nodes)?;
    let (upper, point) = upper_visit(alloc, solver, game, &belief, points)?;
    let mut text = lower_told(alloc, &lower, &node)?;
    text.push_str(&upper_told(alloc, &upper, &point)?)?;
    let _counts = (nodes.len(), points.len());
    let Ok(_) = nodes.push(node) else {
        return Err(AllocError);
    };
    let Ok(_) = points.push(point) else {
        return Err(AllocError);
    };
    Ok(text)
}

/// So many visits of a game's first belief from its seeds on, whose members are kept: what the last one makes, as text.
pub fn visited(alloc: Global, game: &Game, count: u32) -> Result<String, AllocError> {
    let (mut nodes, mut points) = seeds_of(alloc, game)?;
    let mut solver = solver_of(alloc, game)?;
    let mut text = String::new(alloc);
    for _ in 0..count {
        text = visit(alloc, &mut solver, game, &mut nodes, &mut points)?;
    }
    Ok(text)
}

/// Whether so many visits of the game of a number and a size make a text of this checksum in the end.
fn is_made(alloc: Global, number: u64, size: u32, count: u32, sum: u64) -> Result<bool, AllocError>
    requires least { 1 ≤ size }
    requires most { size ≤ 16 }
{
    let game = make(alloc, number, size)?;
    let text = visited(alloc, &game, count)?;
    Ok(checksum(text.as_bytes()) == sum)
}

/// Where the first run is the best one, where the third one is on the upper side, and where the second one is on the
/// lower side: there it goes on with a node that is not among the last.
#[test]
fn visits_of_small_games_take_the_first_of_the_best_runs(rt: HostRuntime) -> Result<(), Fail> {
    let alloc = rt.alloc();
    assert!(rt; is_made(alloc, 1, 3, 1, 3_558_555_487_125_284_965)?);
    assert!(rt; is_made(alloc, 4, 3, 1, 17_915_351_921_196_392_504)?);
    assert!(rt; is_made(alloc, 5, 5, 1, 14_980_520_274_112_980_940)?);
    assert!(rt; is_made(alloc, 2, 4, 16, 3_270_879_355_046_942_762)?);
    Ok(())
}

/// The third run is the best one on the lower side, and the fourth one on the upper side.
#[test]
fn a_visit_tries_fewer_bits_where_runs_end_wide(rt: HostRuntime) -> Result<(), Fail> {
    assert!(rt; is_made(rt.alloc(), 3, 6, 1, 89_944_677_015_740_638)?);
    Ok(())
}

/// The fourth run is the best one on both sides. On the lower side the second one ends wide and the third one spent.
#[test]
fn a_visit_ends_with_the_fewest_bits(rt: HostRuntime) -> Result<(), Fail> {
    assert!(rt; is_made(rt.alloc(), 2, 8, 1, 2_929_276_296_258_562_886)?);
    Ok(())
}

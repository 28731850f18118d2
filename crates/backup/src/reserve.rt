//! A solver's room for the programs of every visit of a game.

ghost use Rattle.backup.specs.Rooms.{HasRooms};
ghost use Rattle.std.specs.Prelude.{OnOk};

use game_model::{Game, law_game};
use simplex::Solver;
use std::alloc::AllocError;

/// Makes room in a solver for the programs of every visit of a game: with all nodes and points that a visit may go on
/// with.
///
/// # Errors
///
/// Where no memory is to be had.
pub fn reserve_solver(solver: &mut Solver, game: &Game) -> Result<(), AllocError>
    ensures room { OnOk result (HasRooms game.now solver.new) }
{
    law_game(game);
    let (states, own, seen) = (game.states(), game.own_actions(), game.observations());
    let informed = game.informed_actions();
    let rows = states * informed + own * seen * (states + 8) + 1;
    let variables = states + own + own * seen * 16;
    solver.reserve(rows, variables)
}

//! Solving a game: a search to its end, and what it gives.

ghost use Rattle.controller.specs.Certificates.{IsGap};
ghost use Rattle.controller.specs.Data.{fraction_data};
ghost use Rattle.controller.specs.Parts.{PartsFit, PartsStand};
ghost use Rattle.controller.specs.Starts.{MakesUpMultiple};
ghost use Rattle.hsvi_trial.specs.Data.{IsFinished, solved_data, solved_parts};
ghost use Rattle.hsvi_trial.specs.Run.{IsSolveRun, most_trials};
ghost use Rattle.std.specs.Prelude.{IfOk, OnOk, ◌≡◌, ◌≤◌};

use crate::search::{Progress, Search};
use crate::visits::Visit;
use alpha_set::NodeSet;
use controller::Outcome;
use game_model::{Game, law_game};
use point_set::PointSet;
use scaled_num::Fraction;
use std::alloc::{AllocError, Global};

/// What solving a game gives: the sets, the start in them, how the run ended and its visits in order.
#[derive(Drop)]
pub struct Solved {
    pub nodes: NodeSet,
    pub points: PointSet,
    pub start_node: u32,
    pub start_points: Vec<(u32, i128)>,
    pub multiple: i128,
    pub outcome: Outcome,
    pub journal: Vec<Visit>,
}

/// Solves a game: makes visits, in at most so many trials, until the bounds are within the gap or a set is full.
///
/// # Errors
///
/// Where no memory is to be had.
pub fn solve(alloc: Global, game: &Game, trials: u32, gap: &Fraction) -> Result<Solved, AllocError>
    requires trials { trials ≤ most_trials }
    requires gap { IsGap (fraction_data gap.now) }
    ensures run { IfOk result (λ solved.
        IsSolveRun (record { game = game.now; trials = trials; gap = fraction_data gap.now }) (solved_data solved)) }
    ensures fit { IfOk result (λ solved.
        PartsFit game.now (solved_parts (fraction_data gap.now) (solved_data solved))) }
    ensures start { IfOk result (λ solved.
        MakesUpMultiple solved.points.members solved.start_points.items solved.multiple game.now.first
        game.now.shape.states) }
    ensures stand { IfOk result (λ solved.
        PartsStand game.now (solved_parts (fraction_data gap.now) (solved_data solved))) }
{
    law_game(game);
    let mut search = Search::new(alloc, game, trials, gap)?;
    make_visits(&mut search)?;
    let start = search.finish()?;
    Ok(search.take(start))
}

/// Makes the visits that a search has left.
///
/// # Errors
///
/// Where no memory is to be had.
fn make_visits(search: &mut Search) -> Result<(), AllocError>
    ensures task { search.new.task ≡ search.old.task }
    ensures ended { OnOk result (IsFinished search.new) }
{
    loop {
        let _visits = search.visits();
        if let Progress::Ended(_) = search.step()? {
            return Ok(());
        }
    }
}

//! The upper advice of a visit, and its point.

ghost use Rattle.backup.specs.Tries.{tried_bits};
ghost use Rattle.backup.specs.UpperLaws.{UpperVisitsAreOne};
ghost use Rattle.backup.specs.UpperRuns.{IsBestRun, IsFirstRun, IsSound, run_data};
ghost use Rattle.backup.specs.UpperVisits.{IsUpperRun, IsUpperVisit};
ghost use Rattle.game_model.specs.Game.{numbers};
ghost use Rattle.point_set.specs.Members.{point_data};
ghost use Rattle.point_set.specs.Points.{PointData, PointFits, PointStands, point_of, points_of};
ghost use Rattle.simplex.specs.declared.End.{End};
ghost use Rattle.stage_game.specs.Asked.{AreBits, AreUpperEnds, BeliefFits, HasRoomForUppers, PointsServe};
ghost use Rattle.stage_game.specs.Data.{upper_data};
ghost use Rattle.stage_game.specs.Fits.{UpperFits};
ghost use Rattle.std.specs.Prelude.{IfOk, List, length, ℕ, ◌++◌, ◌<ℤ◌, ◌≡◌, ◌≤ℤ◌};

use crate::new_points::new_point;
use belief::Belief;
use game_model::Game;
use point_set::{Point, PointSet};
use simplex::{End, Solver};
use stage_game::{UpperAdvice, upper_advice, upper_candidates};
use std::alloc::{AllocError, Global};

/// The bits that the program with the first candidates is scaled by.
const FIRST_BITS: u32 = 10;

/// The bits that those with the priced candidates are scaled by, in the order in which they are tried.
const TRIED_BITS: [u32; 3] = [10, 7, 5];

/// A run of an upper program: its advice, and the point of that.
#[derive(Drop)]
struct Run {
    advice: UpperAdvice,
    point: Point,
}

/// The upper advice of a visit, and its point, which is the first of least value among up to four runs. The first run
/// has the first candidates and 10 bits. The others have the priced candidates under the informed mixes of the first:
/// one with 10 bits, where it did not end optimal one with 7, and where that did not either one with 5. The point fits
/// the game, and it stands among the points, also when others come behind them.
///
/// # Errors
///
/// Where no memory is to be had. The solver may then hold another last dictionary, and keeps its room.
pub fn upper_visit(
    alloc: Global,
    solver: &mut Solver,
    game: &Game,
    belief: &Belief,
    points: &PointSet,
) -> Result<(UpperAdvice, Point), AllocError>
    requires belief { BeliefFits game.now belief.now }
    requires points { PointsServe game.now points.now.members }
    requires room { HasRoomForUppers solver.old game.now points.now.members }
    ensures rows { solver.new.most_rows ≡ solver.old.most_rows }
    ensures variables { solver.new.most_variables ≡ solver.old.most_variables }
    ensures visit { IfOk result (λ made.
        IsUpperVisit game.now belief.now points.now.members (upper_data made.0) (point_data made.1)) }
    ensures advice { IfOk result (λ made. UpperFits game.now points.now.members (upper_data made.0)) }
    ensures bounded { IfOk result (λ made. (col : ℕ) → made.0.end ≡ End.Unbounded col → ⊥) }
    ensures fits { IfOk result (λ made. PointFits game.now (length points.now.members) (point_data made.1)) }
    ensures stands { IfOk result (λ made.
        PointStands (numbers game.now) (points_of points.now.members) (point_of (point_data made.1))) }
    ensures stays { IfOk result (λ made. (more : List PointData) →
        PointStands (numbers game.now) (points_of (points.now.members ++ more)) (point_of (point_data made.1))) }
{
    let first = first_run(alloc, solver, game, belief, points)?;
    let priced = upper_candidates(alloc, game, belief, points, Some(&first.advice.informed))?;
    let best = best_run(
        alloc,
        solver,
        game,
        belief,
        points,
        &priced,
        &TRIED_BITS,
        first,
    )?;
    Ok((best.advice, best.point))
}

/// The run with the first candidates.
fn first_run(
    alloc: Global,
    solver: &mut Solver,
    game: &Game,
    belief: &Belief,
    points: &PointSet,
) -> Result<Run, AllocError>
    requires belief { BeliefFits game.now belief.now }
    requires points { PointsServe game.now points.now.members }
    requires room { HasRoomForUppers solver.old game.now points.now.members }
    ensures rows { solver.new.most_rows ≡ solver.old.most_rows }
    ensures variables { solver.new.most_variables ≡ solver.old.most_variables }
    ensures run { IfOk result (λ run. IsFirstRun game.now belief.now points.now.members (run_data run)) }
    ensures sound { IfOk result (λ run. IsSound game.now points.now.members (run_data run)) }
{
    let candidates = upper_candidates(alloc, game, belief, points, None)?;
    upper_run(alloc, solver, game, belief, points, &candidates, FIRST_BITS)
}

/// The best of a first run and those with the priced candidates, by the bits that are tried until a run ends optimal.
fn best_run(
    alloc: Global,
    solver: &mut Solver,
    game: &Game,
    belief: &Belief,
    points: &PointSet,
    priced: &[u32],
    tried: &[u32],
    first: Run,
) -> Result<Run, AllocError>
    requires belief { BeliefFits game.now belief.now }
    requires points { PointsServe game.now points.now.members }
    requires room { HasRoomForUppers solver.old game.now points.now.members }
    requires priced { AreUpperEnds game.now points.now.members priced.now }
    requires tried { tried.now ≡ tried_bits }
    requires sound { IsSound game.now points.now.members (run_data first) }
    ensures rows { solver.new.most_rows ≡ solver.old.most_rows }
    ensures variables { solver.new.most_variables ≡ solver.old.most_variables }
    ensures run { IfOk result (λ run.
        IsBestRun game.now belief.now points.now.members priced.now (run_data first) (run_data run)) }
    ensures sound { IfOk result (λ run. IsSound game.now points.now.members (run_data run)) }
{
    let mut best = first;
    for bits in tried {
        let run = upper_run(alloc, solver, game, belief, points, priced, *bits)?;
        let is_last = matches!(run.advice.end, End::Optimal);
        best = lesser(best, run);
        if is_last {
            return Ok(best);
        }
    }
    Ok(best)
}

/// The run of the lesser value, and the first of two with equal values.
fn lesser(first: Run, second: Run) -> Run
    ensures kept { first.point.value ≤ℤ second.point.value → result ≡ first }
    ensures taken { second.point.value <ℤ first.point.value → result ≡ second }
{
    if second.point.value < first.point.value {
        second
    } else {
        first
    }
}

/// The run of the upper program with these candidates and bits.
fn upper_run(
    alloc: Global,
    solver: &mut Solver,
    game: &Game,
    belief: &Belief,
    points: &PointSet,
    candidates: &[u32],
    bits: u32,
) -> Result<Run, AllocError>
    requires belief { BeliefFits game.now belief.now }
    requires points { PointsServe game.now points.now.members }
    requires room { HasRoomForUppers solver.old game.now points.now.members }
    requires candidates { AreUpperEnds game.now points.now.members candidates.now }
    requires bits { AreBits bits }
    ensures rows { solver.new.most_rows ≡ solver.old.most_rows }
    ensures variables { solver.new.most_variables ≡ solver.old.most_variables }
    ensures run { IfOk result (λ run.
        IsUpperRun game.now belief.now points.now.members candidates.now bits (run_data run)) }
    ensures sound { IfOk result (λ run. IsSound game.now points.now.members (run_data run)) }
{
    let advice = upper_advice(alloc, solver, game, belief, points, candidates, bits)?;
    let point = new_point(alloc, game, belief, &advice, points)?;
    Ok(Run { advice, point })
}

/// A law: the upper visit of a belief has one advice and one point, whatever solver runs its programs.
pub fn law_one_upper_visit()
    ensures { UpperVisitsAreOne }
{}

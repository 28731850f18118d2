//! Visits that repeat: after a trial that kept nothing each visit is that of a trial back, with its number raised.

ghost use Rattle.hsvi_trial.specs.Copies.{renumbered};
ghost use Rattle.hsvi_trial.specs.Courses.{HasPlace};
ghost use Rattle.hsvi_trial.specs.Repeats.{IsCopied, KeptNothing, goes_to};
ghost use Rattle.hsvi_trial.specs.Run.{most_trials};
ghost use Rattle.hsvi_trial.specs.declared.courses.Next.{Next as NextParts};
ghost use Rattle.std.specs.Bool.{IsTrue};
ghost use Rattle.std.specs.List.{AllByRecursion};
ghost use Rattle.std.specs.Prelude.{OnErr, OnOk, drop, length, ◌+◌, ◌-◌, ◌<◌, ◌↔◌, ◌≡◌, ◌≤◌};

use crate::courses::{Course, Next};
use crate::visits::Visit;
use belief::Belief;
use game_model::Game;
use std::alloc::AllocError;

/// Makes the visit so many visits back once more, in the trial under way, and goes on as it did.
///
/// # Errors
///
/// Where no memory is to be had. Journal and course are then as before.
pub fn copy_visit(
    game: &Game,
    journal: &mut Vec<Visit>,
    course: &mut Course,
    back: usize,
) -> Result<(), AllocError>
    requires back { 2 ≤ back }
    requires within { back ≤ length journal.old.items }
    requires trial { course.old.trial ≤ most_trials }
    requires place { HasPlace (length journal.old.items) course.old.first course.old.next }
    ensures copied { OnOk result (IsCopied game.now journal.old.items course.old back journal.new.items course.new) }
    ensures same_journal { OnErr result (journal.new.items ≡ journal.old.items) }
    ensures same_course { OnErr result (course.new ≡ course.old) }
{
    journal.reserve(1)?;
    let count = journal.len();
    let visit = renumbered(&journal[count - back], course.trial);
    let next = next_belief(&visit, &journal[count - back + 1]);
    *course = course.after(game, visit.depth, count + 1, next);
    journal.push_reserved(visit);
    Ok(())
}

/// The same visit in the trial of this number.
fn renumbered(visit: &Visit, trial: u32) -> Visit
    ensures { result ≡ renumbered trial visit.now }
{
    Visit {
        trial,
        depth: visit.depth,
        belief: visit.belief.copied(),
        down: visit.down,
        node: visit.node,
        point: visit.point,
        chosen: visit.chosen,
    }
}

/// Where a visit goes on that chose: at the belief of the visit after it.
fn next_belief(visit: &Visit, after: &Visit) -> Option<Belief>
    ensures { result ≡ goes_to visit.now.chosen after.now.belief }
{
    match visit.chosen {
        Some(_) => Some(after.belief.copied()),
        None => None,
    }
}

/// How many visits back the next one stands already, after a visit that went on from a course: the length of the trial,
/// where the visit ended it and all of it kept nothing; else 0.
pub fn back_after(course: &Course, journal: &[Visit]) -> usize
    requires place { HasPlace (length journal.now) course.now.first course.now.next }
    ensures ends { 0 < result → course.now.next ≡ NextParts.Back 1 }
    ensures long { 0 < result → course.now.first + result ≡ length journal.now }
    ensures nothing { 0 < result → AllByRecursion KeptNothing (drop course.now.first journal.now) }
{
    match &course.next {
        Next::Back(1) if kept_nothing(&journal[course.first..]) => journal.len() - course.first,
        _ => 0,
    }
}

/// Whether visits kept nothing.
fn kept_nothing(visits: &[Visit]) -> bool
    ensures { IsTrue result ↔ AllByRecursion KeptNothing visits.now }
{
    visits
        .iter()
        .all(|visit| visit.node.is_none() && visit.point.is_none())
}

//! Searches by single visits.

ghost use Rattle.controller.specs.Certificates.{IsGap};
ghost use Rattle.controller.specs.Data.{fraction_data};
ghost use Rattle.hsvi_trial.specs.Run.{most_trials};
ghost use Rattle.std.specs.Prelude.{◌≤◌};

use crate::games::pennies;
use crate::searches::{USUAL_GAP, has_sizes};
use controller::Outcome;
use game_gen::make;
use game_model::Game;
use hsvi_trial::{Progress, Search, Solved, Visit, solve};
use scaled_num::Fraction;
use std::alloc::{AllocError, Global};

/// A search to its end by single visits, of which there are at most so many; None where it has not ended then.
fn solve_by_steps(
    alloc: Global,
    game: &Game,
    trials: u32,
    gap: &Fraction,
    visits: u32,
) -> Result<Option<Solved>, AllocError>
    requires trials { trials ≤ most_trials }
    requires gap { IsGap (fraction_data gap.now) }
{
    let mut search = Search::new(alloc, game, trials, gap)?;
    for _visit in 0..visits {
        if let Progress::Ended(_) = search.step()? {
            let start = search.finish()?;
            return Ok(Some(search.take(start)));
        }
    }
    Ok(None)
}

/// Whether two visits are equal.
fn are_same(visit: &Visit, other: &Visit) -> bool {
    visit.trial == other.trial
        && visit.depth == other.depth
        && visit.belief.same(&other.belief)
        && visit.down == other.down
        && visit.node == other.node
        && visit.point == other.point
        && visit.chosen == other.chosen
}

#[test]
fn a_search_of_matching_pennies_ends_after_two_visits(rt: HostRuntime) {
    let Ok(game) = pennies(rt.alloc()) else {
        panic!(rt; "the game is refused");
    };
    let Ok(mut search) = Search::new(rt.alloc(), &game, 100, &USUAL_GAP) else {
        panic!(rt; "out of memory");
    };
    for visits in 0..2 {
        assert_eq!(rt; search.visits(), visits);
        assert!(rt; matches!(search.step(), Ok(Progress::Visited)));
    }
    let Ok(Progress::Ended(Outcome::Closed)) = search.step() else {
        panic!(rt; "not closed");
    };
    assert_eq!(rt; search.visits(), 2);
    let Ok(start) = search.finish() else {
        panic!(rt; "out of memory");
    };
    assert_eq!(rt; start.start_node, 2);
    assert!(rt; start.start_points.as_slice() == [(1, 1)].as_slice());
    assert_eq!(rt; start.multiple, 1);
    let solved = search.take(start);
    assert!(rt; solved.outcome == Outcome::Closed);
    assert!(rt; has_sizes(&solved, 3, 2, 2));
}

#[test]
fn solving_is_the_loop_over_steps(rt: HostRuntime) {
    let Ok(game) = make(rt.alloc(), 7, 3) else {
        panic!(rt; "out of memory");
    };
    let Ok(solved) = solve(rt.alloc(), &game, 9, &USUAL_GAP) else {
        panic!(rt; "out of memory");
    };
    let Ok(Some(stepped)) = solve_by_steps(rt.alloc(), &game, 9, &USUAL_GAP, 1_171) else {
        panic!(rt; "not ended");
    };
    assert!(rt; has_sizes(&solved, 22, 15, 9 * 130));
    assert!(rt; has_sizes(&stepped, 22, 15, 9 * 130));
    assert_eq!(rt; stepped.start_node, solved.start_node);
    assert!(rt; stepped.start_points.as_slice() == solved.start_points.as_slice());
    assert_eq!(rt; stepped.multiple, solved.multiple);
    assert!(rt; stepped.outcome == solved.outcome);
    let pairs = stepped.journal.iter().zip(solved.journal.iter());
    for (visit, other) in pairs {
        assert!(rt; are_same(visit, other));
    }
}

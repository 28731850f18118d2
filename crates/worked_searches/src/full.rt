//! A search that fills a set: its last visit is cut, and ends the run.

use crate::searches::USUAL_GAP;
use controller::Outcome;
use game_gen::make;
use hsvi_trial::solve;

#[test]
fn a_full_set_ends_the_run_at_a_visit_that_is_cut(rt: HostRuntime) {
    let Ok(game) = make(rt.alloc(), 5, 3) else {
        panic!(rt; "out of memory");
    };
    let Ok(solved) = solve(rt.alloc(), &game, 50, &USUAL_GAP) else {
        panic!(rt; "out of memory");
    };
    assert!(rt; solved.outcome == Outcome::Full);
    assert_eq!(rt; solved.points.len(), 1_024);
    let visits = solved.journal.as_slice();
    let keeps_last = visits.iter().filter(|visit| visit.point == Some(1_023));
    assert_eq!(rt; keeps_last.count(), 1);
    let Some(cut) = visits.last() else {
        panic!(rt; "no visit");
    };
    assert!(rt; cut.point.is_none() && cut.chosen.is_none());
}

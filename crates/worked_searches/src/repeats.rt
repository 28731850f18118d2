//! A search that comes to a standstill: each further trial is the one before with its number raised.

use crate::searches::{USUAL_GAP, has_sizes};
use controller::Outcome;
use game_gen::make;
use hsvi_trial::{Visit, solve};

/// Whether a visit is another one with its trial's number raised, and both kept nothing.
fn is_raised(visit: &Visit, before: &Visit) -> bool {
    before.trial.checked_add(1) == Some(visit.trial)
        && visit.depth == before.depth
        && visit.belief.same(&before.belief)
        && visit.down == before.down
        && visit.chosen == before.chosen
        && kept_nothing(visit)
        && kept_nothing(before)
}

/// Whether a visit kept nothing.
fn kept_nothing(visit: &Visit) -> bool {
    visit.node.is_none() && visit.point.is_none()
}

#[test]
fn each_trial_after_the_seventh_is_the_one_before_raised(rt: HostRuntime) {
    let Ok(game) = make(rt.alloc(), 7, 3) else {
        panic!(rt; "out of memory");
    };
    let Ok(solved) = solve(rt.alloc(), &game, 30, &USUAL_GAP) else {
        panic!(rt; "out of memory");
    };
    assert!(rt; solved.outcome == Outcome::Trials);
    assert!(rt; has_sizes(&solved, 22, 15, 30 * 130));
    let visits = solved.journal.as_slice();
    for i in 910..3_900 {
        let (Some(visit), Some(before)) = (visits.get(i), visits.get(i - 130)) else {
            panic!(rt; "too few visits");
        };
        assert!(rt; is_raised(visit, before));
    }
    let sixth = visits.iter().skip(650).take(130);
    assert_eq!(rt; sixth.filter(|visit| kept_nothing(visit)).count(), 129);
}

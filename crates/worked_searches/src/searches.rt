//! Games that are solved.

use crate::games::{five_each_time, guess, pennies, three_halved};
use controller::Outcome;
use hsvi_trial::{Solved, solve};
use scaled_num::Fraction;

/// The gap of a search that is asked for none.
pub const USUAL_GAP: Fraction = Fraction { num: 1, den: 100 };

/// Whether a solved game has so many nodes, points and visits.
pub fn has_sizes(solved: &Solved, nodes: u32, points: u32, visits: usize) -> bool {
    solved.nodes.len() == nodes && solved.points.len() == points && solved.journal.len() == visits
}

/// Whether a solved game starts at the node of this number, with this vector.
fn starts_at_node(solved: &Solved, number: u32, vector: &[i128]) -> bool {
    solved.start_node == number
        && number < solved.nodes.len()
        && solved.nodes.node(number).vector.as_slice() == vector
}

/// Whether a solved game starts at the point of this number alone, with this value.
fn starts_at_point(solved: &Solved, number: u32, value: i128) -> bool {
    solved.start_points.as_slice() == [(number, 1)].as_slice()
        && solved.multiple == 1
        && number < solved.points.len()
        && solved.points.point(number).value == value
}

#[test]
fn five_each_time_is_closed_without_a_trial(rt: HostRuntime) {
    let Ok(game) = five_each_time(rt.alloc()) else {
        panic!(rt; "the game is refused");
    };
    let Ok(solved) = solve(rt.alloc(), &game, 100, &USUAL_GAP) else {
        panic!(rt; "out of memory");
    };
    assert!(rt; solved.outcome == Outcome::Closed);
    assert!(rt; has_sizes(&solved, 1, 1, 0));
    assert!(rt; starts_at_node(&solved, 0, &[327_680]));
    assert!(rt; starts_at_point(&solved, 0, 327_680));
}

#[test]
fn three_halved_is_closed_by_its_seeds_at_the_least_gap(rt: HostRuntime) {
    let Ok(game) = three_halved(rt.alloc()) else {
        panic!(rt; "the game is refused");
    };
    let gap = Fraction {
        num: 1,
        den: 65_536,
    };
    let Ok(solved) = solve(rt.alloc(), &game, 100, &gap) else {
        panic!(rt; "out of memory");
    };
    assert!(rt; solved.outcome == Outcome::Closed);
    assert!(rt; has_sizes(&solved, 1, 1, 0));
    assert!(rt; starts_at_node(&solved, 0, &[393_215]));
    assert!(rt; starts_at_point(&solved, 0, 393_216));
}

#[test]
fn three_halved_without_a_gap_is_out_of_trials(rt: HostRuntime) {
    let Ok(game) = three_halved(rt.alloc()) else {
        panic!(rt; "the game is refused");
    };
    let Ok(solved) = solve(rt.alloc(), &game, 5, &Fraction { num: 0, den: 1 }) else {
        panic!(rt; "out of memory");
    };
    assert!(rt; solved.outcome == Outcome::Trials);
    assert!(rt; has_sizes(&solved, 1, 1, 5 * 2 * 65));
    assert!(rt; starts_at_node(&solved, 0, &[393_215]));
    assert!(rt; starts_at_point(&solved, 0, 393_216));
}

#[test]
fn matching_pennies_is_closed_by_one_trial(rt: HostRuntime) {
    let Ok(game) = pennies(rt.alloc()) else {
        panic!(rt; "the game is refused");
    };
    let Ok(solved) = solve(rt.alloc(), &game, 100, &USUAL_GAP) else {
        panic!(rt; "out of memory");
    };
    assert!(rt; solved.outcome == Outcome::Closed);
    assert!(rt; has_sizes(&solved, 3, 2, 2));
    assert!(rt; starts_at_node(&solved, 2, &[0]));
    assert!(rt; starts_at_point(&solved, 1, 0));
}

#[test]
fn guess_the_state_is_closed_without_a_trial_also_with_a_common_factor(rt: HostRuntime) {
    for weight in [1, 2] {
        let Ok(game) = guess(rt.alloc(), &[weight, weight]) else {
            panic!(rt; "the game is refused");
        };
        let Ok(solved) = solve(rt.alloc(), &game, 100, &USUAL_GAP) else {
            panic!(rt; "out of memory");
        };
        assert!(rt; solved.outcome == Outcome::Closed);
        assert!(rt; has_sizes(&solved, 2, 3, 0));
        assert!(rt; starts_at_node(&solved, 0, &[65_536, 0]));
        assert!(rt; starts_at_point(&solved, 2, 65_536));
    }
}

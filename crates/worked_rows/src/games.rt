//! Worked games.

use game_model::{Game, GameBuilder, GameFault, Shape};
use std::alloc::Global;

/// Matching pennies in one state, without a future.
fn pennies(alloc: Global) -> Result<Game, GameFault> {
    let shape = Shape {
        states: 1,
        own_actions: 2,
        informed_actions: 2,
        observations: 1,
        row_total: 1,
        discount: (0, 1),
    };
    let mut builder = GameBuilder::new(alloc, shape, &[3])?;
    for reward in [1, -1, -1, 1] {
        builder.step(reward)?;
        builder.landing(0, 0, 1)?;
    }
    builder.finish()
}

#[test]
fn matching_pennies_keeps_its_numbers(rt: HostRuntime) {
    let Ok(game) = pennies(rt.alloc()) else {
        panic!(rt; "the game is refused");
    };
    assert_eq!(rt; game.states(), 1);
    assert_eq!(rt; game.own_actions(), 2);
    assert_eq!(rt; game.informed_actions(), 2);
    assert_eq!(rt; game.observations(), 1);
    assert_eq!(rt; game.row_total(), 1);
    assert!(rt; game.discount() == (0, 1));
    assert!(rt; game.first() == [1].as_slice());
    assert_eq!(rt; game.first_total(), 1);
    assert_eq!(rt; game.span(), 65_536);
    for (a, c, reward) in [(0, 0, 1), (0, 1, -1), (1, 0, -1), (1, 1, 1)] {
        assert_eq!(rt; game.reward(0, a, c), reward);
        let [landing] = game.row(0, a, c) else {
            panic!(rt; "another length");
        };
        assert!(rt; landing.seen == 0 && landing.to == 0 && landing.weight == 1);
    }
}

#[test]
fn seeds_of_matching_pennies_are_minus_the_span(rt: HostRuntime) {
    let Ok(game) = pennies(rt.alloc()) else {
        panic!(rt; "the game is refused");
    };
    assert_eq!(rt; game.states(), 1);
    assert_eq!(rt; game.own_actions(), 2);
    for a in 0..2 {
        let mut vector = [0];
        game.steady(a, &mut vector);
        assert_eq!(rt; vector[0], -65_536);
    }
}

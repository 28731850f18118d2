//! Worked beliefs, mixes and masses.

use belief::{Belief, Mixes, mass, reduce};
use game_model::{Game, GameBuilder, GameFault, Shape, law_game};
use std::alloc::Global;

/// Matching pennies in one state, without a future.
fn pennies(alloc: Global) -> Result<Game, GameFault> {
    let shape = Shape {
        states: 1,
        own_actions: 2,
        informed_actions: 2,
        observations: 1,
        row_total: 1,
        discount: (0, 1),
    };
    let mut builder = GameBuilder::new(alloc, shape, &[3])?;
    for reward in [1, -1, -1, 1] {
        builder.step(reward)?;
        builder.landing(0, 0, 1)?;
    }
    builder.finish()
}

#[test]
fn parts_with_a_common_divisor_are_no_belief(rt: HostRuntime) {
    assert!(rt; Belief::of(&[2, 4]).is_none());
    let Some(belief) = Belief::of(&[1, 2]) else {
        panic!(rt; "the belief is refused");
    };
    assert!(rt; belief.parts() == [1, 2].as_slice());
    assert_eq!(rt; belief.total(), 3);
    assert!(rt; belief.same(&belief.copied()));
    assert!(rt; !belief.same(&Belief::corner(2, 1)));
}

#[test]
fn a_corner_is_sure_of_its_state(rt: HostRuntime) {
    assert!(rt; Belief::corner(3, 1).parts() == [0, 1, 0].as_slice());
}

#[test]
fn mixes_of_matching_pennies_bring_the_whole_mass(rt: HostRuntime) {
    let Ok(game) = pennies(rt.alloc()) else {
        panic!(rt; "the game is refused");
    };
    law_game(&game);
    assert_eq!(rt; game.states(), 1);
    assert_eq!(rt; game.own_actions(), 2);
    assert_eq!(rt; game.informed_actions(), 2);
    assert_eq!(rt; game.observations(), 1);
    let Ok(mixes) = Mixes::of(rt.alloc(), &game, &[32_768, 32_768]) else {
        panic!(rt; "out of memory");
    };
    let Ok(copied) = mixes.copied() else {
        panic!(rt; "out of memory");
    };
    assert_eq!(rt; copied.states(), 1);
    assert_eq!(rt; copied.actions(), 2);
    assert_eq!(rt; copied.get(0, 1), 32_768);
    let belief = Belief::first_of(&game);
    let mut out = [7];
    mass(&game, &belief, &mixes, 0, 0, &mut out);
    assert_eq!(rt; out[0], 65_536);
}

#[test]
fn a_choice_has_the_whole_weight_of_its_state(rt: HostRuntime) {
    let Ok(game) = pennies(rt.alloc()) else {
        panic!(rt; "the game is refused");
    };
    law_game(&game);
    assert_eq!(rt; game.states(), 1);
    assert_eq!(rt; game.informed_actions(), 2);
    let Ok(mixes) = Mixes::pure(rt.alloc(), &game, &[1]) else {
        panic!(rt; "out of memory");
    };
    assert_eq!(rt; mixes.get(0, 0), 0);
    assert_eq!(rt; mixes.get(0, 1), 65_536);
}

#[test]
fn a_light_mass_is_divided(rt: HostRuntime) {
    let Some(belief) = reduce(&[65_536, 131_072]) else {
        panic!(rt; "the mass is zero everywhere");
    };
    assert!(rt; belief.parts() == [1, 2].as_slice());
}

#[test]
fn a_heavy_mass_is_shared_out_and_divided_again(rt: HostRuntime) {
    let Some(belief) = reduce(&[1, 1_048_576]) else {
        panic!(rt; "the mass is zero everywhere");
    };
    assert!(rt; belief.parts() == [0, 1].as_slice());
}

#[test]
fn a_zero_mass_is_no_belief(rt: HostRuntime) {
    assert!(rt; reduce(&[0, 0]).is_none());
}

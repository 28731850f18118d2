//! Worked sets of points.

ghost use Rattle.game_model.specs.Game.{AreCoprime, IsBelief, IsWithin, span};
ghost use Rattle.point_set.specs.Members.{most_points, point_data};
ghost use Rattle.point_set.specs.Points.{PointFits, most_share};
ghost use Rattle.point_set.specs.Sawtooth.{AreMeasured};
ghost use Rattle.std.specs.List.{AllByRecursion};
ghost use Rattle.scaled_num.specs.Sums.{sum_of};
ghost use Rattle.std.specs.Prelude.{IfOk, [], neg_ℤ, pos, ℕ, ◌*ℤ◌, ◌+◌, ◌<◌, ◌^◌, ◌∷◌, ◌≡◌, ◌≤◌};

use belief::{Belief, Mixes};
use game_model::{Game, GameBuilder, GameFault, Shape, law_game};
use point_set::{Point, PointFault, PointSet, PushFault, Share, Split};
use std::alloc::{AllocError, Global};

/// Matching pennies in one state, without a future.
fn pennies(alloc: Global) -> Result<Game, GameFault> {
    let shape = Shape {
        states: 1,
        own_actions: 2,
        informed_actions: 2,
        observations: 1,
        row_total: 1,
        discount: (0, 1),
    };
    let mut builder = GameBuilder::new(alloc, shape, &[3])?;
    for reward in [1, -1, -1, 1] {
        builder.step(reward)?;
        builder.landing(0, 0, 1)?;
    }
    builder.finish()
}

/// The point of matching pennies that mixes evenly and goes on with point 0, so many times after each action.
fn even_point(alloc: Global, game: &Game, value: i128, weight: i128) -> Result<Point, AllocError>
    requires states { game.now.shape.states ≡ 1 }
    requires own { game.now.shape.own_actions ≡ 2 }
    requires informed { game.now.shape.informed_actions ≡ 2 }
    requires seen { game.now.shape.observations ≡ 1 }
    requires span { span game.now ≡ 65536 }
    requires value { IsWithin (neg_ℤ (pos 65536)) (pos 65536) value }
    requires weight { IsWithin (pos 1) most_share weight }
    ensures fits { IfOk result (λ p. PointFits game.now most_points (point_data p)) }
    ensures named { IfOk result (λ p. AllByRecursion (λ share. share.member < 1) (point_data p).splits) }
{
    let mixes = Mixes::of(alloc, game, &[32_768, 32_768])?;
    let mut splits = Vec::new(alloc);
    splits.push(Share {
        a: 0,
        o: 0,
        k: 0,
        weight,
    })?;
    splits.push(Share {
        a: 1,
        o: 0,
        k: 0,
        weight,
    })?;
    Ok(Point {
        belief: Belief::corner(1, 0),
        value,
        mixes,
        splits,
    })
}

/// The fault of a set of that point alone.
fn fault_of(
    alloc: Global,
    game: &Game,
    value: i128,
    weight: i128,
) -> Result<Option<PointFault>, AllocError>
    requires states { game.now.shape.states ≡ 1 }
    requires own { game.now.shape.own_actions ≡ 2 }
    requires informed { game.now.shape.informed_actions ≡ 2 }
    requires seen { game.now.shape.observations ≡ 1 }
    requires span { span game.now ≡ 65536 }
    requires value { IsWithin (neg_ℤ (pos 65536)) (pos 65536) value }
    requires weight { IsWithin (pos 1) most_share weight }
{
    let point = even_point(alloc, game, value, weight)?;
    let mut set = PointSet::new(alloc, game);
    let Ok(_) = set.push(point) else {
        return Err(AllocError);
    };
    Ok(set.stands(game, 0))
}

#[test]
fn the_even_point_stands_and_others_fail_first_at_action_0(rt: HostRuntime) {
    let Ok(game) = pennies(rt.alloc()) else {
        panic!(rt; "the game is refused");
    };
    assert_eq!(rt; game.states(), 1);
    assert_eq!(rt; game.own_actions(), 2);
    assert_eq!(rt; game.informed_actions(), 2);
    assert_eq!(rt; game.observations(), 1);
    assert_eq!(rt; game.span(), 65_536);
    let stands = fault_of(rt.alloc(), &game, 0, 65_536);
    assert!(rt; matches!(stands, Ok(None)));
    let value = fault_of(rt.alloc(), &game, -1, 65_536);
    assert!(rt; matches!(value, Ok(Some(PointFault::Value { a: 0 }))));
    let split = fault_of(rt.alloc(), &game, -1, 65_535);
    assert!(rt; matches!(split, Ok(Some(PointFault::Split { a: 0, o: 0, s: 0 }))));
}

#[test]
fn a_push_answers_numbers_up_to_1023_and_then_full(rt: HostRuntime) {
    let Ok(game) = pennies(rt.alloc()) else {
        panic!(rt; "the game is refused");
    };
    assert_eq!(rt; game.states(), 1);
    assert_eq!(rt; game.own_actions(), 2);
    assert_eq!(rt; game.informed_actions(), 2);
    assert_eq!(rt; game.observations(), 1);
    assert_eq!(rt; game.span(), 65_536);
    let mut set = PointSet::new(rt.alloc(), &game);
    for number in 0..1024 {
        let Ok(point) = even_point(rt.alloc(), &game, i128::from(number), 65_536) else {
            panic!(rt; "out of memory");
        };
        assert!(rt; matches!(set.push(point), Ok(k) if k == number));
    }
    let Ok(point) = even_point(rt.alloc(), &game, 0, 65_536) else {
        panic!(rt; "out of memory");
    };
    assert!(rt; matches!(set.push(point), Err(PushFault::Full)));
    assert_eq!(rt; set.len(), 1024);
    assert_eq!(rt; set.point(2).value, 2);
}

/// A game of two states that stay, without a future: the action is paid that is the state.
fn two_states(alloc: Global) -> Result<Game, GameFault> {
    let shape = Shape {
        states: 2,
        own_actions: 2,
        informed_actions: 1,
        observations: 1,
        row_total: 1,
        discount: (0, 1),
    };
    let mut builder = GameBuilder::new(alloc, shape, &[1, 1])?;
    for (state, reward) in [(0, 1), (0, 0), (1, 0), (1, 1)] {
        builder.step(reward)?;
        builder.landing(0, state, 1)?;
    }
    builder.finish()
}

/// A point of that game without shares.
pub fn plain_point(
    alloc: Global,
    game: &Game,
    belief: Belief,
    value: i128,
) -> Result<Point, AllocError>
    requires states { game.now.shape.states ≡ 2 }
    requires informed { game.now.shape.informed_actions ≡ 1 }
    requires span { span game.now ≡ 65536 }
    requires belief { IsBelief 2 belief }
    requires coprime { AreCoprime belief }
    requires value { IsWithin (pos 0) (pos 65536 *ℤ sum_of belief) value }
    ensures fits { IfOk result (λ p. PointFits game.now most_points (point_data p)) }
    ensures belief { IfOk result (λ p. p.belief ≡ belief) }
{
    Ok(Point {
        belief,
        value,
        mixes: Mixes::of(alloc, game, &[65_536, 65_536])?,
        splits: Vec::new(alloc),
    })
}

/// The points at both corners of that game, each of value 65,536, and a third one.
fn three_points(
    alloc: Global,
    game: &Game,
    belief: Belief,
    value: i128,
) -> Result<PointSet, AllocError>
    requires states { game.now.shape.states ≡ 2 }
    requires informed { game.now.shape.informed_actions ≡ 1 }
    requires span { span game.now ≡ 65536 }
    requires belief { IsBelief 2 belief }
    requires coprime { AreCoprime belief }
    requires value { IsWithin (pos 0) (pos 65536 *ℤ sum_of belief) value }
    ensures { IfOk result (λ set. (m n : ℕ) → m + n ≤ 2 ^ 36 → AreMeasured set.members (pos m ∷ pos n ∷ [])) }
{
    law_game(game);
    let first = plain_point(alloc, game, Belief::corner(2, 0), 65_536)?;
    let second = plain_point(alloc, game, Belief::corner(2, 1), 65_536)?;
    let third = plain_point(alloc, game, belief, value)?;
    let mut set = PointSet::new(alloc, game);
    let Ok(_) = set.push(first) else {
        return Err(AllocError);
    };
    let Ok(_) = set.push(second) else {
        return Err(AllocError);
    };
    let Ok(_) = set.push(third) else {
        return Err(AllocError);
    };
    Ok(set)
}

#[test]
fn the_sawtooth_takes_the_even_point_twice(rt: HostRuntime) {
    let Ok(game) = two_states(rt.alloc()) else {
        panic!(rt; "the game is refused");
    };
    assert_eq!(rt; game.states(), 2);
    assert_eq!(rt; game.informed_actions(), 1);
    assert_eq!(rt; game.span(), 65_536);
    let Some(even) = Belief::of(&[1, 1]) else {
        panic!(rt; "no belief");
    };
    let Ok(mut set) = three_points(rt.alloc(), &game, even, 65_536) else {
        panic!(rt; "out of memory");
    };
    assert_eq!(rt; set.corner(0), 0);
    assert_eq!(rt; set.corner(1), 1);
    assert_eq!(rt; set.sawtooth(&[2, 3]), 196_608);
    assert_eq!(rt; set.best(&[2, 3]), Some(2));
    assert_eq!(rt; set.best(&[0, 3]), None);
    let Ok(lower) = plain_point(rt.alloc(), &game, Belief::corner(2, 1), 65_535) else {
        panic!(rt; "out of memory");
    };
    let Ok(number) = set.push(lower) else {
        panic!(rt; "out of memory");
    };
    assert_eq!(rt; number, 3);
    assert_eq!(rt; set.corner(1), 3);
}

#[test]
fn an_empty_set_reserves_two_places(rt: HostRuntime) {
    let Ok(game) = pennies(rt.alloc()) else {
        panic!(rt; "the game is refused");
    };
    let mut set = PointSet::new(rt.alloc(), &game);
    assert!(rt; matches!(set.reserve(2), Ok(())));
    assert_eq!(rt; set.len(), 0);
}

#[test]
fn a_tooth_split_takes_the_best_point_and_a_corner(rt: HostRuntime) {
    let Ok(game) = two_states(rt.alloc()) else {
        panic!(rt; "the game is refused");
    };
    assert_eq!(rt; game.states(), 2);
    assert_eq!(rt; game.informed_actions(), 1);
    assert_eq!(rt; game.span(), 65_536);
    let Some(belief) = Belief::of(&[1, 2]) else {
        panic!(rt; "no belief");
    };
    let Ok(set) = three_points(rt.alloc(), &game, belief, 98_304) else {
        panic!(rt; "out of memory");
    };
    let mut split = Split::new();
    set.tooth_split(&[65_536, 65_536], &mut split);
    assert_eq!(rt; split.len(), 2);
    assert!(rt; split.item(0) == (0, 32_768));
    assert!(rt; split.item(1) == (2, 32_768));
    assert_eq!(rt; set.sawtooth(&[65_536, 65_536]), 32_768 * 163_840);
}

#[test]
fn what_a_wanted_point_leaves_goes_to_the_corners(rt: HostRuntime) {
    let Ok(game) = two_states(rt.alloc()) else {
        panic!(rt; "the game is refused");
    };
    assert_eq!(rt; game.states(), 2);
    assert_eq!(rt; game.informed_actions(), 1);
    assert_eq!(rt; game.span(), 65_536);
    let Some(even) = Belief::of(&[1, 1]) else {
        panic!(rt; "no belief");
    };
    let Ok(set) = three_points(rt.alloc(), &game, even, 65_536) else {
        panic!(rt; "out of memory");
    };
    assert_eq!(rt; set.len(), 3);
    assert_eq!(rt; set.corner(0), 0);
    assert_eq!(rt; set.corner(1), 1);
    let mut split = Split::new();
    assert_eq!(rt; split.len(), 0);
    set.split_into(&[(2, 1)], &[2, 3], &mut split);
    assert_eq!(rt; split.len(), 2);
    assert!(rt; split.item(0) == (1, 1));
    assert!(rt; split.item(1) == (2, 2));
}

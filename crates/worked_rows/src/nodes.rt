//! Worked sets of nodes.

ghost use Rattle.alpha_set.specs.Members.{most_nodes, node_data};
ghost use Rattle.alpha_set.specs.Nodes.{NodeFits};
ghost use Rattle.game_model.specs.Game.{IsMass, IsWithin, span};
ghost use Rattle.std.specs.List.{AllByRecursion};
ghost use Rattle.std.specs.Prelude.{IfOk, length, neg_ℤ, pos, ◌<◌, ◌≡◌};

use alpha_set::{Node, NodeSet, PushFault, Step};
use game_model::{Game, GameBuilder, GameFault, Shape, law_game};
use std::alloc::{AllocError, Global};

/// One state, where the informed player pays 3 or 4 at each stage; the discount is a half.
fn three_or_four(alloc: Global) -> Result<Game, GameFault> {
    let shape = Shape {
        states: 1,
        own_actions: 1,
        informed_actions: 2,
        observations: 1,
        row_total: 1,
        discount: (1, 2),
    };
    let mut builder = GameBuilder::new(alloc, shape, &[1])?;
    for reward in [3, 4] {
        builder.step(reward)?;
        builder.landing(0, 0, 1)?;
    }
    builder.finish()
}

/// The node of this vector that goes on with node 0.
pub fn node_with(alloc: Global, game: &Game, vector: Vec<i128>) -> Result<Node, AllocError>
    requires own { game.now.shape.own_actions ≡ 1 }
    requires seen { game.now.shape.observations ≡ 1 }
    requires long { length vector.items ≡ game.now.shape.states }
    requires entries { AllByRecursion (IsWithin (neg_ℤ (pos (span game.now))) (pos (span game.now))) vector.items }
    ensures fits { IfOk result (λ n. NodeFits game.now most_nodes (node_data n)) }
    ensures named { IfOk result (λ n. AllByRecursion (λ step. step.member < 1) (node_data n).next) }
{
    let mix = vec![in alloc; 65_536]?;
    let step = Step {
        a: 0,
        o: 0,
        k: 0,
        weight: 65_536,
    };
    let next = vec![in alloc; step]?;
    Ok(Node { vector, mix, next })
}

/// The node of one entry that goes on with node 0.
fn node_of_one(alloc: Global, game: &Game, entry: i128) -> Result<Node, AllocError>
    requires states { game.now.shape.states ≡ 1 }
    requires own { game.now.shape.own_actions ≡ 1 }
    requires seen { game.now.shape.observations ≡ 1 }
    requires span { span game.now ≡ 524288 }
    requires entry { IsWithin (neg_ℤ (pos 524288)) (pos 524288) entry }
    ensures fits { IfOk result (λ n. NodeFits game.now most_nodes (node_data n)) }
    ensures named { IfOk result (λ n. AllByRecursion (λ step. step.member < 1) (node_data n).next) }
{
    node_with(alloc, game, vec![in alloc; entry]?)
}

/// The fault of a set of that node alone.
fn fault_of(alloc: Global, game: &Game, entry: i128) -> Result<Option<(u32, u32)>, AllocError>
    requires states { game.now.shape.states ≡ 1 }
    requires own { game.now.shape.own_actions ≡ 1 }
    requires seen { game.now.shape.observations ≡ 1 }
    requires span { span game.now ≡ 524288 }
    requires entry { IsWithin (neg_ℤ (pos 524288)) (pos 524288) entry }
{
    let node = node_of_one(alloc, game, entry)?;
    let mut set = NodeSet::new(alloc, game);
    let Ok(_) = set.push(node) else {
        return Err(AllocError);
    };
    Ok(set.stands(game, 0))
}

#[test]
fn a_node_worth_three_at_each_stage_stands_and_no_more(rt: HostRuntime) {
    let Ok(game) = three_or_four(rt.alloc()) else {
        panic!(rt; "the game is refused");
    };
    assert_eq!(rt; game.states(), 1);
    assert_eq!(rt; game.own_actions(), 1);
    assert_eq!(rt; game.observations(), 1);
    assert_eq!(rt; game.span(), 524_288);
    let stands = fault_of(rt.alloc(), &game, 393_216);
    assert!(rt; matches!(stands, Ok(None)));
    let fails = fault_of(rt.alloc(), &game, 393_217);
    assert!(rt; matches!(fails, Ok(Some((0, 0)))));
}

#[test]
fn a_push_answers_numbers_up_to_1023_and_then_full(rt: HostRuntime) {
    let Ok(game) = three_or_four(rt.alloc()) else {
        panic!(rt; "the game is refused");
    };
    assert_eq!(rt; game.states(), 1);
    assert_eq!(rt; game.own_actions(), 1);
    assert_eq!(rt; game.observations(), 1);
    assert_eq!(rt; game.span(), 524_288);
    let mut set = NodeSet::new(rt.alloc(), &game);
    for number in 0..1024 {
        let Ok(node) = node_of_one(rt.alloc(), &game, i128::from(number)) else {
            panic!(rt; "out of memory");
        };
        assert!(rt; matches!(set.push(node), Ok(i) if i == number));
    }
    let Ok(node) = node_of_one(rt.alloc(), &game, 0) else {
        panic!(rt; "out of memory");
    };
    assert!(rt; matches!(set.push(node), Err(PushFault::Full)));
    assert_eq!(rt; set.len(), 1024);
    assert!(rt; set.node(2).vector.as_slice() == [2].as_slice());
}

/// Two states without a future, where player one is paid 1.
fn one_in_two_states(alloc: Global) -> Result<Game, GameFault> {
    let shape = Shape {
        states: 2,
        own_actions: 1,
        informed_actions: 1,
        observations: 1,
        row_total: 1,
        discount: (0, 1),
    };
    let mut builder = GameBuilder::new(alloc, shape, &[1, 1])?;
    for reward in [1, 1] {
        builder.step(reward)?;
        builder.landing(0, 0, 1)?;
    }
    builder.finish()
}

/// What two nodes are worth at a mass, where each is worth a unit in one state and nothing in the other.
fn worth_of_two(alloc: Global, game: &Game, mass: &[i128]) -> Result<(i128, u32), AllocError>
    requires states { game.now.shape.states ≡ 2 }
    requires own { game.now.shape.own_actions ≡ 1 }
    requires seen { game.now.shape.observations ≡ 1 }
    requires span { span game.now ≡ 65536 }
    requires mass { IsMass game.now mass.now }
{
    law_game(game);
    let first = node_with(alloc, game, vec![in alloc; 65_536, 0]?)?;
    let second = node_with(alloc, game, vec![in alloc; 0, 65_536]?)?;
    let mut set = NodeSet::new(alloc, game);
    let Ok(_) = set.push(first) else {
        return Err(AllocError);
    };
    let Ok(_) = set.push(second) else {
        return Err(AllocError);
    };
    Ok(set.worth(mass))
}

#[test]
fn the_first_of_equal_nodes_is_worth_the_most(rt: HostRuntime) {
    let Ok(game) = one_in_two_states(rt.alloc()) else {
        panic!(rt; "the game is refused");
    };
    assert_eq!(rt; game.states(), 2);
    assert_eq!(rt; game.own_actions(), 1);
    assert_eq!(rt; game.observations(), 1);
    assert_eq!(rt; game.row_total(), 1);
    assert_eq!(rt; game.span(), 65_536);
    let equal = worth_of_two(rt.alloc(), &game, &[1, 1]);
    assert!(rt; matches!(equal, Ok((65_536, 0))));
    let second = worth_of_two(rt.alloc(), &game, &[1, 2]);
    assert!(rt; matches!(second, Ok((131_072, 1))));
}

#[test]
fn an_empty_set_reserves_two_places(rt: HostRuntime) {
    let Ok(game) = three_or_four(rt.alloc()) else {
        panic!(rt; "the game is refused");
    };
    let mut set = NodeSet::new(rt.alloc(), &game);
    assert!(rt; matches!(set.reserve(2), Ok(())));
    assert_eq!(rt; set.len(), 0);
}

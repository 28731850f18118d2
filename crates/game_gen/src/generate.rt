//! The game of a number and a size.

ghost use Rattle.game_gen.specs.Generated.{game_drawn, game_of, shape_of};
ghost use Rattle.game_gen.specs.Rows.{Serves, row_of, times};
ghost use Rattle.game_model.specs.Build.{HasRoom, IsLastRowFull};
ghost use Rattle.game_model.specs.Game.{IsGame, triples, weight_in};
ghost use Rattle.game_model.specs.declared.parts.Shape.{Shape};
ghost use Rattle.game_model.specs.declared.builder.GameFault.TheVariants as faults;
ghost use Rattle.rand_pcg.specs.Lcg.{Lcg};
ghost use Rattle.std.specs.Prelude.{IfErr, IfOk, List, OnOk, pos, replicate, ℕ, ◌*◌, ◌<◌, ◌≡◌, ◌≤◌};

use crate::rows::add_row;
use game_model::{Game, GameBuilder, GameFault, MOST_STATES, Shape, law_game};
use hsvi_draw::Draw;
use std::alloc::{AllocError, Global};

/// The game of a number and a size: each number and size have one. The game keeps every limit of games.
///
/// # Errors
///
/// Where no memory is to be had.
pub fn make(alloc: Global, number: u64, size: u32) -> Result<Game, AllocError>
    requires least { 1 ≤ size }
    requires most { size ≤ 16 }
    ensures game { IfOk result (λ game. game ≡ game_of number size) }
    ensures limits { IfOk result IsGame }
{
    match build(alloc, number, size) {
        Ok(game) => {
            law_game(&game);
            Ok(game)
        }
        Err(fault) => Err(want_of_memory(fault)),
    }
}

/// A law: the game of a number and a size keeps every limit of games. In the row of drawn pairs a pair weighs 25 for
/// each time that it was drawn.
pub fn law_made()
    ensures limits { (number size : ℕ) → 1 ≤ size → size ≤ 16 → IsGame (game_of number size) }
    ensures weights { (shape : Shape) (pairs : List (ℕ × ℕ)) (o t : ℕ) → o < shape.observations → t < shape.states →
        weight_in (row_of shape pairs) o t ≡ 25 * times pairs o t }
{}

/// The game of a number and a size. The builder refuses nothing of it, so only memory can be wanting.
fn build(alloc: Global, number: u64, size: u32) -> Result<Game, GameFault>
    requires least { 1 ≤ size }
    requires most { size ≤ 16 }
    ensures game { IfOk result (λ game. game ≡ game_of number size) }
    ensures memory { IfErr result (λ fault. fault ≡ faults.OutOfMemory) }
{
    let mut builder = begin(alloc, size)?;
    let mut draw = Draw::new(number);
    add_rows(&mut builder, &mut draw, &shape_of(size))?;
    finish(builder)
}

/// A builder of games of a size, without rows. Each first state is as likely as another.
fn begin(alloc: Global, size: u32) -> Result<GameBuilder, GameFault>
    requires least { 1 ≤ size }
    requires most { size ≤ 16 }
    ensures empty { IfOk result (λ builder. (g : Lcg) →
        builder ≡ game_drawn (shape_of size) (replicate size (pos 1)) g 0) }
    ensures memory { IfErr result (λ fault. fault ≡ faults.OutOfMemory) }
{
    let first = [1; MOST_STATES];
    GameBuilder::new(alloc, shape_of(size), &first[..size as usize])
}

/// The game of a builder that has all rows.
fn finish(builder: GameBuilder) -> Result<Game, GameFault>
    requires all { ¬ (HasRoom builder) }
    requires full { IsLastRowFull builder }
    ensures game { IfOk result (λ game. game ≡ builder) }
    ensures memory { IfErr result (λ fault. fault ≡ faults.OutOfMemory) }
{
    builder.finish()
}

/// The shape of the games of a size.
fn shape_of(size: u32) -> Shape
    requires { size ≤ 16 }
    ensures { result ≡ shape_of size }
{
    let actions = (1 + size / 3).min(4);
    Shape {
        states: size,
        own_actions: actions,
        informed_actions: actions,
        observations: (1 + size / 4).min(3),
        row_total: 100,
        discount: (19, 20),
    }
}

/// Adds the reward and the row of each triple of state, own action and informed action, in rising order.
fn add_rows(builder: &mut GameBuilder, draw: &mut Draw, shape: &Shape) -> Result<(), GameFault>
    requires serves { Serves shape.now }
    requires few { triples shape.now ≤ 256 }
    requires empty { builder.old ≡ game_drawn shape.now builder.old.first draw.old 0 }
    ensures added { OnOk result
        (builder.new ≡ game_drawn shape.now builder.old.first draw.old (triples shape.now)) }
    ensures memory { IfErr result (λ fault. fault ≡ faults.OutOfMemory) }
{
    for _ in 0..shape.states * shape.own_actions * shape.informed_actions {
        add_row(builder, draw, shape)?;
    }
    Ok(())
}

/// The builder's want of memory, as callers are told of it.
fn want_of_memory(fault: GameFault) -> AllocError
    requires { fault ≡ faults.OutOfMemory }
{
    drop(fault);
    AllocError
}

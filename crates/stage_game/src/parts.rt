//! Rows and parts of rows that both stage programs have.

ghost use Rattle.scaled_num.specs.Sums.{below};
ghost use Rattle.stage_game.specs.PairRow.{IsPairRow};
ghost use Rattle.stage_game.specs.Scaling.{mix_row};
ghost use Rattle.stage_game.specs.Variables.{Variable, variables};
ghost use Rattle.std.specs.Prelude.{IfOk, OnOk, List, cond, length, map, pos, ℕ, ℤ, ◌*◌, ◌+◌, ◌++◌, ◌<◌, ◌==◌, ◌≡◌, ◌≤◌};

use game_model::{Game, law_game};
use std::alloc::{AllocError, Global};

/// The number of variables of a stage program that goes on with so many members or next states.
pub fn variable_count(game: &Game, ends: usize) -> usize
    requires { ends ≤ 1024 }
    ensures { result ≡ game.now.shape.states + game.now.shape.own_actions + game.now.shape.own_actions
        * game.now.shape.observations * ends }
{
    law_game(game);
    let pairs = game.own_actions() as usize * game.observations() as usize;
    game.states() as usize + game.own_actions() as usize + pairs * ends
}

/// Pushes 1 at one place, and 0 at all others.
pub fn push_unit(place: u32, count: u32, row: &mut Vec<i128>) -> Result<(), AllocError>
    ensures { OnOk result
        (row.new.items ≡ row.old.items ++ map (λ t. cond (t == place) (pos 1) (pos 0)) (below count)) }
{
    for i in 0..count {
        row.push(one_at(i, place))?;
    }
    Ok(())
}

/// 1 at a place, and 0 elsewhere.
fn one_at(i: u32, place: u32) -> i128
    ensures { result ≡ cond (i == place) (pos 1) (pos 0) }
{
    if i == place { 1 } else { 0 }
}

/// The row of the mix: 1 at each own action.
pub fn mix_row(alloc: Global, game: &Game, ends: usize) -> Result<Vec<i128>, AllocError>
    requires { ends ≤ 1024 }
    ensures { IfOk result (λ row. (members : List ℕ) → length members ≡ ends →
        row.items ≡ map mix_row (variables game.now members)) }
{
    let states = game.states() as usize;
    let width = variable_count(game, ends);
    let mut row = Vec::with_capacity(alloc, width)?;
    row.resize(states, 0)?;
    row.resize(states + game.own_actions() as usize, 1)?;
    row.resize(width, 0)?;
    Ok(row)
}

/// A row about one own action and one observation: a number at the action, a block of numbers where play goes on
/// after both, and 0 elsewhere.
pub fn pair_row(
    alloc: Global,
    game: &Game,
    a: u32,
    o: u32,
    own: i128,
    block: &[i128],
) -> Result<Vec<i128>, AllocError>
    requires action { a < game.now.shape.own_actions }
    requires observation { o < game.now.shape.observations }
    requires few { length block.now ≤ 1024 }
    ensures { IfOk result (λ row. (number : Variable → ℤ) (ends : List ℕ) → length ends ≡ length block.now →
        IsPairRow number a o own ends block.now → row.items ≡ map number (variables game.now ends)) }
{
    law_game(game);
    let states = game.states() as usize;
    let width = variable_count(game, block.len());
    let pair = a as usize * game.observations() as usize + o as usize;
    let start = states + game.own_actions() as usize + pair * block.len();
    let mut row = Vec::with_capacity(alloc, width)?;
    row.resize(states + a as usize, 0)?;
    row.push(own)?;
    row.resize(start, 0)?;
    row.extend_from_slice(block)?;
    row.resize(width, 0)?;
    Ok(row)
}

//! The command `floor`: the guaranteed bound of always playing one action.
ghost use Rattle.game_model.specs.Game.{IsGame, first_at, numbers, span};
ghost use Rattle.game_model.specs.Numbers.{product};
ghost use Rattle.game_model.specs.Seeds.{IsSeed};
ghost use Rattle.osposg_cli.specs.Defined.{AreAnswered, IsDefined};
ghost use Rattle.osposg_cli.specs.Floor.{AnswersFloor, IsBound, IsFloor, IsSeedProduct, KeepsFloor, floor_lines};
ghost use Rattle.osposg_cli.specs.Floor.{floor_text};
ghost use Rattle.osposg_cli.specs.Inputs.{most_input};
ghost use Rattle.scaled_num.specs.Sums.{below, total};
ghost use Rattle.std.specs.List.{AllByRecursion};
ghost use Rattle.std.specs.Prelude.{IfOk, ℕ, ℤ, length, pos, slice_index_or, unsigned_abs, ◌*ℤ◌, ◌<ℤ◌, ◌<◌, ◌^◌};
ghost use Rattle.std.specs.Prelude.{◌≡◌, ◌≤◌};
ghost use Rattle.std.specs.String.{string_bytes};
ghost use Rattle.scaled_num.specs.Printed.{fraction_text};

use crate::answer::Answer;
use crate::inputs::{game_alone, law_texts};
use crate::status::Status;
use game_model::{Game, MOST_STATES, UNITS, law_game, law_seeds};
use scaled_num::Fraction;
use std::alloc::{AllocError, Global};

/// The answer of `floor` to a game text.
pub fn work(alloc: Global, bytes: &[u8]) -> Result<Answer, AllocError>
    requires { length bytes.now ≤ most_input }
    ensures { IfOk result (λ answer. AnswersFloor bytes.now answer.status answer.text.items) }
{
    match game_alone(alloc, bytes)? {
        Ok(game) => bound(alloc, &game),
        Err(refusal) => Ok(refusal),
    }
}

/// A law: the answer of `floor` is defined, and keeps its promise.
pub fn law_floor()
    ensures defined { IsDefined AnswersFloor }
    ensures some { AreAnswered AnswersFloor }
    ensures keeps { KeepsFloor }
{
    law_texts();
    game_text::law_decided_alone();
    law_seeds();
}

/// The bound of the best action, as an answer.
fn bound(alloc: Global, game: &Game) -> Result<Answer, AllocError>
    ensures { IfOk result (λ answer. IsBound game.now answer.status answer.text.items) }
{
    let floor = best_action(game);
    Ok(Answer {
        status: Status::Done,
        text: floor_text(alloc, game, &floor)?,
    })
}

/// The guaranteed bound of one fixed action.
#[derive(Clone, Copy, Debug, PartialEq, Eq)]
struct Floor {
    /// The own action that is always played.
    action: u32,
    /// The product of its seed vector with the first belief: the bound in units, times the belief's total.
    lower: i128,
}

/// The first own action whose seed vector has the greatest product with the first belief.
fn best_action(game: &Game) -> Floor
    ensures { IsFloor game.now result.action result.lower }
{
    law_game(game);
    let mut best = Floor {
        action: 0,
        lower: seed_product(game, 0),
    };
    for action in 1..game.own_actions() {
        let lower = seed_product(game, action);
        if lower > best.lower {
            best = Floor { action, lower };
        }
    }
    best
}

/// The product of the first belief with the seed vector of an action.
fn seed_product(game: &Game, action: u32) -> i128
    requires { action < game.now.shape.own_actions }
    ensures { IsSeedProduct game.now action result }
{
    law_game(game);
    let mut entries = [0; MOST_STATES];
    let vector = &mut entries[..game.states() as usize];
    game.steady(action, vector);
    game.first_product(vector)
}

/// What `floor` writes.
fn floor_text(alloc: Global, game: &Game, floor: &Floor) -> Result<Vec<u8>, AllocError>
    ensures { IfOk result (λ text. text.items ≡ floor_text game.now floor.now.action floor.now.lower) }
{
    law_game(game);
    let action = floor.action;
    let lower = print_over(alloc, floor.lower, game.first_total() * UNITS)?;
    let tail = print_over(alloc, game.span(), UNITS)?;
    lines(alloc, action, &lower, &tail)
}

/// The three lines of `floor`.
fn lines(alloc: Global, action: u32, lower: &str, tail: &str) -> Result<Vec<u8>, AllocError>
    ensures { IfOk result (λ text. text.items ≡ floor_lines action lower.now tail.now) }
{
    Ok(format!(in alloc; "action {action}\nlower {lower}\ntail {tail}\n")?.into_bytes())
}

/// A fraction in plain digits, not reduced.
fn print_over(alloc: Global, num: i128, den: i128) -> Result<String, AllocError>
    requires { pos 0 <ℤ den }
    ensures { IfOk result (λ text. string_bytes text ≡ fraction_text num den) }
{
    scaled_num::print(alloc, &Fraction { num, den })
}

//! The command `show`: the canonical text of a game.
ghost use Rattle.osposg_cli.specs.Defined.{AreAnswered, IsDefined};
ghost use Rattle.osposg_cli.specs.Inputs.{most_input};
ghost use Rattle.osposg_cli.specs.Show.{AnswersShow, IsShown, KeepsShow};
ghost use Rattle.std.specs.Prelude.{IfOk, length, ◌≤◌};

use crate::answer::Answer;
use crate::inputs::{game_alone, law_texts};
use crate::status::Status;
use game_model::Game;
use std::alloc::{AllocError, Global};

/// The answer of `show` to a game text.
pub fn work(alloc: Global, bytes: &[u8]) -> Result<Answer, AllocError>
    requires { length bytes.now ≤ most_input }
    ensures { IfOk result (λ answer. AnswersShow bytes.now answer.status answer.text.items) }
{
    match game_alone(alloc, bytes)? {
        Ok(game) => shown(alloc, &game),
        Err(refusal) => Ok(refusal),
    }
}

/// A law: the answer of `show` is defined, and keeps its promise.
pub fn law_show()
    ensures defined { IsDefined AnswersShow }
    ensures some { AreAnswered AnswersShow }
    ensures keeps { KeepsShow }
{
    law_texts();
    game_text::law_decided_alone();
    game_text::law_canonical();
}

/// The canonical text of a game, as an answer.
pub fn shown(alloc: Global, game: &Game) -> Result<Answer, AllocError>
    ensures { IfOk result (λ answer. IsShown game.now answer.status answer.text.items) }
{
    Ok(Answer {
        status: Status::Done,
        text: game_text::print(alloc, game)?,
    })
}

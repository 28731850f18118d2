//! The command `gen`: the text of a generated game.
ghost use Rattle.osposg_cli.specs.Generate.{AnswersGen, GenIsAnswered, GenIsDefined, KeepsGen};
ghost use Rattle.osposg_cli.specs.Words.{most_size};
ghost use Rattle.std.specs.Prelude.{IfOk, ◌≤◌};

use crate::answer::Answer;
use crate::show::shown;
use std::alloc::{AllocError, Global};

/// The answer of `gen` to a number and a size.
pub fn work(alloc: Global, number: u64, size: u32) -> Result<Answer, AllocError>
    requires least { 1 ≤ size }
    requires most { size ≤ most_size }
    ensures { IfOk result (λ answer. AnswersGen number size answer.status answer.text.items) }
{
    let game = game_gen::make(alloc, number, size)?;
    shown(alloc, &game)
}

/// A law: the answer of `gen` is defined, and keeps its promise.
pub fn law_generate()
    ensures defined { GenIsDefined }
    ensures some { GenIsAnswered }
    ensures keeps { KeepsGen }
{
    game_gen::law_made();
    game_text::law_canonical();
}

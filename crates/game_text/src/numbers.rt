//! The numbers that words stand for.
ghost use Rattle.std.specs.Prelude.{◌≡◌, ℕ, List, length, map, IfOk};
ghost use Rattle.text_words.specs.Fault.{Gives};
ghost use Rattle.text_words.specs.Forms.{numbers_said};
ghost use Rattle.text_words.specs.Lines.{line_in};
ghost use Rattle.game_text.specs.declared.fault.Kind.TheVariants as kinds;
ghost use Rattle.game_text.specs.Plain.{number_of, plain_word};

use crate::fault::Kind;
use std::alloc::Global;
use text_words::{LineFault, natural};

/// The number that a word stands for: one sign at most, and 1 to 36 digits.
#[tactic(auto, unfolding(crate::specs::Plain::number_of))]
fn number(word: &[u8]) -> Option<i128>
    ensures { result ≡ number_of word.now }
{
    match word {
        [b'-', digits @ ..] => Some(-(natural(digits)? as i128)),
        [b'+', digits @ ..] => Some(natural(digits)? as i128),
        digits => Some(natural(digits)? as i128),
    }
}

/// The numbers of words that all stand for numbers.
pub fn numbers(alloc: Global, words: &[&[u8]]) -> Result<Vec<i128>, LineFault<Kind>>
    ensures gives { Gives (λ numbers. numbers.items) result
        (numbers_said kinds.Number (map plain_word (line_in words.now))) }
    ensures count { IfOk result (λ numbers. length numbers.items ≡ length words.now) }
{
    let mut numbers = Vec::new(alloc);
    for word in words {
        let Some(number) = number(word) else {
            return Err(LineFault::Refused(Kind::Number));
        };
        numbers.push(number)?;
    }
    Ok(numbers)
}

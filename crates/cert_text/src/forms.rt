//! The words and numbers of one line.
ghost use Rattle.std.specs.Prelude.{◌≡◌, ◌==◌, length, map, IfOk};
ghost use Rattle.text_words.specs.Lines.{line_in, words_of};
ghost use Rattle.std.specs.List.{slice_split};
ghost use Rattle.cert_text.specs.Fault.{seen};
ghost use Rattle.text_words.specs.Fault.{Fills, Gives};
ghost use Rattle.controller.specs.Data.{ending_of};
ghost use Rattle.cert_text.specs.View.{fraction_is};
ghost use Rattle.cert_text.specs.Forms.{are_words, version_line, numbers_after, word_after, outcome_of, fraction_of, fraction_from};

use crate::fault::CertKind;
use controller::Outcome;
use std::alloc::{AllocError, Global};
use text_words::{LineFault, first_word};

/// The numbers of a line that has this first word and this many numbers.
pub fn numbers_after(
    alloc: Global,
    line: &[u8],
    name: &[u8],
    count: usize,
) -> Result<Vec<i128>, LineFault<CertKind>>
    ensures gives { Gives (λ numbers. numbers.items) result (numbers_after name.now count (words_of line.now)) }
    ensures count { IfOk result (λ numbers. length numbers.items ≡ count) }
{
    text_words::numbers_after(alloc, CertKind::Shape, CertKind::Number, line, name, count)
}

/// Reads the numbers of a line that has this first word and as many numbers as there is room for.
pub fn read_numbers(line: &[u8], name: &[u8], numbers: &mut [i128]) -> Result<(), CertKind>
    ensures said { Fills result numbers.new (numbers_after name.now (length numbers.old) (words_of line.now)) }
    ensures count { length numbers.new ≡ length numbers.old }
{
    text_words::read_numbers(CertKind::Shape, CertKind::Number, line, name, numbers)
}

/// The one word after this first word.
#[tactic(auto, unfolding(crate::specs::Forms::word_after))]
pub fn word_after<'a>(line: &'a [u8], name: &[u8]) -> Result<&'a [u8], CertKind>
    ensures { seen (λ word. word.now) result ≡ word_after name.now (words_of line.now) }
{
    match first_word(line) {
        (first, Some(rest)) if first == name => match first_word(rest) {
            (word, None) => Ok(word),
            (_, Some(_)) => Err(CertKind::Shape),
        },
        _ => Err(CertKind::Shape),
    }
}

/// Whether the line is these two words.
#[tactic(auto, unfolding(crate::specs::Forms::are_words))]
fn are_words(name: &[u8], second: &[u8], line: &[u8]) -> bool
    ensures { result ≡ are_words name.now second.now (words_of line.now) }
{
    match first_word(line) {
        (first, Some(rest)) => match first_word(rest) {
            (word, None) => first == name && word == second,
            (_, Some(_)) => false,
        },
        (_, None) => false,
    }
}

/// The version that the line `certificate 1` or `certificate 2` says.
#[tactic(auto, unfolding(crate::specs::Forms::version_line))]
pub fn version(line: &[u8]) -> Result<u32, CertKind>
    ensures { result ≡ version_line (words_of line.now) }
{
    if are_words(b"certificate", b"1", line) {
        Ok(1)
    } else if are_words(b"certificate", b"2", line) {
        Ok(2)
    } else {
        Err(CertKind::Version)
    }
}

/// The outcome that a word says.
#[tactic(auto, unfolding(crate::specs::Forms::outcome_of))]
pub fn outcome_of(word: &[u8]) -> Result<Outcome, CertKind>
    ensures { seen ending_of result ≡ outcome_of word.now }
{
    if word == b"closed".as_slice() {
        Ok(Outcome::Closed)
    } else if word == b"trials".as_slice() {
        Ok(Outcome::Trials)
    } else if word == b"full".as_slice() {
        Ok(Outcome::Full)
    } else {
        Err(CertKind::Shape)
    }
}

/// The numerator and the denominator that two words say.
#[tactic(auto, unfolding(crate::specs::Forms::fraction_from))]
fn fraction_from(pieces: &[&[u8]]) -> Result<(i128, i128), CertKind>
    ensures { seen fraction_is result ≡ fraction_from (line_in pieces.now) }
{
    match pieces {
        [num, den] => {
            let over = text_words::number(num).ok_or(CertKind::Number)?;
            let under = text_words::number(den).ok_or(CertKind::Number)?;
            Ok((over, under))
        }
        _ => Err(CertKind::Number),
    }
}

/// The pieces of a word around each `/`.
fn pieces(alloc: Global, word: &[u8]) -> Result<Vec<&[u8]>, AllocError>
    ensures { IfOk result (λ pieces. map (λ piece. piece.now) pieces.items ≡ slice_split (λ b. b == 47) word.now) }
{
    word.split(|b| *b == b'/').collect(alloc)
}

/// The numerator and the denominator that a fraction word says.
#[tactic(auto, unfolding(crate::specs::Forms::fraction_of))]
pub fn fraction_of(alloc: Global, word: &[u8]) -> Result<(i128, i128), LineFault<CertKind>>
    ensures { Gives fraction_is result (fraction_of word.now) }
{
    let pieces = pieces(alloc, word)?;
    Ok(fraction_from(&pieces)?)
}

//! The lines of a text that have words: how they part into words, and how they are counted.
ghost use Rattle.std.specs.Prelude.{◌≡◌, ◌+◌, ◌<◌, ◌≤◌, ◌^◌, [], ◌∷◌, length, IfOk, IfErr};
ghost use Rattle.text_words.specs.Lines.{line_in};
ghost use Rattle.game_text.specs.Plain.{before_comment, last_piece, open_words, pieces_of, plain_line, without_return, words_in, words_of, worded_in};
ghost use Rattle.game_text.specs.Places.{IsNoLine};

use crate::fault::{Kind, TextFault};
use std::alloc::{AllocError, Global};
use text_words::split_line;

/// A line without the carriage return that stands last.
#[tactic(auto, unfolding(crate::specs::Plain::without_return))]
fn without_return(line: &[u8]) -> &[u8]
    ensures { result.now ≡ without_return line.now }
{
    match line {
        [front @ .., b'\r'] => front,
        _ => line,
    }
}

/// What stands before the comment.
fn before_comment(line: &[u8]) -> &[u8]
    ensures { result.now ≡ before_comment line.now }
{
    match line.iter().position(|b| *b == b'#') {
        Some(end) => &line[..end],
        None => line,
    }
}

/// The words of a piece: what stands between spaces and tabs, before the comment.
fn words_in(alloc: Global, piece: &[u8]) -> Result<Vec<&[u8]>, AllocError>
    ensures { IfOk result (λ words. line_in words.items ≡ words_in piece.now) }
{
    before_comment(piece)
        .split(|b| *b == b' ' || *b == b'\t')
        .filter(|word| !word.is_empty())
        .collect(alloc)
}

/// The words of a line.
fn words_of(alloc: Global, line: &[u8]) -> Result<Vec<&[u8]>, AllocError>
    ensures { IfOk result (λ words. line_in words.items ≡ words_of line.now) }
{
    words_in(alloc, without_return(line))
}

/// The words of the next line that has some, what follows it, and its number, where so many lines stand before the
/// text. Without one the line that is not whole is missing.
pub fn next_words(
    alloc: Global,
    text: &[u8],
    before: u32,
) -> Result<(Vec<&[u8]>, &[u8], u32), TextFault>
    requires few { before + length text.now < 2 ^ 31 }
    ensures line { IfOk result (λ found. worded_in before text.now ≡
        record { number = found.2; words = plain_line (line_in found.0.items); after = found.1.now }
        ∷ worded_in found.2 found.1.now) }
    ensures counted { IfOk result (λ found.
        found.2 + length (pieces_of found.1.now) ≡ before + length (pieces_of text.now)) }
    ensures shorter { IfOk result (λ found. found.2 + length found.1.now ≤ before + length text.now) }
    ensures later { IfOk result (λ found. before < found.2) }
    ensures missing { IfErr result (IsNoLine before text.now) }
{
    let mut rest = text;
    let mut number = before;
    while let Some((line, after)) = split_line(rest) {
        number += 1;
        let words = words_of(alloc, line)?;
        if !words.is_empty() {
            return Ok((words, after, number));
        }
        rest = after;
    }
    Err(TextFault::Line {
        line: number + 1,
        kind: Kind::Missing,
    })
}

/// The piece behind the last line feed.
fn last_piece(text: &[u8]) -> &[u8]
    ensures { result.now ≡ last_piece text.now }
{
    let mut rest = text;
    while let Some((_, after)) = split_line(rest) {
        rest = after;
    }
    rest
}

/// The words of the piece behind the last line feed.
pub fn open_words(alloc: Global, text: &[u8]) -> Result<Vec<&[u8]>, AllocError>
    ensures { IfOk result (λ words. line_in words.items ≡ open_words text.now) }
{
    words_in(alloc, last_piece(text))
}

/// How many line feeds there are.
pub fn line_feeds(text: &[u8]) -> usize
    ensures pieces { result + 1 ≡ length (pieces_of text.now) }
    ensures few { result ≤ length text.now }
{
    text.iter().filter(|b| **b == b'\n').count()
}

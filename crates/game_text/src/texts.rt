//! Reads the text of a game, alone or at the front of a longer input.
ghost use Rattle.std.specs.Prelude.{◌≡◌, ◌+◌, ◌^◌, ◌<◌, ◌≤◌, [], ◌∷◌, ◌++◌, length, drop, IfOk, IfErr, OnOk};
ghost use Rattle.game_text.specs.declared.fault.Kind.TheVariants as kinds;
ghost use Rattle.game_text.specs.declared.fault.TextFault.TheVariants as texts;
ghost use Rattle.game_text.specs.Text.{IsTextOf, IsWholeTextOf};
ghost use Rattle.game_text.specs.Built.{EndsAt};
ghost use Rattle.game_text.specs.Answers.{IsGameIn, IsMore, IsRefused, IsRefusedAlone, IsRefusedWhole, IsNoFront, IsNoText, IsNotTrailing, told_at};
ghost use Rattle.game_text.specs.Plain.{IsWordless, is_end, open_words};
ghost use Rattle.game_text.specs.Steps.{IsStopped};

use crate::body::read_rows;
use crate::build::build;
use crate::fault::{Kind, TextFault};
use crate::header::read_header;
use crate::lines::{line_feeds, next_words, open_words};
use crate::progress::{Latest, Progress};
use game_model::{Game, law_game};
use std::alloc::{AllocError, Global};

/// Reads a game text at the front of the bytes. Answers the game, the offset after its `end` line, and how many lines
/// stand before that.
fn read_front(alloc: Global, bytes: &[u8]) -> Result<(Game, usize, u32), TextFault>
    requires { length bytes.now ≤ 2 ^ 28 }
    ensures offset { IfOk result (λ found. found.1 ≤ length bytes.now) }
    ensures few { IfOk result (λ found. found.2 + (length (drop found.1 bytes.now)) ≤ length bytes.now) }
    ensures ends { IfOk result (λ found. EndsAt bytes.now found.2 (drop found.1 bytes.now)) }
    ensures game { IfOk result (λ found. IsTextOf found.0 bytes.now (drop found.1 bytes.now)) }
    ensures refused { IfErr result (IsStopped bytes.now) }
{
    let (header, body, lines) = read_header(alloc, bytes)?;
    let start = Progress {
        shape: header.shape,
        begun: 0,
        sum: 0,
        latest: Latest::Start,
    };
    let (entries, rest, lines) = read_rows(alloc, start, body, lines)?;
    let game = build(alloc, &header, &entries)?;
    law_game(&game);
    Ok((game, bytes.len() - rest.len(), lines))
}

/// Reads a game text at the front of the bytes. Answers the game, and the offset after the line feed of its `end`
/// line.
///
/// # Errors
///
/// `Line` exactly where no text of a game stands at the front: with the first refused line, counted from 1, and
/// its least kind, which is not `Trailing`. `OutOfMemory` where there is not enough memory.
pub fn read(alloc: Global, bytes: &[u8]) -> Result<(Game, usize), TextFault>
    requires { length bytes.now ≤ 2 ^ 27 }
    ensures offset { IfOk result (λ found. found.1 ≤ length bytes.now) }
    ensures game { IfOk result (λ found. IsTextOf found.0 bytes.now (drop found.1 bytes.now)) }
    ensures refused { IfErr result (IsRefused bytes.now) }
    ensures not_trailing { IfErr result IsNotTrailing }
    ensures no_game { IfErr result (IsNoFront bytes.now) }
{
    let (game, offset, _) = read_front(alloc, bytes)?;
    Ok((game, offset))
}

/// Whether the bytes have no words, where so many lines stand before them. The first line that has some is refused.
fn nothing_more(alloc: Global, bytes: &[u8], before: u32) -> Result<(), TextFault>
    requires { before + length bytes.now < 2 ^ 31 }
    ensures wordless { OnOk result (IsWordless bytes.now) }
    ensures more { IfErr result (IsMore before bytes.now) }
{
    let line = match next_words(alloc, bytes, before) {
        Ok((_, _, line)) => return Err(trailing(line)),
        Err(TextFault::OutOfMemory) => return Err(TextFault::OutOfMemory),
        Err(TextFault::Line { line, .. }) => line,
    };
    let words = open_words(alloc, bytes)?;
    if !words.is_empty() {
        return Err(trailing(line));
    }
    Ok(())
}

/// The fault of a line that has words and follows the `end` line.
fn trailing(line: u32) -> TextFault
    ensures { result ≡ texts.Line line kinds.Trailing }
{
    TextFault::Line {
        line,
        kind: Kind::Trailing,
    }
}

/// Reads a game text that is the whole of the bytes, in which each line is ended.
fn read_whole(alloc: Global, bytes: &[u8]) -> Result<Game, TextFault>
    requires { length bytes.now ≤ 2 ^ 28 }
    ensures game { IfOk result (IsGameIn bytes.now) }
    ensures refused { IfErr result (IsRefusedWhole bytes.now) }
{
    let (game, offset, lines) = read_front(alloc, bytes)?;
    nothing_more(alloc, &bytes[offset..], lines)?;
    Ok(game)
}

/// Whether the only word behind the last line feed is `end`.
fn ends_open(alloc: Global, bytes: &[u8]) -> Result<bool, AllocError>
    ensures { IfOk result (λ ended. ended ≡ is_end (open_words bytes.now)) }
{
    let words = open_words(alloc, bytes)?;
    Ok(match words.as_slice() {
        [word] => *word == b"end".as_slice(),
        _ => false,
    })
}

/// The bytes with a line feed behind them.
fn with_line_feed(alloc: Global, bytes: &[u8]) -> Result<Vec<u8>, TextFault>
    requires { length bytes.now ≤ 2 ^ 27 }
    ensures bytes { IfOk result (λ text. text.items ≡ bytes.now ++ 10 ∷ []) }
    ensures memory { IfErr result (λ fault. fault ≡ texts.OutOfMemory) }
{
    let mut text = Vec::with_capacity(alloc, bytes.len() + 1)?;
    text.extend_from_slice(bytes)?;
    text.push(b'\n')?;
    Ok(text)
}

/// The fault of a text whose line of this number is a piece that was read as a whole `end` line: it is missing where
/// another line is due.
fn told(fault: TextFault, last: u32) -> TextFault
    ensures { result ≡ told_at last fault }
{
    match fault {
        TextFault::Line {
            line,
            kind: Kind::Version | Kind::Shape,
        } if line == last => TextFault::Line {
            line,
            kind: Kind::Missing,
        },
        _ => fault,
    }
}

/// Reads a game text that is the whole of the bytes. Its `end` line may lack its line end, and lines without words
/// may follow it.
///
/// # Errors
///
/// `Line` exactly where the bytes are no text of a game: with the first refused line, counted from 1, and its
/// least kind. It is `Trailing`, at the first line after `end` that has words, where there is one behind the text of
/// a game. `OutOfMemory` where there is not enough memory.
pub fn read_alone(alloc: Global, bytes: &[u8]) -> Result<Game, TextFault>
    requires { length bytes.now ≤ 2 ^ 27 }
    ensures game { IfOk result (λ game. IsWholeTextOf game bytes.now) }
    ensures refused { IfErr result (IsRefusedAlone bytes.now) }
    ensures no_game { IfErr result (IsNoText bytes.now) }
{
    if !ends_open(alloc, bytes)? {
        return read_whole(alloc, bytes);
    }
    let text = with_line_feed(alloc, bytes)?;
    match read_whole(alloc, &text) {
        Ok(game) => Ok(game),
        Err(fault) => Err(told(fault, line_feeds(bytes) as u32 + 1)),
    }
}

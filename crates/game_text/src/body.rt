//! Reads the rows and the `end` line.
ghost use Rattle.std.specs.Prelude.{◌≡◌, ◌+◌, ◌^◌, ◌<◌, ◌≤◌, ℕ, List, length, IfOk, IfErr};
ghost use Rattle.game_text.specs.Built.{IsEnded};
ghost use Rattle.game_text.specs.Places.{IsAt, Moves};
ghost use Rattle.game_text.specs.Progress.{IsProgress, IsOpen, FitsProgress, entry_in, progress_of, progress_after, said};
ghost use Rattle.game_text.specs.Steps.{IsStopped};
ghost use Rattle.game_text.specs.Entries.{Entry};

use crate::fault::{TextFault, numbered};
use crate::lines::{line_feeds, next_words};
use crate::progress::{Latest, Progress, RowEntry};
use crate::rows::row_line;
use std::alloc::Global;

/// What the next line says where the reading is this far, what follows it, and its number.
fn next_row<'a>(
    alloc: Global,
    progress: &Progress,
    text: &'a [u8],
    before: u32,
) -> Result<(RowEntry, &'a [u8], u32), TextFault>
    requires progress { IsProgress progress.now }
    requires few { before + length text.now < 2 ^ 31 }
    ensures moves { (whole : List ℕ) (count : ℕ) (entries : List Entry) → IsAt whole count entries before text.now →
        progress.now ≡ progress_of entries → IsOpen entries → Moves entry_in whole count entries result }
    ensures fits { IfOk result (λ found. FitsProgress progress.now found.0) }
    ensures shorter { IfOk result (λ found. found.2 + length found.1.now ≤ before + length text.now) }
    ensures later { IfOk result (λ found. before < found.2) }
{
    let (words, rest, line) = next_words(alloc, text, before)?;
    let entry = numbered(row_line(alloc, progress, &words), line)?;
    Ok((entry, rest, line))
}

/// How far the reading is after a line.
fn progress_after(progress: Progress, entry: RowEntry) -> Progress
    requires begun { progress.begun + 1 < 2 ^ 32 }
    requires progress { IsProgress progress }
    requires fits { FitsProgress progress entry }
    ensures after { result ≡ progress_after progress entry }
    ensures keeps { IsProgress result }
{
    match entry {
        RowEntry::Step { .. } => Progress {
            begun: progress.begun + 1,
            sum: 0,
            latest: Latest::Row,
            ..progress
        },
        RowEntry::Out(landing) => Progress {
            sum: progress.sum + landing.weight,
            latest: Latest::Pair(landing.seen, landing.to),
            ..progress
        },
        RowEntry::End => progress,
    }
}

/// Reads the rows and the `end` line, from behind a header of five lines that have words. Answers the entries, what
/// follows, and how many lines stand before that.
pub fn read_rows(
    alloc: Global,
    start: Progress,
    text: &[u8],
    before: u32,
) -> Result<(Vec<RowEntry>, &[u8], u32), TextFault>
    requires progress { IsProgress start }
    requires begun { start.begun ≡ 0 }
    requires few { before + length text.now < 2 ^ 31 }
    ensures ended { (entries : List Entry) → IfOk result (λ found. IsEnded (said found.0.items entries)) }
    ensures found { (whole : List ℕ) (entries : List Entry) → IsAt whole 5 entries before text.now →
        start ≡ progress_of entries → IsOpen entries → IfOk result (λ found.
        IsAt whole (5 + length found.0.items) (said found.0.items entries) found.2 found.1.now) }
    ensures shorter { IfOk result (λ found. found.2 + length found.1.now ≤ before + length text.now) }
    ensures refused { (whole : List ℕ) (entries : List Entry) → IsAt whole 5 entries before text.now →
        start ≡ progress_of entries → IsOpen entries → IfErr result (IsStopped whole) }
{
    let Ok(mut entries) = Vec::with_capacity(alloc, line_feeds(text)) else {
        return Err(TextFault::OutOfMemory);
    };
    let mut progress = start;
    let mut rest = text;
    let mut lines = before;
    loop {
        let (entry, after, line) = next_row(alloc, &progress, rest, lines)?;
        entries.push(entry)?;
        rest = after;
        lines = line;
        if let RowEntry::End = entry {
            return Ok((entries, rest, lines));
        }
        progress = progress_after(progress, entry);
    }
}

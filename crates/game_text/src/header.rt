//! Reads the five lines before the rows.
ghost use Rattle.std.specs.Prelude.{◌≡◌, ◌≤◌, ◌<◌, ◌+◌, ◌^◌, ℕ, ℤ, List, [], ◌∷◌, length, IfOk, IfErr, MatchResult, pos, ◌≤ℤ◌};
ghost use Rattle.game_model.specs.Limits.{most_row_total, most_states};
ghost use Rattle.text_words.specs.Lines.{line_in};
ghost use Rattle.game_text.specs.Plain.{plain_line};
ghost use Rattle.game_model.specs.Game.{IsShape, IsWithin};
ghost use Rattle.text_words.specs.Fault.{Gives};
ghost use Rattle.game_text.specs.Places.{IsAt, Moves};
ghost use Rattle.game_text.specs.Entries.{Entry, Version, Size, Total, Discount, First, shape_in, size_said, total_said, discount_said, first_said};
ghost use Rattle.game_text.specs.Header.{AreSizes, said_by, size_in};
ghost use Rattle.game_text.specs.Steps.{IsStopped};
ghost use Rattle.game_text.specs.Limits.{IsDiscount};

use crate::fault::{Kind, TextFault, numbered};
use crate::forms::{discount_within, numbers_after, total_within, version, within};
use crate::lines::next_words;
use game_model::{
    MOST_ACTIONS, MOST_BELIEF, MOST_OBSERVATIONS, MOST_ROW_TOTAL, MOST_STATES, Shape,
};
use std::alloc::Global;
use text_words::{LineFault, each_within, limited};

/// The lines before the rows.
#[derive(Debug, Drop)]
pub struct Header {
    pub shape: Shape,
    pub first: Vec<i128>,
}

/// How many states, own actions, informed actions and observations there are.
#[derive(Clone, Copy, Debug)]
struct Sizes {
    states: u32,
    own_actions: u32,
    informed_actions: u32,
    observations: u32,
}

fn version_line(alloc: Global, text: &[u8]) -> Result<(&[u8], u32), TextFault>
    requires { length text.now < 2 ^ 31 }
    ensures moves { MatchResult result (λ found. IsAt text.now 1 (Version ∷ []) found.1 found.0.now)
        (IsStopped text.now) }
    ensures shorter { IfOk result (λ found. found.1 + length found.0.now ≤ length text.now) }
{
    let (words, rest, line) = next_words(alloc, text, 0)?;
    match version(&words) {
        Ok(()) => Ok((rest, line)),
        Err(kind) => Err(TextFault::Line { line, kind }),
    }
}

#[tactic(auto, unfolding(crate::specs::Entries::size_said))]
fn size_said(alloc: Global, words: &[&[u8]]) -> Result<Sizes, LineFault<Kind>>
    ensures gives { Gives size_in result (size_said (plain_line (line_in words.now))) }
    ensures limits { IfOk result AreSizes }
{
    let numbers = numbers_after(alloc, words, b"size", 4)?;
    Ok(Sizes {
        states: within(1, MOST_STATES as u32, numbers[0])?,
        own_actions: within(1, MOST_ACTIONS, numbers[1])?,
        informed_actions: within(1, MOST_ACTIONS, numbers[2])?,
        observations: within(1, MOST_OBSERVATIONS, numbers[3])?,
    })
}

#[tactic(auto, unfolding(crate::specs::Entries::total_said))]
fn total_said(alloc: Global, words: &[&[u8]]) -> Result<i128, LineFault<Kind>>
    ensures gives { Gives (λ total. Total total) result (total_said (plain_line (line_in words.now))) }
    ensures least { IfOk result (λ total. pos 1 ≤ℤ total) }
    ensures most { IfOk result (λ total. total ≤ℤ pos most_row_total) }
{
    let numbers = numbers_after(alloc, words, b"total", 1)?;
    Ok(limited(Kind::Range, 1, MOST_ROW_TOTAL, numbers[0])?)
}

#[tactic(auto, unfolding(crate::specs::Entries::discount_said))]
fn discount_said(alloc: Global, words: &[&[u8]]) -> Result<(i128, i128), LineFault<Kind>>
    ensures gives { Gives (λ discount. Discount discount.0 discount.1) result (discount_said (plain_line (line_in words.now))) }
    ensures limits { IfOk result IsDiscount }
{
    let numbers = numbers_after(alloc, words, b"discount", 2)?;
    Ok(discount_within(numbers[0], numbers[1])?)
}

#[tactic(auto, unfolding(crate::specs::Entries::first_said))]
fn first_said(alloc: Global, words: &[&[u8]], states: u32) -> Result<Vec<i128>, LineFault<Kind>>
    requires { states ≤ most_states }
    ensures { Gives (λ weights. First weights.items) result (first_said states (plain_line (line_in words.now))) }
{
    let weights = numbers_after(alloc, words, b"first", states as usize)?;
    each_within(Kind::Range, 0, MOST_BELIEF, &weights)?;
    total_within(&weights)?;
    Ok(weights)
}

fn size_line(alloc: Global, text: &[u8], before: u32) -> Result<(Sizes, &[u8], u32), TextFault>
    requires { before + length text.now < 2 ^ 31 }
    ensures moves { (whole : List ℕ) → IsAt whole 1 (Version ∷ []) before text.now →
        Moves size_in whole 1 (Version ∷ []) result }
    ensures limits { IfOk result (λ found. AreSizes found.0) }
    ensures shorter { IfOk result (λ found. found.2 + length found.1.now ≤ before + length text.now) }
{
    let (words, rest, line) = next_words(alloc, text, before)?;
    let sizes = numbered(size_said(alloc, &words), line)?;
    Ok((sizes, rest, line))
}

fn total_line(alloc: Global, text: &[u8], before: u32) -> Result<(i128, &[u8], u32), TextFault>
    requires { before + length text.now < 2 ^ 31 }
    ensures moves { (whole : List ℕ) (s a c o : ℕ) (entries : List Entry) →
        IsAt whole 2 (Size s a c o ∷ entries) before text.now →
        Moves (λ total. Total total) whole 2 (Size s a c o ∷ entries) result }
    ensures limits { IfOk result (λ found. IsWithin (pos 1) (pos most_row_total) found.0) }
    ensures shorter { IfOk result (λ found. found.2 + length found.1.now ≤ before + length text.now) }
{
    let (words, rest, line) = next_words(alloc, text, before)?;
    let total = numbered(total_said(alloc, &words), line)?;
    Ok((total, rest, line))
}

fn discount_line(
    alloc: Global,
    text: &[u8],
    before: u32,
) -> Result<((i128, i128), &[u8], u32), TextFault>
    requires { before + length text.now < 2 ^ 31 }
    ensures moves { (whole : List ℕ) (total : ℤ) (entries : List Entry) →
        IsAt whole 3 (Total total ∷ entries) before text.now →
        Moves (λ discount. Discount discount.0 discount.1) whole 3 (Total total ∷ entries) result }
    ensures limits { IfOk result (λ found. IsDiscount found.0) }
    ensures shorter { IfOk result (λ found. found.2 + length found.1.now ≤ before + length text.now) }
{
    let (words, rest, line) = next_words(alloc, text, before)?;
    let discount = numbered(discount_said(alloc, &words), line)?;
    Ok((discount, rest, line))
}

fn first_line(
    alloc: Global,
    states: u32,
    text: &[u8],
    before: u32,
) -> Result<(Vec<i128>, &[u8], u32), TextFault>
    requires states { states ≤ most_states }
    requires few { before + length text.now < 2 ^ 31 }
    ensures moves { (whole : List ℕ) (over under : ℤ) (entries : List Entry) → (shape_in entries).states ≡ states →
        IsAt whole 4 (Discount over under ∷ entries) before text.now →
        Moves (λ weights. First weights.items) whole 4 (Discount over under ∷ entries) result }
    ensures shorter { IfOk result (λ found. found.2 + length found.1.now ≤ before + length text.now) }
{
    let (words, rest, line) = next_words(alloc, text, before)?;
    let first = numbered(first_said(alloc, &words, states), line)?;
    Ok((first, rest, line))
}

/// The header of a text, what follows it, and how many lines stand before that.
pub fn read_header(alloc: Global, text: &[u8]) -> Result<(Header, &[u8], u32), TextFault>
    requires { length text.now < 2 ^ 31 }
    ensures found { IfOk result (λ found. IsAt text.now 5 (said_by found.0) found.2 found.1.now) }
    ensures shape { IfOk result (λ found. IsShape found.0.shape) }
    ensures shorter { IfOk result (λ found. found.2 + length found.1.now ≤ length text.now) }
    ensures refused { IfErr result (IsStopped text.now) }
{
    let (rest, line) = version_line(alloc, text)?;
    let (sizes, rest, line) = size_line(alloc, rest, line)?;
    let (row_total, rest, line) = total_line(alloc, rest, line)?;
    let (discount, rest, line) = discount_line(alloc, rest, line)?;
    let (first, rest, line) = first_line(alloc, sizes.states, rest, line)?;
    let shape = Shape {
        states: sizes.states,
        own_actions: sizes.own_actions,
        informed_actions: sizes.informed_actions,
        observations: sizes.observations,
        row_total,
        discount,
    };
    Ok((Header { shape, first }, rest, line))
}

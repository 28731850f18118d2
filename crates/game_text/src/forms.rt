//! The words and numbers of one line, and their limits.
ghost use Rattle.std.specs.Prelude.{◌≡◌, ◌≤◌, false, codes, length, IfOk, All, pos, ◌≤ℤ◌};
ghost use Rattle.std.specs.Str.{bytes_eq};
ghost use Rattle.text_words.specs.Lines.{line_in};
ghost use Rattle.game_text.specs.Plain.{plain_line};
ghost use Rattle.game_model.specs.Limits.{most_belief, most_states};
ghost use Rattle.scaled_num.specs.Sums.{sum_of};
ghost use Rattle.game_text.specs.Limits.{IsDiscount};
ghost use Rattle.text_words.specs.Fault.{Gives};
ghost use Rattle.game_text.specs.Forms.{within, version_line, discount_within, total_within, numbers_after};

use crate::fault::Kind;
use crate::numbers::numbers;
use game_model::{MOST_BELIEF, MOST_DISCOUNT};
use scaled_num::sum;
use std::alloc::Global;
use text_words::{LineFault, is_within};

/// The numbers of a line that has this first word and this many numbers. The word is not `osposg`, whose line has
/// one spelling.
pub fn numbers_after(
    alloc: Global,
    words: &[&[u8]],
    name: &[u8],
    count: usize,
) -> Result<Vec<i128>, LineFault<Kind>>
    requires { bytes_eq name.now (codes "osposg") ≡ false }
    ensures gives { Gives (λ numbers. numbers.items) result
        (numbers_after name.now count (plain_line (line_in words.now))) }
    ensures count { IfOk result (λ numbers. length numbers.items ≡ count) }
{
    match words {
        [first, rest @ ..] if *first == name && rest.len() == count => numbers(alloc, rest),
        _ => Err(LineFault::Refused(Kind::Shape)),
    }
}

/// The line is `osposg 1`.
#[tactic(auto, unfolding(crate::specs::Forms::version_line, crate::specs::Plain::plain_line))]
pub fn version(words: &[&[u8]]) -> Result<(), Kind>
    ensures { result ≡ version_line (plain_line (line_in words.now)) }
{
    match words {
        [name, number] if *name == b"osposg".as_slice() && *number == b"1".as_slice() => Ok(()),
        _ => Err(Kind::Version),
    }
}

/// A small number in its limits.
#[tactic(auto, unfolding(crate::specs::Forms::within))]
pub fn within(low: u32, high: u32, number: i128) -> Result<u32, Kind>
    ensures value { result ≡ within low high number }
    ensures least { IfOk result (λ n. low ≤ n) }
    ensures most { IfOk result (λ n. n ≤ high) }
{
    if !is_within(i128::from(low), i128::from(high), number) {
        return Err(Kind::Range);
    }
    Ok(number as u32)
}

/// A discount: `0 <= over < under <= 2^20`.
#[tactic(auto, unfolding(crate::specs::Forms::discount_within))]
pub fn discount_within(over: i128, under: i128) -> Result<(i128, i128), Kind>
    ensures value { result ≡ discount_within over under }
    ensures limits { IfOk result IsDiscount }
{
    if over < 0 || over >= under || under > MOST_DISCOUNT {
        return Err(Kind::Range);
    }
    Ok((over, under))
}

/// The total of the weights is in its limits.
#[tactic(auto, unfolding(crate::specs::Forms::total_within))]
pub fn total_within(weights: &[i128]) -> Result<(), Kind>
    requires few { length weights.now ≤ most_states }
    requires small { All (λ n. (pos 0 ≤ℤ n) × (n ≤ℤ pos most_belief)) weights.now }
    ensures { result ≡ total_within weights.now }
{
    let total = sum(weights);
    if !is_within(1, MOST_BELIEF, total) {
        return Err(Kind::Belief);
    }
    Ok(())
}

//! The lines before the starts, and the `end` line.
ghost use Rattle.std.specs.Prelude.{◌≡◌, ◌≤◌, length, IfOk, pos, ◌≤ℤ◌};
ghost use Rattle.text_words.specs.Lines.{words_of};
ghost use Rattle.text_words.specs.Fault.{Gives};
ghost use Rattle.cert_text.specs.View.{entry_in, fraction_is};
ghost use Rattle.cert_text.specs.Entries.{version_said, outcome_said, gap_said, bound_said, lower_said, upper_said, tail_said, sizes_said, end_said};

use crate::fault::CertKind;
use crate::forms::{fraction_of, numbers_after, outcome_of, version, word_after};
use crate::guards::{at_least, few};
use crate::progress::Entry;
use controller::{MOST_GAP, MOST_GAP_UNDER};
use std::alloc::Global;
use text_words::{LineFault, limited};

#[tactic(auto, unfolding(crate::specs::Entries::version_said))]
pub fn version_line(line: &[u8]) -> Result<Entry, LineFault<CertKind>>
    ensures { Gives entry_in result (version_said (words_of line.now)) }
{
    let number = version(line)?;
    Ok(Entry::Version(number))
}

#[tactic(auto, unfolding(crate::specs::Entries::outcome_said))]
pub fn outcome_line(line: &[u8]) -> Result<Entry, LineFault<CertKind>>
    ensures { Gives entry_in result (outcome_said (words_of line.now)) }
{
    let word = word_after(line, b"outcome")?;
    Ok(Entry::Outcome(outcome_of(word)?))
}

/// A gap: its numerator is 0 to 2^40, and its denominator 1 to 2^20.
#[tactic(auto, unfolding(crate::specs::Entries::gap_said))]
pub fn gap_line(alloc: Global, line: &[u8]) -> Result<Entry, LineFault<CertKind>>
    ensures { Gives entry_in result (gap_said (words_of line.now)) }
{
    let word = word_after(line, b"gap")?;
    let (over, under) = fraction_of(alloc, word)?;
    let num = limited(CertKind::Range, 0, MOST_GAP, over)?;
    let den = limited(CertKind::Range, 1, MOST_GAP_UNDER, under)?;
    Ok(Entry::Gap(num, den))
}

/// A bound: its denominator is positive.
#[tactic(auto, unfolding(crate::specs::Entries::bound_said))]
fn bound_line(alloc: Global, line: &[u8], name: &[u8]) -> Result<(i128, i128), LineFault<CertKind>>
    ensures { Gives fraction_is result (bound_said name.now (words_of line.now)) }
{
    let word = word_after(line, name)?;
    let (num, under) = fraction_of(alloc, word)?;
    let den = at_least(1, under)?;
    Ok((num, den))
}

#[tactic(auto, unfolding(crate::specs::Entries::lower_said))]
pub fn lower_line(alloc: Global, line: &[u8]) -> Result<Entry, LineFault<CertKind>>
    ensures { Gives entry_in result (lower_said (words_of line.now)) }
{
    let (num, den) = bound_line(alloc, line, b"lower")?;
    Ok(Entry::Lower(num, den))
}

#[tactic(auto, unfolding(crate::specs::Entries::upper_said))]
pub fn upper_line(alloc: Global, line: &[u8]) -> Result<Entry, LineFault<CertKind>>
    ensures { Gives entry_in result (upper_said (words_of line.now)) }
{
    let (num, den) = bound_line(alloc, line, b"upper")?;
    Ok(Entry::Upper(num, den))
}

#[tactic(auto, unfolding(crate::specs::Entries::tail_said))]
pub fn tail_line(alloc: Global, line: &[u8]) -> Result<Entry, LineFault<CertKind>>
    ensures { Gives entry_in result (tail_said (words_of line.now)) }
{
    let (num, den) = bound_line(alloc, line, b"tail")?;
    Ok(Entry::Tail(num, den))
}

/// At least one node, a point for each state, and at most 1,024 of each.
#[tactic(auto, unfolding(crate::specs::Entries::sizes_said))]
pub fn sizes_line(alloc: Global, states: u32, line: &[u8]) -> Result<Entry, LineFault<CertKind>>
    ensures { Gives entry_in result (sizes_said states (words_of line.now)) }
{
    let numbers = numbers_after(alloc, line, b"sizes", 2)?;
    let nodes = at_least(1, numbers[0])?;
    let points = at_least(i128::from(states), numbers[1])?;
    Ok(Entry::Sizes(few(nodes)?, few(points)?))
}

#[tactic(auto, unfolding(crate::specs::Entries::end_said))]
pub fn end_line(alloc: Global, line: &[u8]) -> Result<Entry, LineFault<CertKind>>
    ensures { Gives entry_in result (end_said (words_of line.now)) }
{
    numbers_after(alloc, line, b"end", 0)?;
    Ok(Entry::End)
}

//! The lines of starts.
ghost use Rattle.std.specs.Prelude.{◌≡◌, ◌≤ℤ◌, length, IfOk, pos};
ghost use Rattle.text_words.specs.Lines.{words_of};
ghost use Rattle.text_words.specs.Fault.{Gives};
ghost use Rattle.cert_text.specs.View.{entry_in, IsProgress};
ghost use Rattle.cert_text.specs.Entries.{start_said, multiple_said, from_said, over_said, first_said};

use crate::fault::CertKind;
use crate::forms::numbers_after;
use crate::guards::{
    above_from, above_over, at_least, coprime, is_due, member_below, whole_starts, within_sum,
};
use crate::progress::{Entry, Progress, Starts};
use controller::{MOST_FROM, MOST_OVER};
use std::alloc::Global;
use text_words::{LineFault, limited};

#[tactic(auto, unfolding(crate::specs::Entries::start_said))]
pub fn start_line(
    alloc: Global,
    nodes: u32,
    points: u32,
    line: &[u8],
) -> Result<Entry, LineFault<CertKind>>
    ensures { Gives entry_in result (start_said nodes points (words_of line.now)) }
{
    let numbers = numbers_after(alloc, line, b"start", 2)?;
    let i = at_least(0, numbers[0])?;
    let j = at_least(0, numbers[1])?;
    let node = member_below(nodes, i)?;
    let point = member_below(points, j)?;
    Ok(Entry::Start(node, point))
}

/// The multiple of the first belief.
#[tactic(auto, unfolding(crate::specs::Entries::multiple_said))]
pub fn multiple_line(alloc: Global, line: &[u8]) -> Result<Entry, LineFault<CertKind>>
    ensures { Gives entry_in result (multiple_said (words_of line.now)) }
{
    let numbers = numbers_after(alloc, line, b"multiple", 1)?;
    let multiple = limited(CertKind::Range, 1, MOST_FROM, numbers[0])?;
    Ok(Entry::Multiple(multiple))
}

/// A start node and its weight.
#[tactic(auto, unfolding(crate::specs::Entries::from_said))]
pub fn from_line(
    alloc: Global,
    progress: &Progress,
    line: &[u8],
) -> Result<Entry, LineFault<CertKind>>
    requires { IsProgress progress.now }
    ensures { Gives entry_in result (from_said progress.now (words_of line.now)) }
{
    let numbers = numbers_after(alloc, line, b"from", 2)?;
    let number = at_least(0, numbers[0])?;
    let weight = limited(CertKind::Range, 1, MOST_FROM, numbers[1])?;
    above_from(progress.latest, number)?;
    let node = member_below(progress.nodes, number)?;
    within_sum(progress.starts.sum, weight)?;
    Ok(Entry::From(node, weight))
}

/// A start point and its weight. The weights of the start nodes before are coprime.
#[tactic(auto, unfolding(crate::specs::Entries::over_said))]
pub fn over_line(
    alloc: Global,
    progress: &Progress,
    line: &[u8],
) -> Result<Entry, LineFault<CertKind>>
    ensures { Gives entry_in result (over_said progress.now (words_of line.now)) }
{
    let numbers = numbers_after(alloc, line, b"over", 2)?;
    let number = at_least(0, numbers[0])?;
    let weight = limited(CertKind::Range, 1, MOST_OVER, numbers[1])?;
    above_over(progress.latest, number)?;
    let point = member_below(progress.points, number)?;
    coprime(&progress.starts.nodes)?;
    Ok(Entry::Over(point, weight))
}

/// The first node, behind the start points: their weights are coprime, and this is no text of version 1.
#[tactic(auto, unfolding(crate::specs::Entries::first_said))]
pub fn first_line(alloc: Global, starts: &Starts, line: &[u8]) -> Result<Entry, LineFault<CertKind>>
    ensures { Gives entry_in result (first_said starts.now (words_of line.now)) }
{
    let numbers = numbers_after(alloc, line, b"node", 1)?;
    is_due(0, numbers[0])?;
    whole_starts(starts)?;
    Ok(Entry::Node(0))
}

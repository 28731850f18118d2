//! The lines of nodes and points.
ghost use Rattle.std.specs.Prelude.{◌≡◌, ◌≤◌, ◌<◌, length, drop, IfOk, pos, ◌≤ℤ◌, ◌*ℤ◌, neg_ℤ, All};
ghost use Rattle.text_words.specs.Lines.{words_of};
ghost use Rattle.game_model.specs.Branches.{mix_total};
ghost use Rattle.point_set.specs.Points.{most_share};
ghost use Rattle.cert_text.specs.Fault.{seen};
ghost use Rattle.text_words.specs.Fault.{Gives};
ghost use Rattle.cert_text.specs.View.{entry_in, AreLimits, IsProgress};
ghost use Rattle.game_model.specs.Branches.{branch_of};
ghost use Rattle.cert_text.specs.Entries.{node_said, vector_said, mix_said, branch_said, next_said, point_said, belief_said, value_within, value_said, mixes_said, split_said};

use crate::fault::CertKind;
use crate::forms::{numbers_after, read_numbers};
use crate::guards::{
    at_least, belief_total, fits_lack, is_due, later_branch, member_below, none_lacks, sums_to_mix,
};
use crate::progress::{Entry, Limits, Progress};
use game_model::{Branch, MIX_TOTAL, MOST_BELIEF};
use point_set::MOST_SHARE;
use std::alloc::Global;
use text_words::{LineFault, below_limit, each_within, limited};

/// The node of this number, where no pair of the node before lacks anything.
#[tactic(auto, unfolding(crate::specs::Entries::node_said))]
pub fn node_line(
    alloc: Global,
    number: u32,
    lacking: &[i128],
    line: &[u8],
) -> Result<Entry, LineFault<CertKind>>
    ensures { Gives entry_in result (node_said number lacking.now (words_of line.now)) }
{
    let numbers = numbers_after(alloc, line, b"node", 1)?;
    is_due(number, numbers[0])?;
    none_lacks(lacking)?;
    Ok(Entry::Node(number))
}

#[tactic(auto, unfolding(crate::specs::Entries::vector_said))]
pub fn vector_line(
    alloc: Global,
    limits: &Limits,
    line: &[u8],
) -> Result<Entry, LineFault<CertKind>>
    requires { AreLimits limits.now }
    ensures { Gives entry_in result (vector_said limits.now (words_of line.now)) }
{
    let entries = numbers_after(alloc, line, b"vector", limits.states as usize)?;
    each_within(CertKind::Range, -limits.span, limits.span, &entries)?;
    Ok(Entry::Vector(entries))
}

#[tactic(auto, unfolding(crate::specs::Entries::mix_said))]
pub fn mix_line(alloc: Global, limits: &Limits, line: &[u8]) -> Result<Entry, LineFault<CertKind>>
    requires { AreLimits limits.now }
    ensures { Gives entry_in result (mix_said limits.now (words_of line.now)) }
{
    let weights = numbers_after(alloc, line, b"mix", limits.own_actions as usize)?;
    each_within(CertKind::Range, 0, MIX_TOTAL, &weights)?;
    sums_to_mix(&weights)?;
    Ok(Entry::Mix(weights))
}

/// A branch to one of so many members, with a weight of 1 to the most.
#[tactic(auto, unfolding(crate::specs::Entries::branch_said))]
fn branch(
    name: &[u8],
    most: i128,
    members: u32,
    progress: &Progress,
    line: &[u8],
) -> Result<Branch, CertKind>
    ensures said { seen branch_of result ≡ branch_said name.now most members progress.now (words_of line.now) }
    ensures own { IfOk result (λ b. b.a < progress.now.limits.own_actions) }
    ensures seen { IfOk result (λ b. b.o < progress.now.limits.observations) }
{
    let mut numbers = [0; 4];
    read_numbers(line, name, &mut numbers)?;
    let a = below_limit(CertKind::Range, progress.limits.own_actions, numbers[0])?;
    let o = below_limit(CertKind::Range, progress.limits.observations, numbers[1])?;
    let number = at_least(0, numbers[2])?;
    let weight = limited(CertKind::Range, 1, most, numbers[3])?;
    later_branch(progress.latest, a, o, number)?;
    let k = member_below(members, number)?;
    Ok(Branch { a, o, k, weight })
}

/// A step: no earlier pair lacks anything, and its own lacks its weight.
#[tactic(auto, unfolding(crate::specs::Entries::next_said))]
pub fn next_line(progress: &Progress, line: &[u8]) -> Result<Entry, CertKind>
    requires { IsProgress progress.now }
    ensures { seen entry_in result ≡ next_said progress.now (words_of line.now) }
{
    let b = branch(b"next", MIX_TOTAL, progress.nodes, progress, line)?;
    let i = (b.a * progress.limits.observations + b.o) as usize;
    none_lacks(&progress.lacking[..i])?;
    fits_lack(progress.lacking[i], b.weight)?;
    Ok(Entry::Next(b))
}

/// The point of this number, where no pair of the last node lacks anything.
#[tactic(auto, unfolding(crate::specs::Entries::point_said))]
pub fn point_line(
    alloc: Global,
    number: u32,
    lacking: &[i128],
    line: &[u8],
) -> Result<Entry, LineFault<CertKind>>
    ensures { Gives entry_in result (point_said number lacking.now (words_of line.now)) }
{
    let numbers = numbers_after(alloc, line, b"point", 1)?;
    is_due(number, numbers[0])?;
    none_lacks(lacking)?;
    Ok(Entry::Point(number))
}

#[tactic(auto, unfolding(crate::specs::Entries::belief_said))]
pub fn belief_line(
    alloc: Global,
    limits: &Limits,
    line: &[u8],
) -> Result<Entry, LineFault<CertKind>>
    requires { AreLimits limits.now }
    ensures { Gives entry_in result (belief_said limits.now (words_of line.now)) }
{
    let parts = numbers_after(alloc, line, b"belief", limits.states as usize)?;
    each_within(CertKind::Range, 0, MOST_BELIEF, &parts)?;
    belief_total(&parts)?;
    Ok(Entry::Belief(parts))
}

/// The greatest value of a point: the span times the belief's total.
fn most_value(progress: &Progress) -> i128
    requires { IsProgress progress.now }
    ensures value { result ≡ progress.now.limits.span *ℤ progress.now.total }
    ensures low { pos 0 ≤ℤ result }
{
    progress.limits.span * progress.total
}

/// The least value of a point.
fn least_value(progress: &Progress) -> i128
    requires { IsProgress progress.now }
    ensures { result ≡ neg_ℤ (progress.now.limits.span *ℤ progress.now.total) }
{
    -most_value(progress)
}

/// The value, where it is within the span times the belief's total.
#[tactic(auto, unfolding(crate::specs::Entries::value_within))]
fn value_within(progress: &Progress, value: i128) -> Result<i128, CertKind>
    requires { IsProgress progress.now }
    ensures { result ≡ value_within progress.now.limits.span progress.now.total value }
{
    limited(
        CertKind::Range,
        least_value(progress),
        most_value(progress),
        value,
    )
}

/// A value within the span times the belief's total.
#[tactic(auto, unfolding(crate::specs::Entries::value_said))]
pub fn value_line(
    alloc: Global,
    progress: &Progress,
    line: &[u8],
) -> Result<Entry, LineFault<CertKind>>
    requires { IsProgress progress.now }
    ensures { Gives entry_in result (value_said progress.now.limits progress.now.total (words_of line.now)) }
{
    let numbers = numbers_after(alloc, line, b"value", 1)?;
    let value = value_within(progress, numbers[0])?;
    Ok(Entry::Value(value))
}

/// The mix of the state that is due.
#[tactic(auto, unfolding(crate::specs::Entries::mixes_said))]
pub fn mixes_line(
    alloc: Global,
    limits: &Limits,
    state: u32,
    line: &[u8],
) -> Result<Entry, LineFault<CertKind>>
    requires { AreLimits limits.now }
    ensures { Gives entry_in result (mixes_said limits.now state (words_of line.now)) }
{
    let numbers = numbers_after(alloc, line, b"mix", limits.informed_actions as usize + 1)?;
    let weights = &numbers[1..];
    each_within(CertKind::Range, 0, MIX_TOTAL, weights)?;
    is_due(state, numbers[0])?;
    sums_to_mix(weights)?;
    Ok(Entry::Mixes(state, Vec::from_slice(alloc, weights)?))
}

#[tactic(auto, unfolding(crate::specs::Entries::split_said))]
pub fn split_line(progress: &Progress, line: &[u8]) -> Result<Entry, CertKind>
    ensures { seen entry_in result ≡ split_said progress.now (words_of line.now) }
{
    let b = branch(b"split", MOST_SHARE, progress.points, progress, line)?;
    Ok(Entry::Split(b))
}

//! The limits, orders and sums that the numbers of a line keep.
ghost use Rattle.std.specs.Prelude.{◌≡◌, ◌==◌, ◌≤◌, length, IfOk, OnOk, All, pos, ◌+ℤ◌, ◌≤ℤ◌};
ghost use Rattle.game_model.specs.Limits.{most_belief, most_members, most_states};
ghost use Rattle.game_model.specs.Branches.{mix_total};
ghost use Rattle.game_model.specs.Game.{IsWithin};
ghost use Rattle.controller.specs.Starts.{most_from};
ghost use Rattle.cert_text.specs.Forms.{at_least, is_due, member_below, few, is_after, later_branch, above_from, above_over, within_sum, coprime, whole_starts, sums_to_mix, common_divisor, belief_total, none_lacks, fits_lack};

use crate::fault::CertKind;
use crate::progress::{Latest, Starts, Weights};
use alpha_set::MOST_NODES;
use controller::MOST_FROM;
use game_model::{MIX_TOTAL, MOST_BELIEF};
use scaled_num::{common_divisor, sum};
use text_words::is_within;

/// The most nodes, and the most points.
const MOST_MEMBERS: i128 = MOST_NODES as i128;

/// A number with a least value.
#[tactic(auto, unfolding(crate::specs::Forms::at_least))]
pub fn at_least(low: i128, number: i128) -> Result<i128, CertKind>
    ensures value { result ≡ at_least low number }
    ensures least { IfOk result (λ n. low ≤ℤ n) }
{
    if number < low {
        return Err(CertKind::Range);
    }
    Ok(number)
}

/// The number of the member or state that is due.
#[tactic(auto, unfolding(crate::specs::Forms::is_due))]
pub fn is_due(due: u32, number: i128) -> Result<(), CertKind>
    ensures { result ≡ is_due due number }
{
    if !is_within(i128::from(due), i128::from(due), number) {
        return Err(CertKind::Order);
    }
    Ok(())
}

/// One of so many members.
#[tactic(auto, unfolding(crate::specs::Forms::member_below))]
pub fn member_below(members: u32, number: i128) -> Result<u32, CertKind>
    requires { pos 0 ≤ℤ number }
    ensures { result ≡ member_below members number }
{
    if number >= i128::from(members) {
        return Err(CertKind::Index);
    }
    Ok(number as u32)
}

/// At most 1,024 members.
#[tactic(auto, unfolding(crate::specs::Forms::few))]
pub fn few(number: i128) -> Result<u32, CertKind>
    requires { pos 0 ≤ℤ number }
    ensures kind { result ≡ few number }
    ensures most { IfOk result (λ n. n ≤ most_members) }
{
    if number > MOST_MEMBERS {
        return Err(CertKind::Full);
    }
    Ok(number as u32)
}

/// Whether a branch is greater than another one.
fn is_after(a: u32, o: u32, k: u32, own: u32, seen: u32, member: i128) -> bool
    ensures { result ≡ is_after a o k own seen member }
{
    a < own || (a == own && (o < seen || (o == seen && i128::from(k) < member)))
}

/// The branch is greater than that of the line just before, where that has one.
#[tactic(auto, unfolding(crate::specs::Forms::later_branch))]
pub fn later_branch(latest: Latest, own: u32, seen: u32, member: i128) -> Result<(), CertKind>
    ensures { result ≡ later_branch latest own seen member }
{
    match latest {
        Latest::Next(a, o, k) if !is_after(a, o, k, own, seen, member) => Err(CertKind::Order),
        Latest::Split(a, o, k) if !is_after(a, o, k, own, seen, member) => Err(CertKind::Order),
        _ => Ok(()),
    }
}

/// The number is above that of the `from` line just before, where there is one.
#[tactic(auto, unfolding(crate::specs::Forms::above_from))]
pub fn above_from(latest: Latest, number: i128) -> Result<(), CertKind>
    ensures { result ≡ above_from latest number }
{
    match latest {
        Latest::From(node) if number <= i128::from(node) => Err(CertKind::Order),
        _ => Ok(()),
    }
}

/// The number is above that of the `over` line just before, where there is one.
#[tactic(auto, unfolding(crate::specs::Forms::above_over))]
pub fn above_over(latest: Latest, number: i128) -> Result<(), CertKind>
    ensures { result ≡ above_over latest number }
{
    match latest {
        Latest::Over(point) if number <= i128::from(point) => Err(CertKind::Order),
        _ => Ok(()),
    }
}

/// One weight more keeps the sum of the weights of start nodes within its limit.
#[tactic(auto, unfolding(crate::specs::Forms::within_sum))]
pub fn within_sum(sum: i128, weight: i128) -> Result<(), CertKind>
    requires sum { IsWithin (pos 0) (pos most_from) sum }
    requires weight { IsWithin (pos 1) (pos most_from) weight }
    ensures { result ≡ within_sum sum weight }
{
    if weight + sum > MOST_FROM {
        return Err(CertKind::Total);
    }
    Ok(())
}

/// Nothing but 1 divides all weights.
#[tactic(auto, unfolding(crate::specs::Forms::coprime))]
pub fn coprime(weights: &Weights) -> Result<(), CertKind>
    ensures { result ≡ coprime weights.now }
{
    if weights.divisor != 1 {
        return Err(CertKind::Total);
    }
    Ok(())
}

/// Nothing but 1 divides the weights of the start points, and there are several start nodes or several start points.
#[tactic(auto, unfolding(crate::specs::Forms::whole_starts))]
pub fn whole_starts(starts: &Starts) -> Result<(), CertKind>
    ensures { result ≡ whole_starts starts.now }
{
    if starts.points.divisor == 1 && (starts.nodes.many || starts.points.many) {
        Ok(())
    } else {
        Err(CertKind::Total)
    }
}

/// The weights of a mix sum to the mix total.
#[tactic(auto, unfolding(crate::specs::Forms::sums_to_mix))]
pub fn sums_to_mix(weights: &[i128]) -> Result<(), CertKind>
    requires few { length weights.now ≤ most_states }
    requires small { All (IsWithin (pos 0) (pos mix_total)) weights.now }
    ensures { result ≡ sums_to_mix weights.now }
{
    if !is_within(MIX_TOTAL, MIX_TOTAL, sum(weights)) {
        return Err(CertKind::Total);
    }
    Ok(())
}

/// Whether nothing but 1 divides all numbers.
fn are_coprime(numbers: &[i128]) -> bool
    ensures { result ≡ (common_divisor numbers.now == 1) }
{
    common_divisor(numbers) == 1
}

/// The parts of a belief have a total in its limits and are coprime.
#[tactic(auto, unfolding(crate::specs::Forms::belief_total))]
pub fn belief_total(parts: &[i128]) -> Result<(), CertKind>
    requires few { length parts.now ≤ most_states }
    requires small { All (IsWithin (pos 0) (pos most_belief)) parts.now }
    ensures { result ≡ belief_total parts.now }
{
    if !is_within(1, MOST_BELIEF, sum(parts)) || !are_coprime(parts) {
        return Err(CertKind::Total);
    }
    Ok(())
}

/// No pair lacks anything.
#[tactic(auto, unfolding(crate::specs::Forms::none_lacks))]
pub fn none_lacks(lacking: &[i128]) -> Result<(), CertKind>
    ensures { result ≡ none_lacks lacking.now }
{
    if !lacking.iter().all(|lack| is_within(0, 0, *lack)) {
        return Err(CertKind::Total);
    }
    Ok(())
}

/// A weight is at most what its pair lacks.
#[tactic(auto, unfolding(crate::specs::Forms::fits_lack))]
pub fn fits_lack(lack: i128, weight: i128) -> Result<(), CertKind>
    ensures kind { result ≡ fits_lack lack weight }
    ensures fits { OnOk result (weight ≤ℤ lack) }
{
    if weight > lack {
        return Err(CertKind::Total);
    }
    Ok(())
}

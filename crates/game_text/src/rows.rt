//! The lines of the rows.
ghost use Rattle.std.specs.Prelude.{◌≡◌, codes, ◌≤◌, ◌<◌, ◌^◌, length, IfOk, OnOk, pos, ◌≤ℤ◌, ◌+ℤ◌, ◌*ℤ◌, neg_ℤ, max, unsigned_abs};
ghost use Rattle.text_words.specs.Lines.{line_in};
ghost use Rattle.game_text.specs.Plain.{plain_line};
ghost use Rattle.game_model.specs.Limits.{most_reward};
ghost use Rattle.game_model.specs.Game.{IsShape, triples};
ghost use Rattle.text_words.specs.Fault.{Gives};
ghost use Rattle.text_words.specs.Forms.{begins};
ghost use Rattle.game_text.specs.Forms.{next_triple, full_row, narrow_reward, later_pair, fits_row};
ghost use Rattle.game_text.specs.Entries.{step_said, out_said, end_said, row_end_said};
ghost use Rattle.game_text.specs.Progress.{IsProgress, FitsProgress, entry_in, pair_of, row_said};

use crate::fault::Kind;
use crate::forms::numbers_after;
use crate::progress::{Latest, Progress, RowEntry};
use game_model::{Landing, MOST_REWARD, MOST_WIDTH, Shape};
use std::alloc::Global;
use text_words::{LineFault, below_limit, limited};

/// The triple is the next one, where so many were begun.
#[tactic(auto, unfolding(crate::specs::Forms::next_triple))]
fn next_triple(shape: Shape, begun: u32, state: u32, own: u32, informed: u32) -> Result<(), Kind>
    requires { IsShape shape }
    ensures { result ≡ next_triple shape begun state own informed }
{
    let round = begun / shape.informed_actions;
    if state == round / shape.own_actions
        && own == round % shape.own_actions
        && informed == begun % shape.informed_actions
    {
        Ok(())
    } else {
        Err(Kind::Order)
    }
}

/// No row was begun, or the weights of the last one sum to the row total.
#[tactic(auto, unfolding(crate::specs::Forms::full_row))]
fn full_row(shape: Shape, begun: u32, sum: i128) -> Result<(), Kind>
    ensures { result ≡ full_row shape begun sum }
{
    if begun != 0 && (sum < shape.row_total || sum > shape.row_total) {
        return Err(Kind::Total);
    }
    Ok(())
}

/// The width of a reward: `D * Q * Q * max(1, |r|)`.
fn width(shape: Shape, reward: i128) -> i128
    requires shape { IsShape shape }
    requires low { (neg_ℤ (pos most_reward)) ≤ℤ reward }
    requires high { reward ≤ℤ pos most_reward }
    ensures { result ≡ shape.row_total *ℤ shape.discount.1 *ℤ shape.discount.1 *ℤ pos (max 1 (unsigned_abs reward)) }
{
    let under = shape.discount.1;
    shape.row_total * under * under * reward.abs().max(1)
}

/// The width rule holds.
#[tactic(auto, unfolding(crate::specs::Forms::narrow_reward))]
fn narrow_reward(shape: Shape, reward: i128) -> Result<(), Kind>
    requires shape { IsShape shape }
    requires low { (neg_ℤ (pos most_reward)) ≤ℤ reward }
    requires high { reward ≤ℤ pos most_reward }
    ensures { result ≡ narrow_reward shape reward }
{
    if width(shape, reward) > MOST_WIDTH {
        return Err(Kind::Wide);
    }
    Ok(())
}

/// The pair is greater than that of an `out` line just before.
#[tactic(auto, unfolding(crate::specs::Forms::later_pair))]
fn later_pair(latest: Latest, seen: u32, to: u32) -> Result<(), Kind>
    ensures { result ≡ later_pair (pair_of latest) seen to }
{
    match latest {
        Latest::Pair(o, t) if (o, t) >= (seen, to) => Err(Kind::Order),
        _ => Ok(()),
    }
}

/// The row's sum stays within the row total.
#[tactic(auto, unfolding(crate::specs::Forms::fits_row))]
fn fits_row(progress: &Progress, weight: i128) -> Result<(), Kind>
    requires progress { IsProgress progress.now }
    requires low { pos 0 ≤ℤ weight }
    requires high { weight ≤ℤ progress.now.shape.row_total }
    ensures kind { result ≡ fits_row progress.now.shape progress.now.sum weight }
    ensures fits { OnOk result ((progress.now.sum +ℤ weight) ≤ℤ progress.now.shape.row_total) }
{
    if progress.sum + weight > progress.shape.row_total {
        return Err(Kind::Total);
    }
    Ok(())
}

#[tactic(auto, unfolding(crate::specs::Entries::step_said))]
fn step_line(
    alloc: Global,
    progress: &Progress,
    words: &[&[u8]],
) -> Result<RowEntry, LineFault<Kind>>
    requires { IsProgress progress.now }
    ensures gives { Gives entry_in result
        (step_said progress.now.shape progress.now.begun progress.now.sum (plain_line (line_in words.now))) }
    ensures fits { IfOk result (FitsProgress progress.now) }
{
    let shape = progress.shape;
    let numbers = numbers_after(alloc, words, b"step", 4)?;
    let state = below_limit(Kind::Range, shape.states, numbers[0])?;
    let own = below_limit(Kind::Range, shape.own_actions, numbers[1])?;
    let informed = below_limit(Kind::Range, shape.informed_actions, numbers[2])?;
    let reward = limited(Kind::Range, -MOST_REWARD, MOST_REWARD, numbers[3])?;
    next_triple(shape, progress.begun, state, own, informed)?;
    full_row(shape, progress.begun, progress.sum)?;
    narrow_reward(shape, reward)?;
    Ok(RowEntry::Step {
        state,
        own,
        informed,
        reward,
    })
}

#[tactic(auto, unfolding(crate::specs::Entries::out_said))]
fn out_line(
    alloc: Global,
    progress: &Progress,
    words: &[&[u8]],
) -> Result<RowEntry, LineFault<Kind>>
    requires { IsProgress progress.now }
    ensures gives { Gives entry_in result
        (out_said progress.now.shape progress.now.sum (pair_of progress.now.latest) (plain_line (line_in words.now))) }
    ensures fits { IfOk result (FitsProgress progress.now) }
{
    let numbers = numbers_after(alloc, words, b"out", 3)?;
    let seen = below_limit(Kind::Range, progress.shape.observations, numbers[0])?;
    let to = below_limit(Kind::Range, progress.shape.states, numbers[1])?;
    let weight = limited(Kind::Range, 1, progress.shape.row_total, numbers[2])?;
    later_pair(progress.latest, seen, to)?;
    fits_row(progress, weight)?;
    Ok(RowEntry::Out(Landing { seen, to, weight }))
}

#[tactic(auto, unfolding(crate::specs::Entries::end_said))]
fn end_line(
    alloc: Global,
    progress: &Progress,
    words: &[&[u8]],
) -> Result<RowEntry, LineFault<Kind>>
    ensures gives { Gives entry_in result
        (end_said progress.now.shape progress.now.begun progress.now.sum (plain_line (line_in words.now))) }
    ensures fits { IfOk result (FitsProgress progress.now) }
{
    numbers_after(alloc, words, b"end", 0)?;
    full_row(progress.shape, progress.begun, progress.sum)?;
    Ok(RowEntry::End)
}

/// How many rows there are.
fn triples(shape: Shape) -> u32
    requires { IsShape shape }
    ensures { result ≡ triples shape }
{
    shape.states * shape.own_actions * shape.informed_actions
}

/// Whether the words begin with this one.
fn begins(name: &[u8], words: &[&[u8]]) -> bool
    ensures { result ≡ begins name.now (line_in words.now) }
{
    match words {
        [first, ..] => *first == name,
        [] => false,
    }
}

/// Whether the line begins with `out`.
fn begins_out(words: &[&[u8]]) -> bool
    ensures { result ≡ begins (codes "out") (plain_line (line_in words.now)) }
{
    begins(b"out", words)
}

/// What a line of the rows says where the reading is this far.
#[tactic(auto, unfolding(crate::specs::Progress::row_said, crate::specs::Entries::row_end_said))]
pub fn row_line(
    alloc: Global,
    progress: &Progress,
    words: &[&[u8]],
) -> Result<RowEntry, LineFault<Kind>>
    requires { IsProgress progress.now }
    ensures gives { Gives entry_in result (row_said progress.now (plain_line (line_in words.now))) }
    ensures fits { IfOk result (FitsProgress progress.now) }
{
    match progress.latest {
        Latest::Start => step_line(alloc, progress, words),
        Latest::Row => out_line(alloc, progress, words),
        Latest::Pair(_, _) if begins_out(words) => out_line(alloc, progress, words),
        Latest::Pair(_, _) if progress.begun == triples(progress.shape) => end_line(
            alloc, progress, words,
        ),
        Latest::Pair(_, _) => step_line(alloc, progress, words),
    }
}

//! Reads line by line, each by what the lines before it say, into a draft.
ghost use Rattle.std.specs.Prelude.{◌≡◌, ◌+◌, ◌*◌, ◌/◌, ◌^◌, ◌<◌, ◌≤◌, ℕ, List, [], ◌∷◌, length, IfOk, IfErr, ◌==◌, All, pos, ◌+ℤ◌, ◌≤ℤ◌, slice_index_or, unsigned_abs};
ghost use Rattle.std.specs.List.{after_first};
ghost use Rattle.scaled_num.specs.Sums.{below, sum_of};
ghost use Rattle.text_words.specs.Lines.{after_lines, lines_of, words_of};
ghost use Rattle.text_words.specs.Fault.{Gives};
ghost use Rattle.cert_text.specs.View.{IsLack, IsProgress, FitsProgress, entry_in};
ghost use Rattle.cert_text.specs.Steps.{Accepts, IsUnfinished, line_at};
ghost use Rattle.cert_text.specs.Steps.{IsDraftOf, IsFaultOf};
ghost use Rattle.cert_text.specs.Draft.{draft_data};
ghost use Rattle.controller.specs.Starts.{most_from};
ghost use Rattle.game_model.specs.Game.{IsWithin};
ghost use Rattle.cert_text.specs.Forms.{divisor_within};
ghost use Rattle.cert_text.specs.Entries.{entry_of, in_sizes, in_from, in_over, in_node, in_point, in_mixes, lacking_less, lacking_of, latest_of, progress_after, with_from, with_weight};

use crate::draft::{Draft, blank, take};
use crate::fault::{CertFault, CertKind, numbered};
use crate::head::{
    end_line, gap_line, lower_line, outcome_line, sizes_line, tail_line, upper_line, version_line,
};
use crate::members::{
    belief_line, mix_line, mixes_line, next_line, node_line, point_line, split_line, value_line,
    vector_line,
};
use crate::progress::{Entry, Latest, MOST_PAIRS, Progress, Starts, Weights};
use crate::starts::{first_line, from_line, multiple_line, over_line, start_line};
use scaled_num::{gcd, sum};
use std::alloc::Global;
use text_words::{LineFault, begins};

/// After the `sizes` line: the one line of starts of version 1, or the first one of version 2.
#[tactic(auto, unfolding(crate::specs::Entries::in_sizes))]
fn in_sizes(alloc: Global, progress: &Progress, line: &[u8]) -> Result<Entry, LineFault<CertKind>>
    ensures { Gives entry_in result (in_sizes progress.now (words_of line.now)) }
{
    if progress.starts.version == 1 {
        start_line(alloc, progress.nodes, progress.points, line)
    } else {
        multiple_line(alloc, line)
    }
}

/// After a `from` line: another one, or the first `over` line.
#[tactic(auto, unfolding(crate::specs::Entries::in_from))]
fn in_from(alloc: Global, progress: &Progress, line: &[u8]) -> Result<Entry, LineFault<CertKind>>
    requires { IsProgress progress.now }
    ensures { Gives entry_in result (in_from progress.now (words_of line.now)) }
{
    if begins(b"from", line) {
        from_line(alloc, progress, line)
    } else {
        over_line(alloc, progress, line)
    }
}

/// After an `over` line: another one, or the first node.
#[tactic(auto, unfolding(crate::specs::Entries::in_over))]
fn in_over(alloc: Global, progress: &Progress, line: &[u8]) -> Result<Entry, LineFault<CertKind>>
    ensures { Gives entry_in result (in_over progress.now (words_of line.now)) }
{
    if begins(b"over", line) {
        over_line(alloc, progress, line)
    } else {
        first_line(alloc, &progress.starts, line)
    }
}

/// After a node's `mix` or `next` line: a `next` line, the next node, or the first point.
#[tactic(auto, unfolding(crate::specs::Entries::in_node))]
fn in_node(alloc: Global, progress: &Progress, line: &[u8]) -> Result<Entry, LineFault<CertKind>>
    requires { IsProgress progress.now }
    ensures { Gives entry_in result (in_node progress.now (words_of line.now)) }
{
    if begins(b"next", line) {
        Ok(next_line(progress, line)?)
    } else if progress.begun < progress.nodes {
        node_line(alloc, progress.begun, &progress.lacking, line)
    } else {
        point_line(alloc, 0, &progress.lacking, line)
    }
}

/// After a point's last `mix` line or a `split` line: a `split` line, the next point, or `end`.
#[tactic(auto, unfolding(crate::specs::Entries::in_point))]
fn in_point(alloc: Global, progress: &Progress, line: &[u8]) -> Result<Entry, LineFault<CertKind>>
    requires { IsProgress progress.now }
    ensures { Gives entry_in result (in_point progress.now (words_of line.now)) }
{
    if begins(b"split", line) {
        Ok(split_line(progress, line)?)
    } else if progress.begun < progress.points {
        point_line(alloc, progress.begun, &[], line)
    } else {
        end_line(alloc, line)
    }
}

/// After the `mix` line of a state of a point.
#[tactic(auto, unfolding(crate::specs::Entries::in_mixes))]
fn in_mixes(alloc: Global, progress: &Progress, line: &[u8]) -> Result<Entry, LineFault<CertKind>>
    requires { IsProgress progress.now }
    ensures { Gives entry_in result (in_mixes progress.now (words_of line.now)) }
{
    if progress.state < progress.limits.states {
        mixes_line(alloc, &progress.limits, progress.state, line)
    } else {
        in_point(alloc, progress, line)
    }
}

/// What a line says where the reading is this far.
#[tactic(auto, unfolding(crate::specs::Entries::entry_after))]
fn entry(alloc: Global, progress: &Progress, line: &[u8]) -> Result<Entry, LineFault<CertKind>>
    requires { IsProgress progress.now }
    ensures { Gives entry_in result (entry_of progress.now (words_of line.now)) }
{
    match progress.latest {
        Latest::Nothing => version_line(line),
        Latest::Version => outcome_line(line),
        Latest::Outcome => gap_line(alloc, line),
        Latest::Gap => lower_line(alloc, line),
        Latest::Lower => upper_line(alloc, line),
        Latest::Upper => tail_line(alloc, line),
        Latest::Tail => sizes_line(alloc, progress.limits.states, line),
        Latest::Sizes => in_sizes(alloc, progress, line),
        Latest::Start => node_line(alloc, 0, &[], line),
        Latest::Multiple => from_line(alloc, progress, line),
        Latest::From(_) => in_from(alloc, progress, line),
        Latest::Over(_) => in_over(alloc, progress, line),
        Latest::Node => vector_line(alloc, &progress.limits, line),
        Latest::Vector => mix_line(alloc, &progress.limits, line),
        Latest::Mix | Latest::Next(_, _, _) => in_node(alloc, progress, line),
        Latest::Point => belief_line(alloc, &progress.limits, line),
        Latest::Belief => value_line(alloc, progress, line),
        Latest::Value => mixes_line(alloc, &progress.limits, 0, line),
        Latest::Mixes => in_mixes(alloc, progress, line),
        Latest::Split(_, _, _) => in_point(alloc, progress, line),
        Latest::End => Err(CertKind::Trailing.into()),
    }
}

/// What the next line says where the reading is this far, and what follows it.
#[tactic(auto, unfolding(crate::specs::Steps::line_at))]
fn next_entry<'a>(
    alloc: Global,
    progress: &Progress,
    text: &'a [u8],
) -> Result<(Entry, &'a [u8]), LineFault<CertKind>>
    requires progress { IsProgress progress.now }
    ensures gives { Gives (λ found. (entry_in found.0, lines_of found.1.now)) result
        (line_at progress.now (lines_of text.now)) }
    ensures after { IfOk result (λ found. found.1.now ≡ after_first (λ b. b == 10) text.now) }
    ensures shorter { IfOk result (λ found. length found.1.now < length text.now) }
{
    let Some((line, rest)) = text_words::split_line(text) else {
        return Err(CertKind::Missing.into());
    };
    let entry = entry(alloc, progress, line)?;
    Ok((entry, rest))
}

/// The weight at an index of a list, 0 behind its end.
fn weight_at(weights: &[i128], i: usize) -> i128
    requires { All IsLack weights.now }
    ensures small { IsLack result }
    ensures value { result ≡ slice_index_or weights.now i (pos 0) }
{
    match weights.get(i) {
        Some(weight) => *weight,
        None => 0,
    }
}

/// What each pair lacks behind a node's `mix` line: the weight of its own action.
fn lacking_of(observations: u32, weights: &[i128]) -> [i128; MOST_PAIRS]
    requires some { 1 ≤ observations }
    requires small { All IsLack weights.now }
    ensures value { result ≡ lacking_of observations weights.now }
    ensures small { All IsLack result }
{
    let mut lacking = [0; MOST_PAIRS];
    for i in 0..MOST_PAIRS {
        lacking[i] = weight_at(weights, i / observations as usize);
    }
    lacking
}

/// Takes a weight from what a pair lacks.
fn take_weight(lacking: &mut [i128], i: usize, weight: i128)
    requires index { i < length lacking.old }
    requires small { All IsLack lacking.old }
    requires some { pos 1 ≤ℤ weight }
    requires fits { weight ≤ℤ slice_index_or lacking.old i (pos 0) }
    ensures value { lacking.new ≡ lacking_less lacking.old i weight }
    ensures small { All IsLack lacking.new }
{
    lacking[i] -= weight;
}

/// The greatest common divisor of a divisor and one weight more.
fn divisor_with(divisor: u128, weight: i128) -> u128
    ensures { result ≡ divisor_within divisor (unsigned_abs weight) divisor }
{
    gcd(weight.unsigned_abs(), divisor)
}

/// Weights with one more.
fn with_weight(weight: i128, weights: Weights) -> Weights
    ensures { result ≡ with_weight weight weights }
{
    Weights {
        some: true,
        many: weights.some,
        divisor: divisor_with(weights.divisor, weight),
    }
}

/// Starts with one more start node of this weight.
fn with_from(weight: i128, starts: Starts) -> Starts
    requires sum { IsWithin (pos 0) (pos most_from) starts.sum }
    requires some { pos 1 ≤ℤ weight }
    requires fits { (weight +ℤ starts.sum) ≤ℤ pos most_from }
    ensures value { result ≡ with_from weight starts }
    ensures sum { IsWithin (pos 0) (pos most_from) result.sum }
{
    Starts {
        sum: weight + starts.sum,
        nodes: with_weight(weight, starts.nodes),
        ..starts
    }
}

/// The line that says this.
fn latest_of(entry: &Entry) -> Latest
    ensures { result ≡ latest_of (entry_in entry.now) }
{
    match entry {
        Entry::Version(_) => Latest::Version,
        Entry::Outcome(_) => Latest::Outcome,
        Entry::Gap(_, _) => Latest::Gap,
        Entry::Lower(_, _) => Latest::Lower,
        Entry::Upper(_, _) => Latest::Upper,
        Entry::Tail(_, _) => Latest::Tail,
        Entry::Sizes(_, _) => Latest::Sizes,
        Entry::Start(_, _) => Latest::Start,
        Entry::Multiple(_) => Latest::Multiple,
        Entry::From(node, _) => Latest::From(*node),
        Entry::Over(point, _) => Latest::Over(*point),
        Entry::Node(_) => Latest::Node,
        Entry::Vector(_) => Latest::Vector,
        Entry::Mix(_) => Latest::Mix,
        Entry::Next(b) => Latest::Next(b.a, b.o, b.k),
        Entry::Point(_) => Latest::Point,
        Entry::Belief(_) => Latest::Belief,
        Entry::Value(_) => Latest::Value,
        Entry::Mixes(_, _) => Latest::Mixes,
        Entry::Split(b) => Latest::Split(b.a, b.o, b.k),
        Entry::End => Latest::End,
    }
}

/// Goes on behind a line that says this.
fn advance(progress: &mut Progress, entry: &Entry)
    requires progress { IsProgress progress.old }
    requires fits { FitsProgress progress.old (entry_in entry.now) }
    ensures after { progress.new ≡ progress_after progress.old (entry_in entry.now) }
    ensures keeps { IsProgress progress.new }
{
    progress.latest = latest_of(entry);
    match entry {
        Entry::Version(number) => progress.starts.version = *number,
        Entry::Sizes(nodes, points) => {
            progress.nodes = *nodes;
            progress.points = *points;
        }
        Entry::From(_, weight) => progress.starts = with_from(*weight, progress.starts),
        Entry::Over(_, weight) => {
            progress.starts.points = with_weight(*weight, progress.starts.points);
        }
        Entry::Node(number) => progress.begun = *number + 1,
        Entry::Mix(weights) => {
            progress.lacking = lacking_of(progress.limits.observations, weights);
        }
        Entry::Next(b) => {
            let i = (b.a * progress.limits.observations + b.o) as usize;
            take_weight(&mut progress.lacking, i, b.weight);
        }
        Entry::Point(number) => {
            progress.begun = *number + 1;
            progress.state = 0;
        }
        Entry::Belief(parts) => progress.total = sum(parts),
        Entry::Mixes(state, _) => progress.state = *state + 1,
        Entry::Outcome(_) | Entry::Gap(_, _) | Entry::Lower(_, _) | Entry::Upper(_, _) => {}
        Entry::Tail(_, _) | Entry::Start(_, _) | Entry::Multiple(_) | Entry::Vector(_) => {}
        Entry::Value(_) | Entry::Split(_) | Entry::End => {}
    }
}

/// The certificate that all lines say from here on, to the `end` line, how many lines there are, and what
/// follows them.
pub fn read_draft(
    alloc: Global,
    start: Progress,
    text: &[u8],
) -> Result<(Draft, u32, &[u8]), CertFault>
    requires progress { IsProgress start }
    requires begun { IsUnfinished start }
    requires size { length text.now ≤ 2 ^ 27 }
    ensures found { IfOk result (λ found. IsDraftOf start text.now (draft_data found.0) found.1 found.2.now) }
    ensures few { IfOk result (λ found. found.1 ≤ length text.now) }
    ensures refused { IfErr result (IsFaultOf start (lines_of text.now)) }
{
    let mut draft = blank(alloc);
    let mut progress = start;
    let mut rest = text;
    let mut line: u32 = 0;
    loop {
        let (entry, after) = numbered(next_entry(alloc, &progress, rest), line + 1)?;
        advance(&mut progress, &entry);
        take(alloc, &start.limits, &mut draft, entry)?;
        rest = after;
        line += 1;
        if let Latest::End = progress.latest {
            return Ok((draft, line, rest));
        }
    }
}

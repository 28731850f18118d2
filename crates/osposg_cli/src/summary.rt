//! The command `gen` with trials: a summary of solving the game that it makes.
ghost use Rattle.cert_text.specs.Text.{outcome_word};
ghost use Rattle.controller.specs.Certificates.{CertificateStands, IsGap};
ghost use Rattle.controller.specs.Data.{ending_of, fraction_data};
ghost use Rattle.hsvi_trial.specs.Run.{most_trials};
ghost use Rattle.osposg_cli.specs.Summary.{AnswersSummary, IsSummaryText, KeepsSummary, SummaryIsDefined};
ghost use Rattle.osposg_cli.specs.Summary.{bound_lines, heading, size_line};
ghost use Rattle.osposg_cli.specs.Words.{most_size};
ghost use Rattle.std.specs.Prelude.{IfOk, ◌≡◌, ◌≤◌};

use crate::answer::Answer;
use crate::check::bound_texts;
use crate::solve::{certified, status_of};
use controller::{Certificate, Outcome, law_export};
use game_model::Game;
use history_model::{law_controllers, law_splittings};
use scaled_num::Fraction;
use std::alloc::{AllocError, Global};

/// The answer of `gen` to a number and a size, with at most so many trials and this tolerance.
pub fn work(
    alloc: Global,
    number: u64,
    size: u32,
    trials: u32,
    gap: &Fraction,
) -> Result<Answer, AllocError>
    requires least { 1 ≤ size }
    requires most { size ≤ most_size }
    requires trials { trials ≤ most_trials }
    requires gap { IsGap (fraction_data gap.now) }
    ensures { IfOk result (λ answer.
        AnswersSummary number size trials (fraction_data gap.now) answer.status answer.text.items) }
{
    let game = game_gen::make(alloc, number, size)?;
    let certificate = certified(alloc, &game, trials, gap)?;
    Ok(Answer {
        status: status_of(certificate.outcome),
        text: summary_text(alloc, number, size, &game, &certificate)?,
    })
}

/// A law: the answer of `gen` with trials is defined, and keeps its promise.
pub fn law_summary()
    ensures defined { SummaryIsDefined }
    ensures keeps { KeepsSummary }
{
    game_gen::law_made();
    law_export();
    law_controllers();
    law_splittings();
}

/// The summary of a certificate that stands.
fn summary_text(
    alloc: Global,
    number: u64,
    size: u32,
    game: &Game,
    certificate: &Certificate,
) -> Result<Vec<u8>, AllocError>
    requires { CertificateStands game.now certificate.now }
    ensures { IfOk result (λ text. IsSummaryText number size certificate.now text.items) }
{
    let bounds = bound_texts(alloc, game, certificate)?;
    let mut text = heading(alloc, number, size, outcome_word(certificate.outcome))?;
    text.extend_from_slice(&bound_lines(alloc, &bounds.lower, &bounds.upper, &bounds.tail)?)?;
    text.extend_from_slice(&size_line(alloc, certificate.nodes.len(), certificate.points.len())?)?;
    Ok(text)
}

/// The lines of a game's number and size, and of an outcome.
fn heading(alloc: Global, number: u64, size: u32, outcome: &str) -> Result<Vec<u8>, AllocError>
    ensures { IfOk result (λ text. text.items ≡ heading number size outcome.now) }
{
    Ok(format!(in alloc; "game {number} size {size}\noutcome {outcome}\n")?.into_bytes())
}

/// The lines of the bounds and the tail.
fn bound_lines(alloc: Global, lower: &str, upper: &str, tail: &str) -> Result<Vec<u8>, AllocError>
    ensures { IfOk result (λ text. text.items ≡ bound_lines lower.now upper.now tail.now) }
{
    Ok(format!(in alloc; "lower {lower}\nupper {upper}\ntail {tail}\n")?.into_bytes())
}

/// The line of the numbers of nodes and points.
fn size_line(alloc: Global, nodes: u32, points: u32) -> Result<Vec<u8>, AllocError>
    ensures { IfOk result (λ text. text.items ≡ size_line nodes points) }
{
    Ok(format!(in alloc; "sizes {nodes} {points}\n")?.into_bytes())
}

/// The word for how a run ended.
fn outcome_word(outcome: Outcome) -> &'static str
    ensures { result.now ≡ outcome_word (ending_of outcome) }
{
    match outcome {
        Outcome::Closed => "closed",
        Outcome::Trials => "trials",
        Outcome::Full => "full",
    }
}

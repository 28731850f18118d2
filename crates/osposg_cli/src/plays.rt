//! The command `simulate`: a play of a certificate that stands.
ghost use Rattle.controller.specs.Certificates.{CertificateFits, CertificateStands};
ghost use Rattle.osposg_cli.specs.Inputs.{most_input};
ghost use Rattle.osposg_cli.specs.Simulate.{AnswersSimulate, IsShownPlay, IsSimulation, KeepsSimulate, SimulateIsAnswered};
ghost use Rattle.osposg_cli.specs.Simulate.{SimulateIsDefined, log_text, numbered, stage_line, stage_lines, what_happened, with_gain};
ghost use Rattle.std.specs.Prelude.{IfOk, length, ◌≡◌, ◌≤◌};
ghost use Rattle.std.specs.String.{string_bytes};

use crate::answer::Answer;
use crate::inputs::{game_and_certificate, law_texts};
use crate::refusals::no;
use crate::status::Status;
use cert_check::{Verdict, law_once};
use controller::Certificate;
use game_model::Game;
use scaled_num::print;
use simulate::{PlayLog, Played, Rival, law_plays, longest, play};
use std::alloc::{AllocError, Global};

/// The answer of `simulate` to a game text with a certificate text at once after it.
pub fn work(
    alloc: Global,
    seed: u64,
    stages: u32,
    rival: Rival,
    bytes: &[u8],
) -> Result<Answer, AllocError>
    requires { length bytes.now ≤ most_input }
    ensures { IfOk result (λ answer. AnswersSimulate seed stages rival bytes.now answer.status answer.text.items) }
{
    match game_and_certificate(alloc, bytes)? {
        Ok((game, certificate)) => simulation(alloc, &game, &certificate, seed, stages, rival),
        Err(refusal) => Ok(refusal),
    }
}

/// A law: the answer of `simulate` is defined, and a play keeps its promise.
pub fn law_simulate()
    ensures defined { SimulateIsDefined }
    ensures some { SimulateIsAnswered }
    ensures keeps { KeepsSimulate }
{
    law_texts();
    game_text::law_decided();
    cert_text::law_decided();
    law_once();
    law_plays();
}

/// The play of a certificate that stands, or where it does not.
fn simulation(
    alloc: Global,
    game: &Game,
    certificate: &Certificate,
    seed: u64,
    stages: u32,
    rival: Rival,
) -> Result<Answer, AllocError>
    requires { CertificateFits game.now certificate.now }
    ensures { IfOk result (λ answer.
        IsSimulation seed stages rival game.now certificate.now answer.status answer.text.items) }
{
    match cert_check::check(game, certificate) {
        Verdict::Yes => shown_play(alloc, game, certificate, seed, stages, rival),
        Verdict::No(reason) => no(alloc, &reason),
    }
}

/// The play of so many stages, or of as many as a play may have.
fn shown_play(
    alloc: Global,
    game: &Game,
    certificate: &Certificate,
    seed: u64,
    stages: u32,
    rival: Rival,
) -> Result<Answer, AllocError>
    requires { CertificateStands game.now certificate.now }
    ensures { IfOk result (λ answer.
        IsShownPlay seed stages rival game.now certificate.now answer.status answer.text.items) }
{
    let most = longest(game);
    let log = play(alloc, game, certificate, seed, stages.min(most), rival)?;
    Ok(Answer {
        status: Status::Done,
        text: log_text(alloc, &log)?.into_bytes(),
    })
}

/// The lines of a play and its gain.
fn log_text(alloc: Global, log: &PlayLog) -> Result<String, AllocError>
    ensures { IfOk result (λ text. string_bytes text ≡ log_text log.now.steps.items log.now.gain.num log.now.gain.den) }
{
    let stages = stage_lines(alloc, &log.steps)?;
    let gain = print(alloc, &log.gain)?;
    with_gain(alloc, &stages, &gain)
}

/// The gain after the lines of a play.
fn with_gain(alloc: Global, stages: &str, gain: &str) -> Result<String, AllocError>
    ensures { IfOk result (λ text. string_bytes text ≡ with_gain stages.now gain.now) }
{
    format!(in alloc; "{stages}gain {gain}\n")
}

/// The lines of stages, with numbers from 0 on.
fn stage_lines(alloc: Global, steps: &[Played]) -> Result<String, AllocError>
    ensures { IfOk result (λ text. string_bytes text ≡ stage_lines 0 steps.now) }
{
    let mut text = String::new(alloc);
    for number in 0..steps.len() {
        text.push_str(&stage_line(alloc, number, &steps[number])?)?;
    }
    Ok(text)
}

/// A stage as a line.
fn stage_line(alloc: Global, number: usize, played: &Played) -> Result<String, AllocError>
    ensures { IfOk result (λ line. string_bytes line ≡ stage_line number played.now) }
{
    let what = what_happened(alloc, played)?;
    numbered(alloc, number, played.state, &what)
}

/// What happens in a stage, after its number and state.
fn numbered(alloc: Global, number: usize, state: u32, what: &str) -> Result<String, AllocError>
    ensures { IfOk result (λ line. string_bytes line ≡ numbered number state what.now) }
{
    format!(in alloc; "stage {number} state {state} {what}\n")
}

/// What happens in a stage: both actions, the observation and the next state.
fn what_happened(alloc: Global, played: &Played) -> Result<String, AllocError>
    ensures { IfOk result (λ text. string_bytes text ≡ what_happened played.now) }
{
    let Played {
        own,
        informed,
        seen,
        to,
        ..
    } = *played;
    format!(in alloc; "own {own} informed {informed} seen {seen} to {to}")
}

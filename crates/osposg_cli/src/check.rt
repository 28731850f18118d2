//! The command `check`: the verdict on a certificate for a game.
ghost use Rattle.controller.specs.Certificates.{CertificateFits, CertificateStands};
ghost use Rattle.osposg_cli.specs.Check.{AnswersCheck, AreBounds, IsVerdict, IsYesText, KeepsCheck, placed, yes_lines};
ghost use Rattle.osposg_cli.specs.Defined.{AreAnswered, IsDefined};
ghost use Rattle.osposg_cli.specs.Inputs.{most_input};
ghost use Rattle.scaled_num.specs.Printed.{fraction_text};
ghost use Rattle.std.specs.Prelude.{IfOk, length, ◌≡◌, ◌≤◌};
ghost use Rattle.std.specs.String.{string_bytes};

use crate::answer::Answer;
use crate::inputs::{game_and_certificate, law_texts};
use crate::refusals::no;
use crate::status::Status;
use cert_check::{Verdict, law_once};
use controller::Certificate;
use game_model::{Game, law_game};
use history_model::{law_controllers, law_splittings};
use scaled_num::{Fraction, decimals_down, decimals_up, print};
use std::alloc::{AllocError, Global};

/// The bounds and the tail of a certificate, each as a fraction with its decimal places.
#[derive(Drop)]
pub struct BoundTexts {
    /// Rounded down.
    pub lower: String,
    /// Rounded up.
    pub upper: String,
    /// Rounded up.
    pub tail: String,
}

/// The answer of `check` to a game text with a certificate text at once after it.
pub fn work(alloc: Global, bytes: &[u8]) -> Result<Answer, AllocError>
    requires { length bytes.now ≤ most_input }
    ensures { IfOk result (λ answer. AnswersCheck bytes.now answer.status answer.text.items) }
{
    match game_and_certificate(alloc, bytes)? {
        Ok((game, certificate)) => verdict(alloc, &game, &certificate),
        Err(refusal) => Ok(refusal),
    }
}

/// A law: the answer of `check` is defined, and a yes keeps its promise.
pub fn law_check()
    ensures defined { IsDefined AnswersCheck }
    ensures some { AreAnswered AnswersCheck }
    ensures keeps { KeepsCheck }
{
    law_texts();
    game_text::law_decided();
    cert_text::law_decided();
    law_once();
    law_controllers();
    law_splittings();
}

/// The verdict on a certificate.
fn verdict(alloc: Global, game: &Game, certificate: &Certificate) -> Result<Answer, AllocError>
    requires { CertificateFits game.now certificate.now }
    ensures { IfOk result (λ answer. IsVerdict game.now certificate.now answer.status answer.text.items) }
{
    match cert_check::check(game, certificate) {
        Verdict::Yes => Ok(Answer {
            status: Status::Done,
            text: yes_text(alloc, game, certificate)?,
        }),
        Verdict::No(reason) => no(alloc, &reason),
    }
}

/// What `check` writes of a certificate that stands: `yes`, its bounds and its tail.
fn yes_text(alloc: Global, game: &Game, certificate: &Certificate) -> Result<Vec<u8>, AllocError>
    requires { CertificateStands game.now certificate.now }
    ensures { IfOk result (λ text. IsYesText certificate.now text.items) }
{
    let bounds = bound_texts(alloc, game, certificate)?;
    yes_lines(alloc, &bounds.lower, &bounds.upper, &bounds.tail)
}

/// The bounds and the tail of a certificate that stands, each as a fraction with its decimal places.
pub fn bound_texts(
    alloc: Global,
    game: &Game,
    certificate: &Certificate,
) -> Result<BoundTexts, AllocError>
    requires { CertificateStands game.now certificate.now }
    ensures { IfOk result (λ texts.
        AreBounds certificate.now (string_bytes texts.lower) (string_bytes texts.upper) (string_bytes texts.tail)) }
{
    law_game(game);
    let down = decimals_down(alloc, &certificate.lower)?;
    let lower = placed(alloc, &certificate.lower, &down)?;
    let up = decimals_up(alloc, &certificate.upper)?;
    let upper = placed(alloc, &certificate.upper, &up)?;
    let most = decimals_up(alloc, &certificate.tail)?;
    let tail = placed(alloc, &certificate.tail, &most)?;
    Ok(BoundTexts { lower, upper, tail })
}

/// A fraction and its decimal places.
fn placed(alloc: Global, fraction: &Fraction, places: &str) -> Result<String, AllocError>
    ensures { IfOk result (λ text.
        string_bytes text ≡ placed (fraction_text fraction.now.num fraction.now.den) places.now) }
{
    let fraction = print(alloc, fraction)?;
    spaced(alloc, &fraction, places)
}

/// Two words with a space between them.
fn spaced(alloc: Global, first: &str, second: &str) -> Result<String, AllocError>
    ensures { IfOk result (λ text. string_bytes text ≡ placed first.now second.now) }
{
    format!(in alloc; "{first} {second}")
}

/// The lines of a yes.
fn yes_lines(alloc: Global, lower: &str, upper: &str, tail: &str) -> Result<Vec<u8>, AllocError>
    ensures { IfOk result (λ text. text.items ≡ yes_lines lower.now upper.now tail.now) }
{
    Ok(format!(in alloc; "yes\nlower {lower}\nupper {upper}\ntail {tail}\n")?.into_bytes())
}

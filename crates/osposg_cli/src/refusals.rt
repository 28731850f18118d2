//! The answers that refuse the words or a part of the input.
ghost use Rattle.cert_check.specs.Verdicts.{place_of};
ghost use Rattle.osposg_cli.specs.Refusals.{cert_refused, game_refused, no_text, words_refused};
ghost use Rattle.std.specs.Prelude.{IfOk, ◌≡◌};

use crate::answer::Answer;
use crate::status::Status;
use cert_check::Reason;
use cert_text::CertKind;
use game_text::Kind;
use std::alloc::{AllocError, Global};

/// The answer where the words name no command.
pub fn words_refused(alloc: Global) -> Result<Answer, AllocError>
    ensures { IfOk result (λ answer.
        (answer.status ≡ Status.WordsRefused) × (answer.text.items ≡ words_refused)) }
{
    Ok(Answer {
        status: Status::WordsRefused,
        text: Vec::from_slice(alloc, b"words refused\n")?,
    })
}

/// The answer to a game text whose first refused line, counted from 1, is this one.
pub fn game_refused(alloc: Global, line: u32, kind: Kind) -> Result<Answer, AllocError>
    ensures { IfOk result (λ answer.
        (answer.status ≡ Status.GameRefused) × (answer.text.items ≡ game_refused line kind)) }
{
    let number = kind.number();
    Ok(Answer {
        status: Status::GameRefused,
        text: format!(in alloc; "game refused: line {line} kind {number}\n")?.into_bytes(),
    })
}

/// The answer to a certificate text whose first refused line, counted from 1, is this one.
pub fn cert_refused(alloc: Global, line: u32, kind: CertKind) -> Result<Answer, AllocError>
    ensures { IfOk result (λ answer.
        (answer.status ≡ Status.CertRefused) × (answer.text.items ≡ cert_refused line kind)) }
{
    let number = kind.number();
    Ok(Answer {
        status: Status::CertRefused,
        text: format!(in alloc; "certificate refused: line {line} kind {number}\n")?.into_bytes(),
    })
}

/// The answer to a certificate that does not stand: the first place that fails.
pub fn no(alloc: Global, reason: &Reason) -> Result<Answer, AllocError>
    ensures { IfOk result (λ answer.
        (answer.status ≡ Status.No) × (answer.text.items ≡ no_text (place_of reason.now))) }
{
    let text = match *reason {
        Reason::Node { i, s, c } => format!(in alloc; "no node {i} state {s} action {c}\n")?,
        Reason::Corner { j } => format!(in alloc; "no corner {j}\n")?,
        Reason::Split { j, a, o, s } => format!(in alloc;
            "no split {j} action {a} seen {o} state {s}\n"
        )?,
        Reason::Value { j, a } => format!(in alloc; "no value {j} action {a}\n")?,
        Reason::Start => String::from_str(alloc, "no start\n")?,
        Reason::Bound => String::from_str(alloc, "no bound\n")?,
        Reason::Outcome => String::from_str(alloc, "no outcome\n")?,
    };
    Ok(Answer {
        status: Status::No,
        text: text.into_bytes(),
    })
}

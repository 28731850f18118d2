//! The command `close`: a certificate that stands, made better.
ghost use Rattle.closing.specs.Closer.{most_rounds};
ghost use Rattle.controller.specs.Certificates.{CertificateFits, CertificateStands, IsGap};
ghost use Rattle.controller.specs.Data.{fraction_data};
ghost use Rattle.osposg_cli.specs.Close.{AnswersClose, CloseIsTold, IsCloserAnswer, IsClosing, KeepsClose, gap_or};
ghost use Rattle.osposg_cli.specs.Inputs.{most_input};
ghost use Rattle.osposg_cli.specs.Words.{gap_data};
ghost use Rattle.std.specs.Option.{option_map};
ghost use Rattle.std.specs.Prelude.{IfOk, IfSome, length, ◌≡◌, ◌≤◌};

use crate::answer::Answer;
use crate::inputs::{game_and_certificate, law_texts};
use crate::refusals::no;
use crate::solve::status_of;
use crate::words::Gap;
use cert_check::Verdict;
use controller::Certificate;
use game_model::Game;
use history_model::{law_controllers, law_splittings};
use scaled_num::Fraction;
use std::alloc::{AllocError, Global};

/// The answer of `close` to a game text with a certificate text at once after it, with at most so many rounds and this
/// tolerance, or the certificate's own.
pub fn work(
    alloc: Global,
    rounds: u32,
    gap: Option<Gap>,
    bytes: &[u8],
) -> Result<Answer, AllocError>
    requires rounds { rounds ≤ most_rounds }
    requires gap { IfSome gap (λ gap. IsGap (gap_data gap)) }
    requires bytes { length bytes.now ≤ most_input }
    ensures { IfOk result (λ answer.
        AnswersClose rounds (option_map gap_data gap) bytes.now answer.status answer.text.items) }
{
    match game_and_certificate(alloc, bytes)? {
        Ok((game, certificate)) => closer(alloc, &game, certificate, rounds, gap),
        Err(refusal) => Ok(refusal),
    }
}

/// A law: the answer of `close` has a text, and keeps its promise.
pub fn law_close()
    ensures told { CloseIsTold }
    ensures keeps { KeepsClose }
{
    law_texts();
    law_controllers();
    law_splittings();
}

/// The text of a closer certificate of one that stands, and of another one the first place where it does not stand.
fn closer(
    alloc: Global,
    game: &Game,
    certificate: Certificate,
    rounds: u32,
    gap: Option<Gap>,
) -> Result<Answer, AllocError>
    requires fits { CertificateFits game.now certificate }
    requires rounds { rounds ≤ most_rounds }
    requires gap { IfSome gap (λ gap. IsGap (gap_data gap)) }
    ensures { IfOk result (λ answer.
        IsClosing rounds (option_map gap_data gap) game.now certificate answer.status answer.text.items) }
{
    match cert_check::check(game, &certificate) {
        Verdict::Yes => {
            let gap = gap_or(&certificate, gap);
            closed(alloc, game, certificate, rounds, &gap)
        }
        Verdict::No(reason) => no(alloc, &reason),
    }
}

/// The tolerance that is given, or else that of a certificate.
fn gap_or(certificate: &Certificate, gap: Option<Gap>) -> Fraction
    requires gap { IfSome gap (λ gap. IsGap (gap_data gap)) }
    ensures { fraction_data result ≡ gap_or certificate.now.gap (option_map gap_data gap) }
{
    match gap {
        Some(gap) => gap.fraction(),
        None => certificate.gap,
    }
}

/// The text of a closer certificate of one that stands.
fn closed(
    alloc: Global,
    game: &Game,
    certificate: Certificate,
    rounds: u32,
    gap: &Fraction,
) -> Result<Answer, AllocError>
    requires stands { CertificateStands game.now certificate }
    requires rounds { rounds ≤ most_rounds }
    requires gap { IsGap (fraction_data gap.now) }
    ensures { IfOk result (λ answer.
        IsCloserAnswer rounds (fraction_data gap.now) game.now certificate answer.status answer.text.items) }
{
    let closer = closing::close(alloc, game, certificate, rounds, gap)?;
    Ok(Answer {
        status: status_of(closer.outcome),
        text: cert_text::print(alloc, game, &closer)?,
    })
}

//! What commands share in reading their input: a game alone, or a game and a certificate at once after it.
ghost use Rattle.cert_text.specs.Answers.{IsTextFor};
ghost use Rattle.game_text.specs.Text.{IsWholeTextOf};
ghost use Rattle.osposg_cli.specs.Inputs.{IsTextOfBoth, RefusesBoth, RefusesGame, RefusesRest, TextsAreExact};
ghost use Rattle.osposg_cli.specs.Inputs.{most_input};
ghost use Rattle.std.specs.Prelude.{IfOk, MatchResult, length, ◌≤◌};

use crate::answer::Given;
use crate::refusals::{cert_refused, game_refused};
use cert_text::CertFault;
use controller::Certificate;
use game_model::Game;
use game_text::TextFault;
use std::alloc::{AllocError, Global};

/// The most bytes of an input.
pub const MOST_INPUT: usize = 1 << 26;

/// The game whose text the bytes are, or the answer that refuses them.
pub fn game_alone(alloc: Global, bytes: &[u8]) -> Result<Given<Game>, AllocError>
    requires { length bytes.now ≤ most_input }
    ensures { IfOk result (λ given. MatchResult given
        (λ game. IsWholeTextOf game bytes.now)
        (λ refusal. RefusesGame bytes.now refusal.status refusal.text.items)) }
{
    match game_text::read_alone(alloc, bytes) {
        Ok(game) => Ok(Ok(game)),
        Err(TextFault::Line { line, kind }) => Ok(Err(game_refused(alloc, line, kind)?)),
        Err(TextFault::OutOfMemory) => Err(AllocError),
    }
}

/// The game and the certificate for it whose texts the bytes are, or the answer that refuses them.
pub fn game_and_certificate(
    alloc: Global,
    bytes: &[u8],
) -> Result<Given<(Game, Certificate)>, AllocError>
    requires { length bytes.now ≤ most_input }
    ensures { IfOk result (λ given. MatchResult given
        (λ both. IsTextOfBoth both.0 both.1 bytes.now)
        (λ refusal. RefusesBoth bytes.now refusal.status refusal.text.items)) }
{
    match game_text::read(alloc, bytes) {
        Ok((game, end)) => match certificate_for(alloc, &game, &bytes[end..])? {
            Ok(certificate) => Ok(Ok((game, certificate))),
            Err(refusal) => Ok(Err(refusal)),
        },
        Err(TextFault::Line { line, kind }) => Ok(Err(game_refused(alloc, line, kind)?)),
        Err(TextFault::OutOfMemory) => Err(AllocError),
    }
}

/// The certificate for a game whose text the bytes are, or the answer that refuses them.
fn certificate_for(
    alloc: Global,
    game: &Game,
    bytes: &[u8],
) -> Result<Given<Certificate>, AllocError>
    requires { length bytes.now ≤ most_input }
    ensures { IfOk result (λ given. MatchResult given
        (λ certificate. IsTextFor game.now certificate bytes.now)
        (λ refusal. RefusesRest game.now bytes.now refusal.status refusal.text.items)) }
{
    match cert_text::read(alloc, game, bytes) {
        Ok(certificate) => Ok(Ok(certificate)),
        Err(CertFault::Line { line, kind }) => Ok(Err(cert_refused(alloc, line, kind)?)),
        Err(CertFault::OutOfMemory) => Err(AllocError),
    }
}

/// A law: an input is of one game and one certificate, or is refused once, and never both.
pub fn law_texts()
    ensures { TextsAreExact }
{
    game_text::law_games();
    game_text::law_whole_games();
    game_text::law_refused_once();
    game_text::law_front_refused_once();
    game_text::law_not_refused();
    game_text::law_whole_not_refused();
    cert_text::law_one();
    cert_text::law_refused_once();
    cert_text::law_read();
    cert_text::law_not_refused();
}

//! Reading a game and a certificate that stands.
ghost use Rattle.cert_text.specs.Answers.{IsTextFor};
ghost use Rattle.game_text.specs.Text.{IsTextOf};
ghost use Rattle.promises.specs.Promises.{Earns, HoldsDown};
ghost use Rattle.promises.specs.Telling.{IsUntold};
ghost use Rattle.std.specs.Prelude.{IfErr, IfOk, drop, length, ℕ, ◌≤◌, ◌^◌};

use crate::earns;
use cert_text::CertFault;
use controller::Certificate;
use game_model::Game;
use game_text::TextFault;
use std::alloc::Global;

/// Why no certificate is told.
#[derive(Clone, Copy, Debug, PartialEq, Eq)]
pub enum Untold {
    /// No text of a game stands at the front of the bytes, or memory was wanting.
    Game(TextFault),
    /// What follows the text of the game is the text of no certificate that fits it, or memory was wanting.
    Certificate(CertFault),
    /// The certificate does not stand.
    Fails,
}

/// The game and the certificate that the bytes spell, one at once after the other, where the certificate stands.
///
/// # Errors
///
/// Where they spell none, with the first refused line of the game, or of the certificate, and its least kind; where the
/// certificate does not stand; for want of memory.
pub fn told(alloc: Global, bytes: &[u8]) -> Result<(Game, Certificate), Untold>
    requires { length bytes.now ≤ 2 ^ 27 }
    ensures text { IfOk result (λ found. (place : ℕ) × IsTextOf found.0 bytes.now (drop place bytes.now) × IsTextFor found.0 found.1 (drop place bytes.now)) }
    ensures lower { IfOk result (λ found. Earns found.0 found.1) }
    ensures upper { IfOk result (λ found. HoldsDown found.0 found.1) }
    ensures untold { IfErr result (IsUntold bytes.now) }
{
    let (game, place) = match game_text::read(alloc, bytes) {
        Ok(found) => found,
        Err(fault) => return Err(Untold::Game(fault)),
    };
    let certificate = match cert_text::read(alloc, &game, &bytes[place..]) {
        Ok(certificate) => certificate,
        Err(fault) => return Err(Untold::Certificate(fault)),
    };
    if !earns(&game, &certificate) {
        return Err(Untold::Fails);
    }
    Ok((game, certificate))
}

//! The checker: all places of a certificate in their order.

ghost use Rattle.cert_check.specs.Verdicts.{AllHold, FailingFalls, FailsAmong, FailsOnce, StandsOrFails, place_of};
ghost use Rattle.cert_check.specs.declared.verdicts.Reason.{Reason};
ghost use Rattle.controller.specs.Certificates.{CertificateFits, CertificateStands, FailsFirst, places};
ghost use Rattle.std.specs.Prelude.{IfSome, IsNone, ◌↔◌, ◌≡◌};

use crate::bounds::first_end;
use crate::members::{first_node, first_point};
use crate::verdicts::{Reason, Verdict};
use controller::Certificate;
use game_model::Game;

/// Whether a certificate stands: yes, or the first place at which it fails. The places come in this order: the nodes
/// by number, state and informed action; then point by point its corner, its split places by own action, observation
/// and next state, and its values by own action; then the start, the bounds and the outcome. It takes no memory.
pub fn check(game: &Game, certificate: &Certificate) -> Verdict
    requires { CertificateFits game.now certificate.now }
    ensures yes { (result ≡ Verdict.Yes) ↔ CertificateStands game.now certificate.now }
    ensures no { (reason : Reason) → (result ≡ Verdict.No reason)
        ↔ FailsFirst game.now certificate.now (place_of reason) }
{
    match first_fault(game, certificate) {
        None => Verdict::Yes,
        Some(reason) => Verdict::No(reason),
    }
}

/// A law: a certificate fails first at one place only, and then it does not stand; one that fits stands or fails first
/// at a place.
pub fn law_once()
    ensures once { FailsOnce }
    ensures falls { FailingFalls }
    ensures decided { StandsOrFails }
{}

/// The first place at which a certificate fails.
fn first_fault(game: &Game, certificate: &Certificate) -> Option<Reason>
    requires { CertificateFits game.now certificate.now }
    ensures none { IsNone result → AllHold game.now certificate.now (places game.now certificate.now) }
    ensures first { IfSome result (FailsAmong game.now certificate.now (places game.now certificate.now)) }
{
    if let Some(reason) = first_node(game, certificate) {
        return Some(reason);
    }
    if let Some(reason) = first_point(game, certificate) {
        return Some(reason);
    }
    first_end(game, certificate)
}

//! The tests of the nodes and of the points of a certificate.

ghost use Rattle.cert_check.specs.Verdicts.{AllHold, FailsAmong};
ghost use Rattle.controller.specs.Certificates.{CertificateFits, CornerAt, Holds, node_places, point_places, points_places};
ghost use Rattle.std.specs.Bool.{IsTrue};
ghost use Rattle.std.specs.Prelude.{IfSome, IsNone, length, ◌<◌, ◌↔◌};

use crate::verdicts::Reason;
use controller::Certificate;
use game_model::Game;
use point_set::PointFault;

/// The first place at which a node fails.
pub fn first_node(game: &Game, certificate: &Certificate) -> Option<Reason>
    requires { CertificateFits game.now certificate.now }
    ensures none { IsNone result → AllHold game.now certificate.now (node_places game.now certificate.now) }
    ensures first { IfSome result (FailsAmong game.now certificate.now (node_places game.now certificate.now)) }
{
    for i in 0..certificate.nodes.len() {
        if let Some((s, c)) = certificate.nodes.stands(game, i) {
            return Some(Reason::Node { i, s, c });
        }
    }
    None
}

/// The first place at which a point fails.
pub fn first_point(game: &Game, certificate: &Certificate) -> Option<Reason>
    requires { CertificateFits game.now certificate.now }
    ensures none { IsNone result → AllHold game.now certificate.now (points_places game.now certificate.now) }
    ensures first { IfSome result (FailsAmong game.now certificate.now (points_places game.now certificate.now)) }
{
    for j in 0..certificate.points.len() {
        if let Some(reason) = first_of_point(game, certificate, j) {
            return Some(reason);
        }
    }
    None
}

/// The first place at which one point fails: its corner, its split places, its values.
fn first_of_point(game: &Game, certificate: &Certificate, j: u32) -> Option<Reason>
    requires fits { CertificateFits game.now certificate.now }
    requires member { j < length certificate.now.points }
    ensures none { IsNone result → AllHold game.now certificate.now (point_places game.now j) }
    ensures first { IfSome result (FailsAmong game.now certificate.now (point_places game.now j)) }
{
    if j < game.states() && !is_corner(game, certificate, j) {
        return Some(Reason::Corner { j });
    }
    match certificate.points.stands(game, j) {
        None => None,
        Some(PointFault::Split { a, o, s }) => Some(Reason::Split { j, a, o, s }),
        Some(PointFault::Value { a }) => Some(Reason::Value { j, a }),
    }
}

/// Whether the belief of a point is sure of the state of its number.
fn is_corner(game: &Game, certificate: &Certificate, j: u32) -> bool
    requires fits { CertificateFits game.now certificate.now }
    requires member { j < length certificate.now.points }
    requires state { j < game.now.shape.states }
    ensures { IsTrue result ↔ Holds game.now certificate.now (CornerAt j) }
{
    let parts = certificate.points.point(j).belief.parts();
    for s in 0..game.states() {
        if parts[s as usize] != i128::from(s == j) {
            return false;
        }
    }
    true
}

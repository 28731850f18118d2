//! The starts of a certificate move to better members.

ghost use Rattle.closing.specs.Closer.{IsBetter};
ghost use Rattle.closing.specs.Starts.{IsStartNode, IsStartPoint};
ghost use Rattle.controller.specs.Certificates.{CertificateStands};
ghost use Rattle.controller.specs.Concluded.{EndsByGap};
ghost use Rattle.std.specs.Bool.{IsTrue};
ghost use Rattle.std.specs.Prelude.{IfOk, IfSome, length, pos, ◌≡◌};

use crate::keeps::least_at;
use belief::Belief;
use controller::{Certificate, sum_of_weights};
use game_model::{Game, law_game};
use std::alloc::{AllocError, Global};

/// The certificate with the better of two starts on each side: the given start nodes or the node that is worth the most
/// at the first belief, and the given start points or the point of least value among those of the first belief.
///
/// # Errors
///
/// Where no memory is to be had.
pub fn restarted(
    alloc: Global,
    game: &Game,
    certificate: Certificate,
) -> Result<Certificate, AllocError>
    requires stands { CertificateStands game.now certificate }
    requires ends { EndsByGap certificate }
    ensures { IfOk result (IsBetter game.now certificate) }
{
    let next = with_better_node(alloc, game, certificate)?;
    with_better_point(alloc, game, next)
}

/// The certificate with the better of two starts among its nodes.
fn with_better_node(
    alloc: Global,
    game: &Game,
    certificate: Certificate,
) -> Result<Certificate, AllocError>
    requires stands { CertificateStands game.now certificate }
    requires ends { EndsByGap certificate }
    ensures { IfOk result (IsBetter game.now certificate) }
{
    match better_node(game, &certificate) {
        Some(number) => with_start_node(alloc, game, certificate, number),
        None => Ok(certificate),
    }
}

/// The certificate with the better of two starts among its points.
fn with_better_point(
    alloc: Global,
    game: &Game,
    certificate: Certificate,
) -> Result<Certificate, AllocError>
    requires stands { CertificateStands game.now certificate }
    requires ends { EndsByGap certificate }
    ensures { IfOk result (IsBetter game.now certificate) }
{
    match better_point(game, &certificate) {
        Some(number) => with_start_point(alloc, game, certificate, number),
        None => Ok(certificate),
    }
}

/// The node that is worth the most at the first belief, where it is worth more than the start nodes are in the mean.
fn better_node(game: &Game, certificate: &Certificate) -> Option<u32>
    requires stands { CertificateStands game.now certificate.now }
    ensures { IfSome result (IsStartNode game.now certificate.now) }
{
    law_game(game);
    if !takes_one_node(certificate) {
        return None;
    }
    let (product, number) = certificate.nodes.worth(game.first());
    if product * sum_of_weights(&certificate.start_nodes) <= certificate.lower.num {
        return None;
    }
    Some(number)
}

/// Whether there may be one start node: beside one start point it asks for the multiple 1.
fn takes_one_node(certificate: &Certificate) -> bool
    ensures { IsTrue result → length certificate.now.start_points ≡ 1 → certificate.now.multiple ≡ pos 1 }
{
    certificate.start_points.len() != 1 || certificate.multiple == 1
}

/// A point of least value among those of the first belief, where its value is below the upper bound.
fn better_point(game: &Game, certificate: &Certificate) -> Option<u32>
    requires stands { CertificateStands game.now certificate.now }
    ensures { IfSome result (IsStartPoint game.now certificate.now) }
{
    law_game(game);
    let number = least_at(&certificate.points, &Belief::first_of(game))?;
    if certificate.upper.num <= certificate.points.point(number).value * certificate.multiple {
        return None;
    }
    Some(number)
}

/// The certificate with one start node.
fn with_start_node(
    alloc: Global,
    game: &Game,
    certificate: Certificate,
    number: u32,
) -> Result<Certificate, AllocError>
    requires stands { CertificateStands game.now certificate }
    requires node { IsStartNode game.now certificate number }
    ensures { IfOk result (IsBetter game.now certificate) }
{
    let next = Certificate {
        start_nodes: vec![in alloc; (number, 1)]?,
        ..certificate
    };
    Ok(next.concluded(game))
}

/// The certificate with one start point, of the first belief itself.
fn with_start_point(
    alloc: Global,
    game: &Game,
    certificate: Certificate,
    number: u32,
) -> Result<Certificate, AllocError>
    requires stands { CertificateStands game.now certificate }
    requires point { IsStartPoint game.now certificate number }
    ensures { IfOk result (IsBetter game.now certificate) }
{
    let next = Certificate {
        start_points: vec![in alloc; (number, 1)]?,
        multiple: 1,
        ..certificate
    };
    Ok(next.concluded(game))
}

//! The members of a certificate that its starts reach.

ghost use Rattle.closing.specs.Closer.{IsBetter};
ghost use Rattle.controller.specs.Certificates.{CertificateStands};
ghost use Rattle.controller.specs.Concluded.{EndsByGap};
ghost use Rattle.std.specs.Prelude.{IfOk};

use controller::{Certificate, export};
use game_model::{Game, law_game};
use std::alloc::{AllocError, Global};

/// With more members of a side there is little room for others.
const MOST_HELD: u32 = 900;

/// The certificate itself where nothing shall be dropped and there is room for other members, and else its export.
///
/// # Errors
///
/// Where no memory is to be had.
pub fn with_room(
    alloc: Global,
    game: &Game,
    certificate: Certificate,
    drops: bool,
) -> Result<Certificate, AllocError>
    requires stands { CertificateStands game.now certificate }
    requires ends { EndsByGap certificate }
    ensures { IfOk result (IsBetter game.now certificate) }
{
    if drops || is_nearly_full(&certificate) {
        exported(alloc, game, &certificate)
    } else {
        Ok(certificate)
    }
}

/// Whether there is little room for nodes or points.
fn is_nearly_full(certificate: &Certificate) -> bool {
    certificate.nodes.len() > MOST_HELD || certificate.points.len() > MOST_HELD
}

/// The export of a certificate that stands: the members that its starts reach, with the same bounds.
///
/// # Errors
///
/// Where no memory is to be had.
pub fn exported(
    alloc: Global,
    game: &Game,
    certificate: &Certificate,
) -> Result<Certificate, AllocError>
    requires stands { CertificateStands game.now certificate.now }
    requires ends { EndsByGap certificate.now }
    ensures { IfOk result (IsBetter game.now certificate.now) }
{
    law_game(game);
    export(
        alloc,
        game,
        &certificate.nodes,
        &certificate.points,
        &certificate.start_nodes,
        &certificate.start_points,
        certificate.multiple,
        &certificate.gap,
        certificate.outcome,
    )
}

//! The bounds of a certificate, whether they are within its gap, and how it ends by that.

ghost use Rattle.controller.specs.Certificates.{BoundAt, CertificateFits, Holds, IsWithinGap, StartAt};
ghost use Rattle.controller.specs.Concluded.{EndsByGap, HasSameMembers, IsConcluded, with_outcome};
ghost use Rattle.controller.specs.Data.{ending_of};
ghost use Rattle.std.specs.Bool.{IsTrue};
ghost use Rattle.std.specs.Prelude.{◌↔◌};

use crate::bounds::{bound_scale, lower_bound, tail, upper_bound};
use crate::certificates::{Certificate, Outcome};
use crate::quotients::{divided, is_at_most_sum};
use crate::starts::sum_of_weights;
use game_model::{Game, law_game};

impl Certificate {
    /// Whether upper less lower is at most the gap. The certificate fits the game, and its bounds are those that its
    /// starts prove. It takes no memory.
    pub fn is_within_gap(&self, game: &Game) -> bool
        requires fits { CertificateFits game.now self.now }
        requires bounds { Holds game.now self.now BoundAt }
        ensures { IsTrue result ↔ IsWithinGap self.now }
    {
        let from = sum_of_weights(&self.start_nodes);
        let lower = divided(self.lower.num, from);
        let upper = divided(self.upper.num, self.multiple);
        let gap = divided(self.gap.num * bound_scale(game), self.gap.den);
        is_at_most_sum(&upper, &lower, &gap)
    }

    /// The certificate with the bounds that its starts prove, Closed where these are within the gap, else Trials. It
    /// fits the game but for its bounds, which may be any, and its start points make up the multiple of the first
    /// belief. It takes no memory.
    pub fn concluded(self, game: &Game) -> Certificate
        requires fits { CertificateFits game.now self }
        requires start { Holds game.now self StartAt }
        ensures fits { CertificateFits game.now result }
        ensures concluded { IsConcluded game.now self result }
    {
        let bounded = bounded(self, game);
        let outcome = outcome_by_gap(&bounded, game);
        Certificate { outcome, ..bounded }
    }
}

/// Closed where the bounds of a certificate are within its gap, else Trials.
fn outcome_by_gap(certificate: &Certificate, game: &Game) -> Outcome
    requires fits { CertificateFits game.now certificate.now }
    requires bounds { Holds game.now certificate.now BoundAt }
    ensures { EndsByGap (with_outcome (ending_of result) certificate.now) }
{
    if certificate.is_within_gap(game) {
        Outcome::Closed
    } else {
        Outcome::Trials
    }
}

/// The certificate with the bounds and the tail that its starts prove.
fn bounded(certificate: Certificate, game: &Game) -> Certificate
    requires fits { CertificateFits game.now certificate }
    requires start { Holds game.now certificate StartAt }
    ensures fits { CertificateFits game.now result }
    ensures same { HasSameMembers certificate result }
    ensures bound { Holds game.now result BoundAt }
{
    law_game(game);
    let lower = lower_bound(game, &certificate.nodes, &certificate.start_nodes);
    let upper = upper_bound(
        game,
        &certificate.points,
        &certificate.start_points,
        certificate.multiple,
    );
    Certificate {
        lower,
        upper,
        tail: tail(game),
        ..certificate
    }
}

//! Laws of plays.

ghost use Rattle.controller.specs.Certificates.{CertificateStands};
ghost use Rattle.simulate.specs.DrawnPlays.{EvenIsPlan, IsOwnPlay, PlaysAreOwn};
ghost use Rattle.simulate.specs.Lengths.{LengthsAreOne};

use crate::parts::Rival;
use controller::Certificate;
use game_model::{Game, law_game};

/// A law: what is simulated is a play of the certificate's own plans. The stages of every seed, with the drawn nodes
/// and points, are a play of the controller against the rival's plan, from the first state that is drawn: the
/// splitting strategy, or the plan to which each action is as likely as another. It is of positive weight, and gains
/// what the stages gain.
pub fn law_play(game: &Game, certificate: &Certificate, seed: u64, stages: u32, against: Rival)
    requires { CertificateStands game.now certificate.now }
    ensures even { EvenIsPlan game.now }
    ensures play { IsOwnPlay game.now certificate.now seed stages against }
{
    law_game(game);
    law_plays();
}

/// A law: the same of every game and certificate that stands, and a game has one greatest number of stages.
pub fn law_plays()
    ensures own { PlaysAreOwn }
    ensures lengths { LengthsAreOne }
{}

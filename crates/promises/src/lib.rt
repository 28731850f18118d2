//! What a certificate that stands promises, said of strategies by history and of sums over all lists of stages.
#![tactic(auto)]

ghost use Rattle.controller.specs.Certificates.{CertificateStands};
ghost use Rattle.game_model.specs.Game.{first_at, numbers, span};
ghost use Rattle.promises.specs.Promises.{ActionEarns, DrawsExactly, Earns, EarnsAt, EarnsInTheMean, HoldsDown, HoldsInTheMean, StartsAreDrawn};
ghost use Rattle.promises.specs.Watching.{EarnsWatched, EarnsWatchedAt, WatchedInTheMean};
ghost use Rattle.promises.specs.Telling.{IsSeedWorth};
ghost use Rattle.promises.specs.Told.{Told};
ghost use Rattle.std.specs.Prelude.{IsTrue, ◌<◌, ◌↔◌};

mod telling;

use cert_check::{Verdict, check};
use controller::Certificate;
use game_model::{Game, MOST_STATES, law_game, law_seeds};
use history_model::{law_courses, law_machines, law_starts, law_strategies};
pub use telling::{Untold, told};

/// Whether a certificate stands. If it does, its controller earns at least the lower bound less the tail against every
/// strategy of the informed player that depends on the history, also where it sees the controller's nodes; and its
/// splitting strategy holds every strategy of player one that depends on the history to at most the upper bound plus
/// the tail.
pub fn earns(game: &Game, certificate: &Certificate) -> bool
    ensures stands { IsTrue result ↔ CertificateStands game.now certificate.now }
    ensures lower { IsTrue result → Earns game.now certificate.now }
    ensures lower_at { IsTrue result → EarnsAt game.now certificate.now }
    ensures lower_mean { IsTrue result → EarnsInTheMean game.now certificate.now }
    ensures watched { IsTrue result → EarnsWatched game.now certificate.now }
    ensures watched_at { IsTrue result → EarnsWatchedAt game.now certificate.now }
    ensures watched_mean { IsTrue result → WatchedInTheMean game.now certificate.now }
    ensures upper { IsTrue result → HoldsDown game.now certificate.now }
    ensures upper_mean { IsTrue result → HoldsInTheMean game.now certificate.now }
    ensures draws { IsTrue result → DrawsExactly game.now certificate.now }
    ensures starts { IsTrue result → StartsAreDrawn game.now certificate.now }
{
    if !certificate.fits(game) {
        return false;
    }
    if check(game, certificate) != Verdict::Yes {
        return false;
    }
    law_promises(game, certificate);
    true
}

/// A law: what the laws of `history_model` say, together.
fn law_told()
    ensures { Told }
{
    law_courses();
    law_strategies();
    law_machines();
    law_starts();
}

/// A law: a certificate that stands keeps the promises.
pub fn law_promises(game: &Game, certificate: &Certificate)
    requires { CertificateStands game.now certificate.now }
    ensures lower { Earns game.now certificate.now }
    ensures lower_at { EarnsAt game.now certificate.now }
    ensures lower_mean { EarnsInTheMean game.now certificate.now }
    ensures watched { EarnsWatched game.now certificate.now }
    ensures watched_at { EarnsWatchedAt game.now certificate.now }
    ensures watched_mean { WatchedInTheMean game.now certificate.now }
    ensures upper { HoldsDown game.now certificate.now }
    ensures upper_mean { HoldsInTheMean game.now certificate.now }
    ensures draws { DrawsExactly game.now certificate.now }
    ensures starts { StartsAreDrawn game.now certificate.now }
{
    law_game(game);
    law_told();
}

/// What always playing one action earns at least, less the tail, against every strategy of the informed player that
/// depends on the history: a numerator over 65,536 times the total of the first belief. It is the first belief's sum of
/// the action's seed vector, of which there is one.
pub fn always_earns(game: &Game, action: u32) -> i128
    requires { action < game.now.shape.own_actions }
    ensures earns { ActionEarns (numbers game.now) (first_at game.now) (span game.now) action result }
    ensures value { IsSeedWorth game.now action result }
{
    law_game(game);
    law_seeds();
    law_told();
    let mut entries = [0; MOST_STATES];
    let vector = &mut entries[..game.states() as usize];
    game.steady(action, vector);
    game.first_product(vector)
}

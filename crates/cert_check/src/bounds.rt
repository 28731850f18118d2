//! The last three tests of a certificate: its start, its bounds and its outcome.

ghost use Rattle.controller.specs.Quotients.{most_under};
ghost use Rattle.cert_check.specs.Verdicts.{AllHold, FailsAmong};
ghost use Rattle.controller.specs.Certificates.{BoundAt, CertificateFits, Holds, IsFraction, OutcomeAt, StartAt};
ghost use Rattle.controller.specs.Certificates.{end_places, lower_scale, lower_sum, upper_scale, upper_sum};
ghost use Rattle.controller.specs.Data.{fraction_data};
ghost use Rattle.controller.specs.Starts.{weighted};
ghost use Rattle.game_model.specs.Game.{IsWithin};
ghost use Rattle.point_set.specs.Corners.{point_at};
ghost use Rattle.scaled_num.specs.Share.{at};
ghost use Rattle.std.specs.Bool.{IsTrue};
ghost use Rattle.std.specs.Prelude.{IfSome, IsNone, pos, ◌*ℤ◌, ◌<◌, ◌↔◌, ◌≡◌};

use crate::verdicts::Reason;
use controller::{Certificate, Outcome, lower_bound, start_mass, tail, upper_bound};
use game_model::{Game, law_game};
use scaled_num::Fraction;

/// The first place at which the start, the bounds or the outcome fail.
pub fn first_end(game: &Game, certificate: &Certificate) -> Option<Reason>
    requires { CertificateFits game.now certificate.now }
    ensures none { IsNone result → AllHold game.now certificate.now end_places }
    ensures first { IfSome result (FailsAmong game.now certificate.now end_places) }
{
    if !starts_right(game, certificate) {
        return Some(Reason::Start);
    }
    if !bounds_are(game, certificate) {
        return Some(Reason::Bound);
    }
    if !outcome_is(game, certificate) {
        return Some(Reason::Outcome);
    }
    None
}

/// Whether in every state the start points bring the multiple of the first belief.
fn starts_right(game: &Game, certificate: &Certificate) -> bool
    requires { CertificateFits game.now certificate.now }
    ensures { IsTrue result ↔ Holds game.now certificate.now StartAt }
{
    for s in 0..game.states() {
        if !is_made_up(game, certificate, s) {
            return false;
        }
    }
    true
}

/// Whether the start points bring the multiple of the first belief to a state.
fn is_made_up(game: &Game, certificate: &Certificate, s: u32) -> bool
    requires fits { CertificateFits game.now certificate.now }
    requires state { s < game.now.shape.states }
    ensures { IsTrue result ↔
        (weighted certificate.now.start_points (λ j. at (point_at certificate.now.points j).belief s)
        ≡ certificate.now.multiple *ℤ at game.now.first s) }
{
    law_game(game);
    let points = &certificate.points;
    let brought = start_mass(game, points, &certificate.start_points, s);
    brought == times(certificate.multiple, game.first()[s as usize])
}

/// The multiple of a weight of the first belief.
fn times(multiple: i128, weight: i128) -> i128
    requires multiple { IsWithin (pos 0) most_under multiple }
    requires weight { IsWithin (pos 0) most_under weight }
    ensures { result ≡ multiple *ℤ weight }
{
    multiple * weight
}

/// Whether the bounds and the tail are those of the starts and the span.
fn bounds_are(game: &Game, certificate: &Certificate) -> bool
    requires fits { CertificateFits game.now certificate.now }
    requires start { Holds game.now certificate.now StartAt }
    ensures { IsTrue result ↔ Holds game.now certificate.now BoundAt }
{
    is_lower(game, certificate)
        && is_upper(game, certificate)
        && is_same(&certificate.tail, &tail(game))
}

/// Whether the lower bound is that of the start nodes.
fn is_lower(game: &Game, certificate: &Certificate) -> bool
    requires { CertificateFits game.now certificate.now }
    ensures { IsTrue result ↔
        IsFraction certificate.now.lower (lower_sum game.now certificate.now) (lower_scale game.now certificate.now) }
{
    let bound = lower_bound(game, &certificate.nodes, &certificate.start_nodes);
    is_same(&certificate.lower, &bound)
}

/// Whether the upper bound is that of the start points.
fn is_upper(game: &Game, certificate: &Certificate) -> bool
    requires fits { CertificateFits game.now certificate.now }
    requires start { Holds game.now certificate.now StartAt }
    ensures { IsTrue result ↔
        IsFraction certificate.now.upper (upper_sum certificate.now) (upper_scale game.now certificate.now) }
{
    let starts = &certificate.start_points;
    let bound = upper_bound(game, &certificate.points, starts, certificate.multiple);
    is_same(&certificate.upper, &bound)
}

/// Whether two fractions have the same numerator and the same denominator.
fn is_same(fraction: &Fraction, other: &Fraction) -> bool
    ensures { IsTrue result ↔ IsFraction (fraction_data fraction.now) other.now.num other.now.den }
{
    fraction.num == other.num && fraction.den == other.den
}

/// Whether the outcome says whether the gap is within the tolerance.
fn outcome_is(game: &Game, certificate: &Certificate) -> bool
    requires fits { CertificateFits game.now certificate.now }
    requires bounds { Holds game.now certificate.now BoundAt }
    ensures { IsTrue result ↔ Holds game.now certificate.now OutcomeAt }
{
    match certificate.outcome {
        Outcome::Closed => certificate.is_within_gap(game),
        Outcome::Trials | Outcome::Full => !certificate.is_within_gap(game),
    }
}

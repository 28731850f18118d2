//! A certificate is made better, round by round, until its gap closes.

ghost use Rattle.closing.specs.Closer.{IsBetter, IsCloser, ended_with, most_rounds};
ghost use Rattle.controller.specs.Certificates.{CertificateStands, Closed, IsGap};
ghost use Rattle.controller.specs.Concluded.{EndsByGap};
ghost use Rattle.controller.specs.Data.{fraction_data};
ghost use Rattle.std.specs.Bool.{IsTrue};
ghost use Rattle.std.specs.Prelude.{IfOk, ◌↔◌, ◌≡◌, ◌≤◌};

use crate::export::exported;
use crate::fineness::Fineness;
use crate::rounds::round;
use crate::signs::Signs;
use crate::sums::ratio;
use controller::{Certificate, Outcome};
use game_model::{Game, UNITS};
use scaled_num::Fraction;
use std::alloc::{AllocError, Global};

/// The most rounds.
pub const MOST_ROUNDS: u32 = 10_000;

/// A certificate that is closer than the given one: it stands, its lower bound is not below the given one and its upper
/// bound not above it. It is Closed exactly where its bounds are within the gap, and else has the outcome Trials. Where
/// they are within the gap already, or there are no rounds, it is the given one but for gap and outcome. The given one
/// stands, and rounds and gap are within their limits.
///
/// # Errors
///
/// Where no memory is to be had.
pub fn close(
    alloc: Global,
    game: &Game,
    certificate: Certificate,
    rounds: u32,
    gap: &Fraction,
) -> Result<Certificate, AllocError>
    requires stands { CertificateStands game.now certificate }
    requires rounds { rounds ≤ most_rounds }
    requires gap { IsGap (fraction_data gap.now) }
    ensures closer { IfOk result (IsCloser game.now certificate rounds (fraction_data gap.now)) }
{
    let given = with_gap(game, certificate, gap);
    if rounds == 0 || is_closed(&given) {
        return Ok(given);
    }
    let better = improved(alloc, game, given, rounds)?;
    exported(alloc, game, &better)
}

/// Whether the outcome of a certificate is Closed.
fn is_closed(certificate: &Certificate) -> bool
    ensures { IsTrue result ↔ (certificate.now.outcome ≡ Closed) }
{
    matches!(certificate.outcome, Outcome::Closed)
}

/// The certificate with another gap, and the outcome that its bounds have under it.
fn with_gap(game: &Game, certificate: Certificate, gap: &Fraction) -> Certificate
    requires stands { CertificateStands game.now certificate }
    requires gap { IsGap (fraction_data gap.now) }
    ensures same { result ≡ ended_with (fraction_data gap.now) result.outcome certificate }
    ensures better { IsBetter game.now (ended_with (fraction_data gap.now) certificate.outcome certificate) result }
{
    let given = Certificate {
        gap: *gap,
        ..certificate
    };
    given.concluded(game)
}

/// What rounds make of a certificate, each telling beliefs apart more finely; it ends at the first round whose bounds are
/// within the gap, or that tells beliefs apart as finely as can be and changes the entries of no node and the value of no
/// point.
///
/// # Errors
///
/// Where no memory is to be had.
fn improved(
    alloc: Global,
    game: &Game,
    certificate: Certificate,
    rounds: u32,
) -> Result<Certificate, AllocError>
    requires stands { CertificateStands game.now certificate }
    requires ends { EndsByGap certificate }
    ensures { IfOk result (IsBetter game.now certificate) }
{
    let mut best = certificate;
    let mut fineness = Fineness::coarse();
    for _ in 0..rounds {
        let before = Signs::of(&best);
        let apart = bounds_apart(&best);
        best = round(alloc, game, best, &fineness)?;
        if is_done(&best, &fineness, Signs::of(&best) != before) {
            return Ok(best);
        }
        fineness = fineness.finer(is_much_less(bounds_apart(&best), apart));
    }
    Ok(best)
}

/// What the bounds of a certificate are apart, in units.
fn bounds_apart(certificate: &Certificate) -> i128 {
    in_units(&certificate.upper).saturating_sub(in_units(&certificate.lower))
}

/// A fraction in units.
fn in_units(fraction: &Fraction) -> i128 {
    ratio(fraction.num.saturating_mul(UNITS), fraction.den)
}

/// Whether a number is less than another by an eighth or more.
fn is_much_less(number: i128, other: i128) -> bool {
    number.saturating_mul(8) <= other.saturating_mul(7)
}

/// Whether no further round is needed, after one that told beliefs apart so finely and changed a member or none.
fn is_done(certificate: &Certificate, fineness: &Fineness, changed: bool) -> bool {
    is_closed(certificate) || (!changed && fineness.is_finest())
}

ghost use Rattle.game_model.specs.Game.{IsMass, IsWithin};
ghost use Rattle.point_set.specs.Corners.{HasCorner, IsCurrentCorner};
ghost use Rattle.point_set.specs.Sawtooth.{AreCorners};
ghost use Rattle.point_set.specs.Split.{AreRisingPairs, IsWanted};
ghost use Rattle.sets_bench.specs.Full.{AreFull};
ghost use Rattle.std.specs.Bool.{IsTrue};
ghost use Rattle.std.specs.List.{AllByRecursion};
ghost use Rattle.std.specs.Prelude.{length, pos, slice_index_or, ℕ, ◌<◌, ◌≡◌, ◌≤◌, ◌^◌};

use alpha_set::MOST_NODES;
use belief::Belief;
use controller::Certificate;
use game_model::{Game, MOST_STATES, law_game};
use point_set::{MOST_POINTS, PointSet};
use scaled_num::sum;

/// The greatest mass, which any row total allows.
const MOST_MASS: i128 = 1 << 36;

/// The greatest weight of a wanted point.
const MOST_WEIGHT: i128 = 1 << 30;

/// Whether all masses are masses over the states of a game.
pub fn are_masses(game: &Game, masses: &[[i128; MOST_STATES]]) -> bool
    ensures { IsTrue result → AllByRecursion (IsMass game.now) masses.now }
{
    for mass in masses {
        if !is_mass(game, mass) {
            return false;
        }
    }
    true
}

/// Whether this is a mass over the states of a game, of at most 2^36.
#[tactic(auto, using(crate::proofs::Masses::right_mass, crate::proofs::Masses::small_sum))]
pub fn is_mass(game: &Game, mass: &[i128]) -> bool
    ensures { IsTrue result → IsMass game.now mass.now }
{
    law_game(game);
    if mass.len() != game.states() as usize || !are_parts(mass) {
        return false;
    }
    sum(mass) <= MOST_MASS
}

/// Whether each part is 0 to 2^36.
fn are_parts(mass: &[i128]) -> bool
    ensures { IsTrue result → AllByRecursion (IsWithin (pos 0) (pos (2 ^ 36))) mass.now }
{
    mass.iter().all(|part| 0 <= *part && *part <= MOST_MASS)
}

/// Whether a certificate fits a game, both of its sets are full, and its first points are the corners.
pub fn are_full(game: &Game, certificate: &Certificate) -> bool
    ensures { IsTrue result → AreFull game.now certificate.now.nodes certificate.now.points }
{
    law_game(game);
    certificate.fits(game)
        && certificate.nodes.len() == MOST_NODES as u32
        && certificate.points.len() == MOST_POINTS as u32
        && has_corners(&certificate.points, game.states())
}

/// Whether the first points are the corners of so many states.
fn has_corners(points: &PointSet, states: u32) -> bool
    requires few { states ≤ 16 }
    requires inside { states ≤ length points.now.members }
    ensures { IsTrue result → (s : ℕ) → s < states → HasCorner points.now.members s }
{
    for s in 0..states {
        if !has_corner(points, states, s) {
            return false;
        }
    }
    true
}

/// Whether the point of this number is the corner of the state.
fn has_corner(points: &PointSet, states: u32, s: u32) -> bool
    requires state { s < states }
    requires few { states ≤ 16 }
    requires inside { states ≤ length points.now.members }
    ensures { IsTrue result → HasCorner points.now.members s }
{
    points.point(s).belief.same(&Belief::corner(states, s))
}

/// The current corners of the first states.
fn current_corners(points: &PointSet, states: u32) -> [u32; MOST_STATES]
    requires few { states ≤ 16 }
    requires corners { (s : ℕ) → s < states → HasCorner points.now.members s }
    ensures { AreCorners points.now.members states (λ s. slice_index_or result s 0) }
{
    let mut corners = [0; MOST_STATES];
    for s in 0..states {
        corners[s as usize] = points.corner(s);
    }
    corners
}

/// Whether this is a list of at most eight wanted points.
pub fn are_wanted(points: &PointSet, states: u32, wanted: &[(u32, i128)]) -> bool
    requires few { states ≤ 16 }
    requires corners { (s : ℕ) → s < states → HasCorner points.now.members s }
    ensures { IsTrue result → IsWanted points.now.members states wanted.now }
{
    let _corners = current_corners(points, states);
    if wanted.is_empty() || wanted.len() > 8 {
        return false;
    }
    if !are_rising(wanted) || !are_inside(points, wanted) {
        return false;
    }
    are_weights(wanted)
}

/// Whether the numbers of wanted points rise.
fn are_rising(wanted: &[(u32, i128)]) -> bool
    ensures { IsTrue result → AreRisingPairs wanted.now }
{
    for place in 1..wanted.len() {
        if wanted[place - 1].0 >= wanted[place].0 {
            return false;
        }
    }
    true
}

/// Whether wanted points are points of a set.
fn are_inside(points: &PointSet, wanted: &[(u32, i128)]) -> bool
    ensures { IsTrue result → AllByRecursion (λ want. want.0 < length points.now.members) wanted.now }
{
    let count = points.len();
    wanted.iter().all(|want| want.0 < count)
}

/// Whether the weights of wanted points are 0 to 2^30.
fn are_weights(wanted: &[(u32, i128)]) -> bool
    ensures { IsTrue result → AllByRecursion (λ want. IsWithin (pos 0) (pos (2 ^ 30)) want.1) wanted.now }
{
    wanted
        .iter()
        .all(|want| 0 <= want.1 && want.1 <= MOST_WEIGHT)
}

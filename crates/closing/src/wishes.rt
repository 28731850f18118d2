//! The wishes of the informed player: after each own action and observation, the points to split the mass into.

ghost use Rattle.closing.specs.Plans.{AddsForEach, AddsSuch, AreForPairs, AreWished, AreWishesFor, TakesWish};
ghost use Rattle.game_model.specs.Branches.{branch_of};
ghost use Rattle.game_model.specs.Game.{IsWithin};
ghost use Rattle.point_set.specs.Sawtooth.{AreCorners};
ghost use Rattle.point_set.specs.Split.{is_corner, most_wish};
ghost use Rattle.stage_game.specs.Asked.{BeliefFits, PointsServe};
ghost use Rattle.stage_game.specs.Fits.{MixesFit};
ghost use Rattle.std.specs.Bool.{IsTrue};
ghost use Rattle.std.specs.List.{All};
ghost use Rattle.std.specs.Prelude.{IfOk, length, map, pos, slice_index, ℕ, ◌<◌, ◌≡◌, ◌≤◌};

use crate::hulls::Hull;
use crate::places::pair_place;
use crate::sums::ratio;
use belief::{Belief, Mixes, mass};
use game_model::{Game, MOST_STATES, law_game};
use point_set::{MOST_POINTS, PointSet, Share};
use std::alloc::{AllocError, Global};

/// The greatest weight of a wish.
const MOST_WISH: i128 = 1 << 30;

/// The most wished points that are no current corner.
const MOST_OTHERS: u32 = 8;

/// The greatest of numbers, and 0 where none is positive.
fn greatest_of(numbers: &[i128]) -> i128 {
    let mut best: i128 = 0;
    for number in numbers {
        best = best.max(*number);
    }
    best
}

/// Divides all weights by one number, so that none is above 2^30; a negative one becomes 0.
fn scale_down(weights: &mut [i128])
    ensures long { length weights.new ≡ length weights.old }
    ensures within { All (λ weight. IsWithin (pos 0) (pos most_wish) weight) weights.new }
{
    let divisor = ratio(greatest_of(weights), MOST_WISH).saturating_add(1);
    for weight in weights.iter_mut() {
        *weight = ratio(*weight, divisor).clamp(0, MOST_WISH);
    }
}

/// Writes the current corner of each state, by state.
fn write_corners(game: &Game, points: &PointSet, corners: &mut [u32])
    requires points { PointsServe game.now points.now.members }
    requires states { length corners.old ≡ game.now.shape.states }
    ensures long { length corners.new ≡ game.now.shape.states }
    ensures corners { AreCorners points.now.members game.now.shape.states (λ s. slice_index corners.new s) }
{
    for s in 0..game.states() {
        corners[s as usize] = points.corner(s);
    }
}

/// Whether a point is one of these corners.
fn is_current(corners: &[u32], k: u32) -> bool
    ensures { IsTrue result → IsTrue (is_corner (λ s. slice_index corners.now s) (length corners.now) k) }
{
    for corner in corners {
        if *corner == k {
            return true;
        }
    }
    false
}

/// Adds a wish for a point that weighs something, and for the first of all, but for a ninth that is no corner. Answers
/// how many are no corner then.
fn push_wish(
    corners: &[u32],
    a: u32,
    o: u32,
    k: u32,
    weight: i128,
    others: u32,
    wishes: &mut Vec<Share>,
) -> Result<u32, AllocError>
    requires weight { IsWithin (pos 0) (pos most_wish) weight }
    requires others { others ≤ 8 }
    requires first { k ≡ 0 → others ≡ 0 }
    ensures few { IfOk result (λ later. later ≤ 8) }
    ensures wish { IfOk result (λ later.
        TakesWish corners.now a o k others later (map branch_of wishes.old.items) (map branch_of wishes.new.items)) }
{
    if weight == 0 && k > 0 {
        return Ok(others);
    }
    if is_current(corners, k) {
        wishes.push(Share { a, o, k, weight })?;
        return Ok(others);
    }
    if others >= MOST_OTHERS {
        return Ok(others);
    }
    wishes.push(Share { a, o, k, weight })?;
    Ok(others + 1)
}

/// Adds the wishes by the weights of all points.
fn push_wishes(
    corners: &[u32],
    a: u32,
    o: u32,
    weights: &[i128],
    wishes: &mut Vec<Share>,
) -> Result<(), AllocError>
    requires few { length weights.now ≤ 1024 }
    requires weights { All (λ weight. IsWithin (pos 0) (pos most_wish) weight) weights.now }
    ensures { IfOk result (λ _. (others : ℕ) × AddsSuch (AreWished corners.now a o (length weights.now) others)
        (map branch_of wishes.old.items) (map branch_of wishes.new.items)) }
{
    let mut others = 0;
    for k in 0..weights.len() {
        others = push_wish(corners, a, o, k as u32, weights[k], others, wishes)?;
    }
    Ok(())
}

/// Adds the wishes after an own action and an observation. The slice of weights is overwritten.
fn push_wishes_after(
    game: &Game,
    belief: &Belief,
    mixes: &Mixes,
    points: &PointSet,
    hull: &mut Hull,
    a: u32,
    o: u32,
    weights: &mut [i128],
    wishes: &mut Vec<Share>,
) -> Result<(), AllocError>
    requires belief { BeliefFits game.now belief.now }
    requires mixes { MixesFit game.now mixes.now }
    requires points { PointsServe game.now points.now.members }
    requires own { a < game.now.shape.own_actions }
    requires seen { o < game.now.shape.observations }
    requires weights { length weights.old ≡ length points.now.members }
    ensures weights { length weights.new ≡ length points.now.members }
    ensures wishes { IfOk result (λ _.
        AddsSuch (AreWishesFor points.now.members game.now.shape.states a o) (map branch_of wishes.old.items)
        (map branch_of wishes.new.items)) }
{
    law_game(game);
    prove!(points.len() as usize <= MOST_POINTS);
    let states = game.states() as usize;
    let mut places = [0; MOST_STATES];
    let next = &mut places[..states];
    mass(game, belief, mixes, a, o, next);
    hull.split(game, points, pair_place(game, a, o), next, weights);
    scale_down(weights);
    let mut numbers = [0; MOST_STATES];
    let corners = &mut numbers[..states];
    write_corners(game, points, corners);
    push_wishes(corners, a, o, weights, wishes)
}

/// Adds the wishes after an own action.
fn push_wishes_of(
    game: &Game,
    belief: &Belief,
    mixes: &Mixes,
    points: &PointSet,
    hull: &mut Hull,
    a: u32,
    weights: &mut [i128],
    wishes: &mut Vec<Share>,
) -> Result<(), AllocError>
    requires belief { BeliefFits game.now belief.now }
    requires mixes { MixesFit game.now mixes.now }
    requires points { PointsServe game.now points.now.members }
    requires own { a < game.now.shape.own_actions }
    requires weights { length weights.old ≡ length points.now.members }
    ensures weights { length weights.new ≡ length points.now.members }
    ensures wishes { IfOk result (λ _.
        AddsForEach (AreWishesFor points.now.members game.now.shape.states a) game.now.shape.observations
        (map branch_of wishes.old.items) (map branch_of wishes.new.items)) }
{
    for o in 0..game.observations() {
        push_wishes_after(game, belief, mixes, points, hull, a, o, weights, wishes)?;
    }
    Ok(())
}

/// The wishes of all own actions and observations in order, for the masses that follow a belief under mixes.
///
/// # Errors
///
/// Where no memory is to be had.
pub fn wishes_of(
    alloc: Global,
    game: &Game,
    belief: &Belief,
    mixes: &Mixes,
    points: &PointSet,
    hull: &mut Hull,
) -> Result<Vec<Share>, AllocError>
    requires belief { BeliefFits game.now belief.now }
    requires mixes { MixesFit game.now mixes.now }
    requires points { PointsServe game.now points.now.members }
    ensures { IfOk result (λ wishes.
        AreForPairs game.now (AreWishesFor points.now.members game.now.shape.states) (map branch_of wishes.items)) }
{
    let mut weights = vec![in alloc; 0; points.len() as usize]?;
    let mut wishes = Vec::new(alloc);
    for a in 0..game.own_actions() {
        push_wishes_of(
            game,
            belief,
            mixes,
            points,
            hull,
            a,
            &mut weights,
            &mut wishes,
        )?;
    }
    Ok(wishes)
}

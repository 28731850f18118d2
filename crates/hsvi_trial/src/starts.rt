//! Where a controller and a splitting strategy start, and whether the bounds are near there.

ghost use Rattle.controller.specs.Certificates.{IsGap};
ghost use Rattle.controller.specs.Data.{fraction_data};
ghost use Rattle.game_model.specs.Spans.{IsWithinSpan};
ghost use Rattle.hsvi_trial.specs.Data.{start_data};
ghost use Rattle.hsvi_trial.specs.Founds.{HasStart, IsUpperFound, lowest_items};
ghost use Rattle.hsvi_trial.specs.Least.{IsLeastAt, NoneIsAt};
ghost use Rattle.hsvi_trial.specs.Starts.{AreClosed, AreOpen, IsStart, whole_first};
ghost use Rattle.stage_game.specs.Asked.{PointsServe};
ghost use Rattle.std.specs.Bool.{IsFalse, IsTrue};
ghost use Rattle.std.specs.Int.{◌∣◌};
ghost use Rattle.std.specs.List.{AllByRecursion};
ghost use Rattle.std.specs.Prelude.{IfOk, length, pos, unsigned_abs, ℕ, ◌<◌, ◌≡◌, ◌≤ℤ◌};

use crate::least::least_at;
use alpha_set::NodeSet;
use belief::Belief;
use game_model::{Game, MIX_TOTAL, MOST_STATES, UNITS, law_game};
use point_set::{PointSet, Split};
use scaled_num::{Fraction, gcd};
use std::alloc::{AllocError, Global};

/// A node and weighted points at which a controller and a splitting strategy start.
#[derive(Drop)]
pub struct StartOf {
    pub start_node: u32,
    pub start_points: Vec<(u32, i128)>,
    /// How many times the first belief the points make up.
    pub multiple: i128,
}

/// The points of a start, before their weights are brought to lowest terms.
#[derive(Drop)]
pub enum Upper {
    /// The first point of least value at the first belief.
    Root(u32),
    /// What the sawtooth bound at the first belief, times the mix total, is made of.
    Tooth(Split),
}

/// Whether the bounds at the start of sets are within a gap. It takes no memory.
pub fn are_closed(game: &Game, nodes: &NodeSet, points: &PointSet, gap: &Fraction) -> bool
    requires start { HasStart game.now (record { nodes = nodes.now.members; points = points.now.members }) }
    requires gap { IsGap (fraction_data gap.now) }
    ensures closed { IsTrue result →
        AreClosed game.now (fraction_data gap.now)
        (record { nodes = nodes.now.members; points = points.now.members }) }
    ensures open { IsFalse result →
        AreOpen game.now (fraction_data gap.now)
        (record { nodes = nodes.now.members; points = points.now.members }) }
{
    law_game(game);
    let (low, _) = nodes.worth(game.first());
    let (_, high) = upper_part(game, points);
    let distance = high - low * MIX_TOTAL;
    distance * gap.den <= gap.num * (MIX_TOTAL * (game.first_total() * UNITS))
}

/// The start of sets.
///
/// # Errors
///
/// Where no memory is to be had.
pub fn start_of(
    alloc: Global,
    game: &Game,
    nodes: &NodeSet,
    points: &PointSet,
) -> Result<StartOf, AllocError>
    requires { HasStart game.now (record { nodes = nodes.now.members; points = points.now.members }) }
    ensures { IfOk result (λ start.
        IsStart game.now (record { nodes = nodes.now.members; points = points.now.members }) (start_data start)) }
{
    law_game(game);
    let (_, start_node) = nodes.worth(game.first());
    match upper_part(game, points).0 {
        Upper::Root(root) => Ok(StartOf {
            start_node,
            start_points: vec![in alloc; (root, 1)]?,
            multiple: 1,
        }),
        Upper::Tooth(split) => {
            let divisor = divisor_of(&split);
            Ok(StartOf {
                start_node,
                start_points: divided(alloc, &split, divisor)?,
                multiple: (MIX_TOTAL.unsigned_abs() / divisor) as i128,
            })
        }
    }
}

/// The points of the start, and what they cost at the first belief times the mix total: the first point of least value
/// there, or what the sawtooth bound is made of where that is less.
fn upper_part(game: &Game, points: &PointSet) -> (Upper, i128)
    requires points { PointsServe game.now points.now.members }
    requires first { NoneIsAt points.now.members game.now.first (length points.now.members) → ⊥ }
    ensures found { IsUpperFound game.now points.now.members result.0 result.1 }
    ensures bounded { IsWithinSpan game.now (whole_first game.now) result.1 }
{
    law_game(game);
    let root = root_point(game, points);
    let value = MIX_TOTAL * points.point(root).value;
    let mut whole = [0; MOST_STATES];
    let whole = &mut whole[..game.states() as usize];
    write_whole_first(game, whole);
    let sawtooth = points.sawtooth(whole);
    if value <= sawtooth {
        return (Upper::Root(root), value);
    }
    let mut split = Split::new();
    points.tooth_split(whole, &mut split);
    (Upper::Tooth(split), sawtooth)
}

/// The first point of least value at the first belief.
fn root_point(game: &Game, points: &PointSet) -> u32
    requires { NoneIsAt points.now.members game.now.first (length points.now.members) → ⊥ }
    ensures { IsLeastAt points.now.members game.now.first (length points.now.members) result }
{
    match least_at(points, &Belief::first_of(game)) {
        Some(root) => root,
        None => unreachable!(),
    }
}

/// Writes the first belief, times the mix total.
fn write_whole_first(game: &Game, out: &mut [i128])
    requires { length out.old ≡ game.now.shape.states }
    ensures { out.new ≡ whole_first game.now }
{
    law_game(game);
    let first = game.first();
    for s in 0..first.len() {
        out[s] = MIX_TOTAL * first[s];
    }
}

/// The greatest common divisor of a split's weights.
fn divisor_of(split: &Split) -> u128
    ensures divides { AllByRecursion (λ item. result ∣ unsigned_abs item.1) split.now }
    ensures greatest { (d : ℕ) → AllByRecursion (λ item. d ∣ unsigned_abs item.1) split.now → d ∣ result }
{
    let mut divisor = 0;
    for i in 0..split.len() {
        divisor = gcd(divisor, split.item(i).1.unsigned_abs());
    }
    divisor
}

/// A split's items with their weights divided.
///
/// # Errors
///
/// Where no memory is to be had.
fn divided(alloc: Global, split: &Split, divisor: u128) -> Result<Vec<(u32, i128)>, AllocError>
    requires some { 0 < divisor }
    requires positive { AllByRecursion (λ item. pos 1 ≤ℤ item.1) split.now }
    ensures { IfOk result (λ items. items.items ≡ lowest_items divisor split.now) }
{
    let mut items = Vec::with_capacity(alloc, split.len() as usize)?;
    for i in 0..split.len() {
        let (number, weight) = split.item(i);
        items.push((number, (weight.unsigned_abs() / divisor) as i128))?;
    }
    Ok(items)
}

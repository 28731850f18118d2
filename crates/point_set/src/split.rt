//! Splits of a mass into beliefs of points.

ghost use Rattle.point_set.specs.Points.{most_share};
ghost use Rattle.game_model.specs.Limits.{most_states};
ghost use Rattle.point_set.specs.Members.{data_of};
ghost use Rattle.point_set.specs.Sawtooth.{AreCorners, AreMeasured};
ghost use Rattle.point_set.specs.Split.{AreRisingPairs, IsSplit, IsWanted, MakesUp, most_items, most_others};
ghost use Rattle.point_set.specs.Takes.{AreBeliefs, AreItems, AreTaken, IsIndex, IsSmall, inserted, others, with_rests};
ghost use Rattle.scaled_num.specs.Share.{at};
ghost use Rattle.game_model.specs.Game.{IsWithin};
ghost use Rattle.scaled_num.specs.Sums.{sum_of};
ghost use Rattle.std.specs.List.{AllByRecursion};
ghost use Rattle.std.specs.Prelude.{[], length, map, pos, slice_index_or, ℕ, ◌<◌, ◌^◌, ◌≡◌, ◌≤ℤ◌, ◌≤◌};

use crate::points::Point;
use crate::takes::{share_by, take};
use game_model::MOST_STATES;
use scaled_num::sum;
use std::marker::Model;

/// The most items of a split: a corner for each state, and eight other points.
pub const MOST_ITEMS: usize = MOST_STATES + 8;

/// A mass as a sum of beliefs of points: items of a point's number and a weight of at least 1, by rising number.
#[derive(Drop)]
pub struct Split {
    items: [(u32, i128); MOST_ITEMS],
    count: usize,
}

impl Model for Split {
    ghost use Rattle.point_set.specs.Split.{most_items};
    ghost use Rattle.std.specs.Prelude.{List, length, take, ℕ, ℤ, ◌≡◌, ◌≤◌};

    ghost Value = { List (ℕ × ℤ) };

    ghost view = { λ split. take split.count split.items };

    ghost invariant = { λ split. (split.count ≤ most_items) × (length split.items ≡ most_items) };
}

impl Split {
    /// A split without items. It takes no memory.
    pub fn new() -> Split
        ensures { result ≡ [] }
    {
        Split {
            items: [(0, 0); MOST_ITEMS],
            count: 0,
        }
    }

    /// The number of items, at most 24.
    pub fn len(&self) -> u32
        ensures count { result ≡ length self.now }
        ensures few { length self.now ≤ most_items }
    {
        self.count as u32
    }

    /// An item: the number of a point and how many times its belief.
    pub fn item(&self, i: u32) -> (u32, i128)
        requires { i < length self.now }
        ensures { result ≡ slice_index_or self.now i (0, pos 0) }
    {
        self.items[i as usize]
    }

    /// Adds weight under a number: to the item of that number, or as a new item in order.
    fn add(&mut self, number: u32, weight: i128)
        requires rising { AreRisingPairs self.old }
        requires small { AllByRecursion (λ item. IsSmall item.1) self.old }
        requires weight { IsSmall weight }
        requires room { length (inserted number weight self.old) ≤ most_items }
        ensures { self.new ≡ inserted number weight self.old }
    {
        let index = index_of(&self.items[..self.count], number);
        if index < self.count && self.items[index].0 == number {
            self.items[index].1 += weight;
            return;
        }
        self.items.copy_within(index..self.count, index + 1);
        self.items[index] = (number, weight);
        self.count += 1;
    }
}

/// The index of a number among items: how many have a smaller one.
fn index_of(items: &[(u32, i128)], number: u32) -> usize
    requires { AreRisingPairs items.now }
    ensures { IsIndex number items.now result }
{
    items.partition_point(|item| item.0 < number)
}

/// Splits a mass by wanted points, where the current corner of each state is known.
pub fn split_mass(
    points: &[Point],
    corners: &[u32],
    wanted: &[(u32, i128)],
    mass: &[i128],
    out: &mut Split,
)
    requires measured { AreMeasured (data_of points.now) mass.now }
    requires wanted { IsWanted (data_of points.now) (length mass.now) wanted.now }
    requires states { length corners.now ≡ length mass.now }
    requires current { AreCorners (data_of points.now) (length mass.now) (λ s. slice_index_or corners.now s 0) }
    ensures split { IsSplit (data_of points.now) wanted.now mass.now out.new }
    ensures makes_up { MakesUp (data_of points.now) out.new mass.now }
    ensures inside { AllByRecursion (λ item. item.0 < length points.now) out.new }
    ensures most { AllByRecursion (λ item. item.1 ≤ℤ sum_of mass.now) out.new }
{
    out.count = 0;
    let mut rest = [0; MOST_STATES];
    let rest = &mut rest[..mass.len()];
    rest.copy_from_slice(mass);
    let mut shares = [0; MOST_ITEMS];
    let shares = &mut shares[..wanted.len()];
    share_by(wanted, sum(mass), shares);
    take_wanted(points, wanted, shares, rest, out);
    give_corners(corners, rest, out);
}

/// Takes the beliefs of the wanted points off a mass in order, and adds an item for each that takes some.
fn take_wanted(
    points: &[Point],
    wanted: &[(u32, i128)],
    shares: &[i128],
    rest: &mut [i128],
    out: &mut Split,
)
    requires beliefs { AreBeliefs (length rest.old) (data_of points.now) }
    requires wanted { IsWanted (data_of points.now) (length rest.old) wanted.now }
    requires few { length rest.old ≤ most_states }
    requires shares { AllByRecursion (IsWithin (pos 0) most_share) shares.now }
    requires places { length shares.now ≡ length wanted.now }
    requires mass { AllByRecursion (λ x. pos 0 ≤ℤ x) rest.old }
    requires sum { sum_of rest.old ≤ℤ most_share }
    requires empty { out.old ≡ [] }
    ensures taken { AreTaken (data_of points.now) (map (λ want. want.0) wanted.now) shares.now rest.old rest.new
        out.new }
    ensures items { AreItems (data_of points.now) rest.old (at rest.new) out.new }
    ensures mass { AllByRecursion (λ x. pos 0 ≤ℤ x) rest.new }
    ensures places { length rest.new ≡ length rest.old }
    ensures sum { sum_of rest.new ≤ℤ sum_of rest.old }
    ensures others { (corners : ℕ → ℕ) → others corners (length rest.old) out.new
        ≤ others corners (length rest.old) wanted.now }
{
    for (index, want) in wanted.iter().enumerate() {
        let times = take(&points[want.0 as usize].belief, shares[index], rest);
        if times > 0 {
            out.add(want.0, times);
        }
    }
}

/// Adds what remains of a mass in each state to the item of its current corner.
fn give_corners(corners: &[u32], rest: &[i128], out: &mut Split)
    requires states { length corners.now ≤ most_states }
    requires places { length rest.now ≡ length corners.now }
    requires rising { AreRisingPairs out.old }
    requires few { others (λ s. slice_index_or corners.now s 0) (length corners.now) out.old ≤ most_others }
    requires items { AllByRecursion (λ item. IsWithin (pos 0) most_share item.1) out.old }
    requires rest { AllByRecursion (IsWithin (pos 0) most_share) rest.now }
    ensures { out.new ≡ with_rests (λ s. slice_index_or corners.now s 0) rest.now out.old (length corners.now) }
{
    for (s, number) in corners.iter().enumerate() {
        if rest[s] > 0 {
            out.add(*number, rest[s]);
        }
    }
}

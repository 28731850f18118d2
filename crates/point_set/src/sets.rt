//! The set of a splitting strategy's points.

ghost use Rattle.point_set.specs.Best.{IsBest};
ghost use Rattle.game_model.specs.Limits.{most_states};
ghost use Rattle.point_set.specs.Changes.{IsSettled, PointsStand};
ghost use Rattle.point_set.specs.Corners.{HasCorner, IsCurrentCorner, point_at};
ghost use Rattle.point_set.specs.Faults.{FailsFirst, SplitsHold};
ghost use Rattle.point_set.specs.Members.{most_points, point_data};
ghost use Rattle.point_set.specs.Points.{PointFits, PointStands, no_point, point_of, point_worth, points_of};
ghost use Rattle.point_set.specs.Sawtooth.{AreCorners, AreMeasured, IsSawtooth};
ghost use Rattle.point_set.specs.Split.{IsSplit, IsWanted, MakesUp};
ghost use Rattle.point_set.specs.Tooth.{IsToothSplit, items_cost};
ghost use Rattle.game_model.specs.Game.{numbers};
ghost use Rattle.game_model.specs.Spans.{IsWithinSpan};
ghost use Rattle.scaled_num.specs.Sums.{sum_of};
ghost use Rattle.std.specs.Bool.{IsTrue};
ghost use Rattle.std.specs.List.{AllByRecursion};
ghost use Rattle.std.specs.Prelude.{IfOk, IfSome, IsErrOf, IsNone, IsOk, OnErr, OnOk, [], length, slice_index_or, slice_set, vec_capacity, vec_len, ℕ, ◌++◌, ◌+◌, ◌<ℤ◌, ◌<◌, ◌↔◌, ◌∷◌, ◌≡◌, ◌≤ℤ◌, ◌≤◌};

use crate::corners::{NO_CORNER, corners_with};
use crate::gaps::renew_gaps;
use crate::points::Point;
use crate::renewing::renew_all;
use crate::sawtooth::least_bound;
use crate::settles::settle_point;
use crate::split::{Split, split_mass};
use crate::stands::{PointFault, first_fault};
use crate::teeth::split_tooth;
use crate::values::worth_after;
use game_model::{Game, MOST_STATES, law_game};
use std::alloc::{AllocError, Global};
use std::marker::Model;

/// The most points of a set.
pub const MOST_POINTS: usize = 1024;

/// Why a point is not added.
#[derive(Debug, Drop)]
pub enum PushFault {
    /// The set has 1,024 points.
    Full,
    /// No memory was to be had.
    OutOfMemory,
}

/// At most 1,024 points, by number.
#[derive(Drop)]
pub struct PointSet {
    points: Vec<Point>,
    /// For each state the number of its current corner, or the mark for none.
    corners: [u32; MOST_STATES],
    /// For each point the gap between its value and what its belief costs at the current corners.
    gaps: Vec<i128>,
}

impl Model for PointSet {
    ghost use Rattle.point_set.specs.Kept.{IsKept};
    ghost use Rattle.point_set.specs.Members.{point_data};
    ghost use Rattle.point_set.specs.Points.{PointData};
    ghost use Rattle.game_model.specs.Sets.{SetData};
    ghost use Rattle.std.specs.Prelude.{map, vec_capacity, vec_len, ◌-◌, ◌≤◌};

    ghost Value = { SetData PointData };

    ghost view = { λ set. record {
      members = map point_data set.points.items;
      spare = vec_capacity set.gaps - vec_len set.gaps;
    } };

    ghost invariant = { λ set. IsKept (map point_data set.points.items) set.corners set.gaps.items
        × (vec_capacity set.gaps ≤ vec_capacity set.points) };
}

impl PointSet {
    /// A set for the points of a game, empty at first. It takes no memory yet.
    pub fn new(alloc: Global, _game: &Game) -> PointSet
        ensures none { result.members ≡ [] }
        ensures no_spare { result.spare ≡ 0 }
    {
        PointSet {
            points: Vec::new(alloc),
            corners: [NO_CORNER; MOST_STATES],
            gaps: Vec::new(alloc),
        }
    }

    /// The number of points.
    pub fn len(&self) -> u32
        ensures count { result ≡ length self.now.members }
        ensures few { length self.now.members ≤ most_points }
    {
        self.points.len() as u32
    }

    /// The point of a number.
    pub fn point(&self, j: u32) -> &Point
        requires { j < length self.now.members }
        ensures { point_data result.now ≡ slice_index_or self.now.members j no_point }
    {
        &self.points[j as usize]
    }

    /// Adds a point, and answers its number.
    ///
    /// # Errors
    ///
    /// `Full` where the set has 1,024 points. `OutOfMemory` where no memory is to be had. A refusal drops the point and
    /// leaves the set as it was.
    pub fn push(&mut self, point: Point) -> Result<u32, PushFault>
        ensures full { IsErrOf result PushFault.Full ↔ (length self.old.members ≡ most_points) }
        ensures added { OnOk result (self.new.members ≡ self.old.members ++ point_data point ∷ []) }
        ensures number { IfOk result (λ number. number ≡ length self.old.members) }
        ensures unchanged { OnErr result (self.new ≡ self.old) }
        ensures room { 1 ≤ self.old.spare → length self.old.members < most_points → IsOk result }
        ensures lowers { 1 ≤ self.old.spare → OnOk result (self.new.spare + 1 ≡ self.old.spare) }
    {
        if self.points.len() == MOST_POINTS {
            return Err(PushFault::Full);
        }
        if make_room(&mut self.points, &mut self.gaps, 1).is_err() {
            return Err(PushFault::OutOfMemory);
        }
        let number = self.points.len() as u32;
        let corners = corners_with(self.corners, &self.points, &point);
        self.gaps.push_reserved(0);
        self.points.push_reserved(point);
        renew_gaps(&self.points, &self.corners, &corners, &mut self.gaps);
        self.corners = corners;
        Ok(number)
    }

    /// Takes memory for so many more points, where the set has none to spare for them.
    ///
    /// # Errors
    ///
    /// Where no memory is to be had. A refusal leaves the set as it was.
    pub fn reserve(&mut self, more: u32) -> Result<(), AllocError>
        ensures members { self.new.members ≡ self.old.members }
        ensures spare { OnOk result (more ≤ self.new.spare) }
        ensures unchanged { OnErr result (self.new ≡ self.old) }
    {
        make_room(&mut self.points, &mut self.gaps, more as usize)
    }

    /// Replaces the point of a number by another. It takes no memory.
    pub fn replace(&mut self, number: u32, point: Point)
        requires member { number < length self.old.members }
        ensures members { self.new.members ≡ slice_set self.old.members number (point_data point) }
        ensures spare { self.new.spare ≡ self.old.spare }
    {
        self.points[number as usize] = point;
        self.corners = renew_all(&self.points, &mut self.gaps);
    }

    /// Lowers the value of the point of a number to what one stage of it costs among the points as they are, and
    /// answers whether it fell. The value becomes the lesser of itself and of the greatest worth of a stage over the
    /// own actions, divided by the mix total, the row total and the discount's denominator and rounded up; the belief,
    /// the mixes and the shares stay. The splits of the point hold. Where all points stand, all of them stand after it.
    /// It takes no memory.
    pub fn settle(&mut self, game: &Game, number: u32) -> bool
        requires member { number < length self.old.members }
        requires fits { AllByRecursion (PointFits game.now (length self.old.members)) self.old.members }
        requires splits { SplitsHold (numbers game.now) (points_of self.old.members)
            (points_of self.old.members number) }
        ensures settled { IsSettled game.now self.old.members number self.new.members }
        ensures told { IsTrue result ↔ ((point_at self.new.members number).value
            <ℤ (point_at self.old.members number).value) }
        ensures spare { self.new.spare ≡ self.old.spare }
        ensures count { length self.new.members ≡ length self.old.members }
        ensures never_higher { (j : ℕ) → (point_at self.new.members j).value ≤ℤ (point_at self.old.members j).value }
        ensures beliefs { (j : ℕ) → (point_at self.new.members j).belief ≡ (point_at self.old.members j).belief }
        ensures fit { AllByRecursion (PointFits game.now (length self.new.members)) self.new.members }
        ensures stand { PointsStand (numbers game.now) self.old.members →
            PointsStand (numbers game.now) self.new.members }
    {
        law_game(game);
        settle_point(
            game,
            &mut self.points,
            number as usize,
            &mut self.corners,
            &mut self.gaps,
        )
    }

    /// The current corner of state `s`: the first point of least value among those whose belief is sure of `s`. It
    /// takes no memory.
    pub fn corner(&self, s: u32) -> u32
        requires { HasCorner self.now.members s }
        ensures { IsCurrentCorner self.now.members s result }
    {
        self.corners[s as usize]
    }

    /// The current corners of the first states, by state.
    fn first_corners(&self, states: usize) -> &[u32]
        requires few { states ≤ most_states }
        requires corners { (s : ℕ) → s < states → HasCorner self.now.members s }
        ensures count { length result.now ≡ states }
        ensures current { AreCorners self.now.members states (λ s. slice_index_or result.now s 0) }
    {
        &self.corners[..states]
    }

    /// The sawtooth bound of a mass, which no plan of player one passes: the least of what the mass costs at the
    /// current corners alone, and where one point's belief is taken off it as often as it fits and the corners make up
    /// the rest. It is in units, times the mass. The points fit one game with a point at each corner, and the mass is
    /// over its states, with a total of at most 2^36 times the row total. It takes no memory.
    pub fn sawtooth(&self, mass: &[i128]) -> i128
        requires { AreMeasured self.now.members mass.now }
        ensures sawtooth { IsSawtooth self.now.members mass.now result }
        ensures bounded { (measured : AreMeasured self.now.members mass.now) →
            IsWithinSpan measured.game mass.now result }
    {
        least_bound(&self.points, &self.corners, &self.gaps, mass).value
    }

    /// The first point whose bound at a mass is the least of all, where that bound is below what the mass costs at the
    /// current corners alone; None where no point's bound is. The mass is as for `sawtooth`. It takes no memory.
    pub fn best(&self, mass: &[i128]) -> Option<u32>
        requires { AreMeasured self.now.members mass.now }
        ensures { IsBest self.now.members mass.now result }
    {
        least_bound(&self.points, &self.corners, &self.gaps, mass).point
    }

    /// Splits a mass into beliefs of points, by a list of wanted points and weights. The total of the mass is shared
    /// by the weights. In the order of the list each point takes its belief as often as its share allows and as it
    /// still fits into what remains of the mass; what remains in the end goes to the current corners. The wanted
    /// numbers rise, the weights are 0 to 2^30, and at most eight wanted points are no current corner; the mass is as
    /// for `sawtooth`. It takes no memory.
    pub fn split_into(&self, wanted: &[(u32, i128)], mass: &[i128], out: &mut Split)
        requires measured { AreMeasured self.now.members mass.now }
        requires wanted { IsWanted self.now.members (length mass.now) wanted.now }
        ensures split { IsSplit self.now.members wanted.now mass.now out.new }
        ensures makes_up { MakesUp self.now.members out.new mass.now }
        ensures inside { AllByRecursion (λ item. item.0 < length self.now.members) out.new }
        ensures most { AllByRecursion (λ item. item.1 ≤ℤ sum_of mass.now) out.new }
    {
        let corners = self.first_corners(mass.len());
        split_mass(&self.points, corners, wanted, mass, out);
    }

    /// The split of a mass whose cost is its sawtooth bound: the best point as often as it fits, and what then remains
    /// at the current corners; the corners alone where there is no best point. The mass is as for `sawtooth`. It takes
    /// no memory.
    pub fn tooth_split(&self, mass: &[i128], out: &mut Split)
        requires { AreMeasured self.now.members mass.now }
        ensures split { IsToothSplit self.now.members mass.now out.new }
        ensures makes_up { MakesUp self.now.members out.new mass.now }
        ensures inside { AllByRecursion (λ item. item.0 < length self.now.members) out.new }
        ensures cost { IsSawtooth self.now.members mass.now (items_cost self.now.members out.new) }
    {
        let corners = self.first_corners(mass.len());
        split_tooth(&self.points, corners, self.best(mass), mass, out);
    }

    /// Whether a point stands: None where the split rule and the value rule hold everywhere. Else the first place
    /// at which one fails: of the split rule by own action, observation and next state, and only then of the value
    /// rule by own action. It takes no memory.
    pub fn stands(&self, game: &Game, j: u32) -> Option<PointFault>
        requires member { j < length self.now.members }
        requires fits { AllByRecursion (PointFits game.now most_points) self.now.members }
        requires named { AllByRecursion (λ share. share.member < length self.now.members)
            (slice_index_or self.now.members j no_point).splits }
        ensures none { IsNone result ↔ PointStands (numbers game.now) (points_of self.now.members)
            (points_of self.now.members j) }
        ensures first { IfSome result (FailsFirst (numbers game.now) (points_of self.now.members)
            (points_of self.now.members j)) }
    {
        first_fault(game, &self.points, &self.points[j as usize])
    }

    /// What one stage costs at most after own action `a` for a point whose splits hold among the points of the set,
    /// times the mix total, the row total and the discount's denominator: the left side of the value rule. The point
    /// need not be in the set. It takes no memory.
    pub fn stage_worth(&self, game: &Game, point: &Point, a: u32) -> i128
        requires own { a < game.now.shape.own_actions }
        requires fits { AllByRecursion (PointFits game.now most_points) self.now.members }
        requires point { PointFits game.now most_points (point_data point.now) }
        requires named { AllByRecursion (λ share. share.member < length self.now.members)
            (point_data point.now).splits }
        requires splits { SplitsHold (numbers game.now) (points_of self.now.members) (point_of (point_data point.now)) }
        ensures { result
            ≡ point_worth (numbers game.now) (points_of self.now.members) (point_of (point_data point.now)) a }
    {
        worth_after(game, &self.points, point, a)
    }
}

/// Makes room for so many more points and gaps; where there is room, nothing changes.
fn make_room(points: &mut Vec<Point>, gaps: &mut Vec<i128>, more: usize) -> Result<(), AllocError>
    requires both { vec_len gaps.old ≡ vec_len points.old }
    requires wide { vec_capacity gaps.old ≤ vec_capacity points.old }
    ensures points { points.new.items ≡ points.old.items }
    ensures gaps { gaps.new.items ≡ gaps.old.items }
    ensures point_count { vec_len points.new ≡ vec_len points.old }
    ensures gap_count { vec_len gaps.new ≡ vec_len gaps.old }
    ensures wide { vec_capacity gaps.new ≤ vec_capacity points.new }
    ensures room { OnOk result (vec_len gaps.new + more ≤ vec_capacity gaps.new) }
    ensures has { vec_len gaps.old + more ≤ vec_capacity gaps.old → IsOk result }
    ensures same { vec_len gaps.old + more ≤ vec_capacity gaps.old → vec_capacity gaps.new ≡ vec_capacity gaps.old }
    ensures unchanged { OnErr result (vec_capacity gaps.new ≡ vec_capacity gaps.old) }
{
    if more <= gaps.capacity() - gaps.len() {
        return Ok(());
    }
    points.reserve(more)?;
    gaps.reserve_exact(points.capacity() - points.len())
}

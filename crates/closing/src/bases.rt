//! The points among which a mass is divided, as the basis of a linear program over all points, and its steps.

ghost use Rattle.closing.specs.Better.{AreNodes};
ghost use Rattle.stage_game.specs.Asked.{PointsServe};
ghost use Rattle.std.specs.Prelude.{IfSome, length, ◌<◌, ◌≡◌, ◌≤◌};

use crate::fixed::{
    BITS, ONE, fixed_less, fixed_product, fixed_sum, inverse_of, narrow, normal_part, word,
};
use crate::places::{add_at, is_of_game};
use crate::recent::Recent;
use crate::sums::{ratio, total_of};
use crate::tables::{Heights, PART_BITS, Plane, PointTable};
use alpha_set::NodeSet;
use belief::Belief;
use game_model::{Game, MOST_STATES, law_game};
use point_set::PointSet;

/// A number for each state.
type Column = [i128; MOST_STATES];

/// How many points are taken at most, to make a plane lower.
const STEPS: u32 = 60;

/// How many points are taken at most, to bring shares back to 0 and more.
const MENDS: u32 = 32;

/// A mass is divided among points that it holds so often at least, since less than one may be left of it by each.
const LEAST_TIMES: i128 = 64;

/// An entry of a column has to be greater, to be divided by.
const LEAST_PIVOT: i128 = 1 << 22;

/// A share that is less counts as negative.
const LEAST_SHARE: i128 = -(1 << 14);

/// As many points as there are states, among which a mass is divided, and the plane through them.
#[derive(Clone, Copy)]
pub struct Basis {
    /// How many states there are, and places in use.
    states: usize,
    /// The point of each place.
    members: [u32; MOST_STATES],
    /// By place, what a mass of one state gives to it.
    inverse: [Column; MOST_STATES],
    /// The share of each place in the mass.
    shares: Column,
    /// What a unit of mass costs on the plane through the points.
    pub plane: Plane,
}

impl Basis {
    /// The corners.
    pub fn corners(game: &Game, points: &PointSet) -> Basis
        requires { PointsServe game.now points.now.members }
    {
        law_game(game);
        let mut basis = Basis {
            states: game.states() as usize,
            members: [0; MOST_STATES],
            inverse: [[0; MOST_STATES]; MOST_STATES],
            shares: [0; MOST_STATES],
            plane: Plane {
                heights: [0; MOST_STATES],
                most_total: 0,
            },
        };
        for s in 0..game.states() {
            basis.members[s as usize] = points.corner(s);
            basis.inverse[s as usize][s as usize] = ONE;
        }
        basis
    }

    /// Divides a mass among the points that are cheapest together, over the states of the game.
    pub fn settle(
        &mut self,
        game: &Game,
        points: &PointSet,
        table: &PointTable,
        recent: &mut Recent,
        mass: &[i128],
    )
        requires { PointsServe game.now points.now.members }
    {
        let most_total = word(total_of(mass) / LEAST_TIMES);
        let normal = normal_of(mass);
        self.begin(table, &normal, most_total);
        if !self.mend(table, recent) {
            *self = Basis::corners(game, points);
            self.begin(table, &normal, most_total);
        }
        for _ in 0..STEPS {
            if !self.improve(table, recent) {
                return;
            }
        }
    }

    /// Gives each place what a mass gives to it, and lays the plane, for points of at most a total.
    fn begin(&mut self, table: &PointTable, normal: &Column, most_total: i64) {
        self.share_out(normal);
        self.lay_plane(table);
        self.plane.most_total = most_total;
    }

    /// Takes the points off a mass, each as often as its share of the mass says, and adds what was taken to the weight of
    /// each.
    pub fn take(&self, points: &PointSet, mass: &mut [i128], weights: &mut [i128])
        ensures { length weights.new ≡ length weights.old }
    {
        let total = total_of(mass);
        for (member, share) in self.members.iter().zip(&self.shares).take(self.states) {
            if *share > 0 && *member < points.len() {
                let part = share.saturating_mul(total) >> BITS;
                let taken = take_off(&points.point(*member).belief, part, mass);
                add_at(weights, *member, taken);
            }
        }
    }

    /// What the nodes are worth at the points, each by its share, in units for one of the mass.
    pub fn worth(&self, game: &Game, nodes: &NodeSet, points: &PointSet) -> i128
        requires { AreNodes game.now nodes.now.members }
    {
        let mut sum: i128 = 0;
        for (member, share) in self.members.iter().zip(&self.shares).take(self.states) {
            if *share > 0 && *member < points.len() {
                let worth = worth_at(game, nodes, &points.point(*member).belief);
                sum = sum.saturating_add(worth.saturating_mul(*share));
            }
        }
        sum >> BITS
    }

    /// Gives each place what a mass gives to it.
    fn share_out(&mut self, normal: &Column) {
        let states = self.states;
        for (share, row) in self.shares.iter_mut().zip(&self.inverse).take(states) {
            *share = fixed_sum(row, normal, states);
        }
    }

    /// Lays the plane through the points.
    fn lay_plane(&mut self, table: &PointTable) {
        let mut heights: Column = [0; MOST_STATES];
        let states = self.states;
        for (member, row) in self.members.iter().zip(&self.inverse).take(states) {
            add_times(&mut heights, table.cost(*member), row, states);
        }
        for (height, sum) in self.plane.heights.iter_mut().zip(&heights) {
            *height = narrow(*sum >> BITS);
        }
    }

    /// Takes points that were found before for places of negative share, and answers whether none is left.
    fn mend(&mut self, table: &PointTable, recent: &Recent) -> bool {
        for _ in 0..MENDS {
            let Some(place) = self.shortest() else {
                return true;
            };
            if !self.mend_place(table, recent, place) {
                return false;
            }
        }
        false
    }

    /// The place whose share is the most below 0, where one is.
    fn shortest(&self) -> Option<usize>
        ensures { IfSome result (λ place. place < 16) }
    {
        let mut least = LEAST_SHARE;
        let mut found = None;
        for place in 0..MOST_STATES {
            if self.shares[place] < least {
                least = self.shares[place];
                found = Some(place);
            }
        }
        found
    }

    /// Takes the point for a place that rises the least above the plane for what it gives back, and answers whether there
    /// was one.
    fn mend_place(&mut self, table: &PointTable, recent: &Recent, place: usize) -> bool
        requires { place < 16 }
    {
        let row = Plane {
            heights: narrow_row(&self.inverse[place]),
            ..self.plane
        };
        match recent.cheapest(table, &self.plane, &row) {
            Some(k) => {
                let column = self.column(table, k);
                let divides = column[place] < -LEAST_PIVOT;
                if divides {
                    self.trade(table, place, k, &column);
                }
                divides
            }
            None => false,
        }
    }

    /// Takes the point that lies the most below the plane, and answers whether there was one.
    fn improve(&mut self, table: &PointTable, recent: &mut Recent) -> bool {
        match recent.lowest(table, &self.plane) {
            Some(k) => self.enter(table, k),
            None => false,
        }
    }

    /// Takes a point in the place of another one, and answers whether there was one to be replaced.
    fn enter(&mut self, table: &PointTable, k: u32) -> bool {
        let column = self.column(table, k);
        match self.leaving(&column) {
            Some(place) => {
                self.trade(table, place, k, &column);
                true
            }
            None => false,
        }
    }

    /// What the belief of a point gives to each place.
    fn column(&self, table: &PointTable, k: u32) -> Column {
        let parts = table.parts(k);
        let mut column = [0; MOST_STATES];
        let states = self.states;
        for (entry, row) in column.iter_mut().zip(&self.inverse).take(states) {
            *entry = given(row, &parts, states);
        }
        column
    }

    /// The place that is used up first by a column, of equal ones the first of greatest entry.
    fn leaving(&self, column: &Column) -> Option<usize>
        ensures { IfSome result (λ place. place < 16) }
    {
        let mut found = None;
        let mut share: i128 = 0;
        let mut most: i128 = 1;
        for place in 0..MOST_STATES {
            let entry = column[place];
            let ours = self.shares[place].max(0);
            let (here, there) = (ours.wrapping_mul(most), entry.wrapping_mul(share));
            let sooner = here < there || (here == there && entry > most) || found.is_none();
            if entry > LEAST_PIVOT && sooner {
                found = Some(place);
                share = ours;
                most = entry;
            }
        }
        found
    }

    /// Puts a point into a place, and lays the plane anew.
    fn trade(&mut self, table: &PointTable, place: usize, k: u32, column: &Column)
        requires place { place < 16 }
    {
        let pivot = inverse_of(column[place]);
        let mut row = self.inverse[place];
        for entry in &mut row {
            *entry = fixed_product(*entry, pivot);
        }
        let share = fixed_product(self.shares[place], pivot);
        self.lessen(column, &row, share);
        self.inverse[place] = row;
        self.shares[place] = share;
        self.members[place] = k;
        self.lay_plane(table);
    }

    /// Takes a row and its share off each place, as often as a column says.
    fn lessen(&mut self, column: &Column, row: &Column, share: i128) {
        let states = self.states;
        for (old, times) in self.inverse.iter_mut().zip(column).take(states) {
            lessen_row(old, *times, row, states);
        }
        for (old, times) in self.shares.iter_mut().zip(column).take(states) {
            *old = fixed_less(*old, *times, share);
        }
    }
}

/// What the nodes are worth at a belief, in units for its total; 0 where it is none of the game.
fn worth_at(game: &Game, nodes: &NodeSet, belief: &Belief) -> i128
    requires { AreNodes game.now nodes.now.members }
{
    law_game(game);
    if is_of_game(game, belief) {
        let (worth, _) = nodes.worth(belief.parts());
        ratio(worth, belief.total())
    } else {
        0
    }
}

/// Takes a belief off a mass as often as a part of the mass says and as it fits, and answers how much was taken.
fn take_off(belief: &Belief, part: i128, mass: &mut [i128]) -> i128 {
    let total = belief.total();
    let mut times = ratio(part, total);
    for (left, weight) in mass.iter().zip(belief.parts()) {
        if *weight > 0 {
            times = times.min(ratio(*left, *weight));
        }
    }
    let times = times.max(0);
    for (left, weight) in mass.iter_mut().zip(belief.parts()) {
        *left = left.saturating_sub(times.saturating_mul(*weight));
    }
    times.saturating_mul(total)
}

/// Takes a row off another one, so many times.
fn lessen_row(row: &mut Column, times: i128, other: &Column, states: usize) {
    for (entry, less) in row.iter_mut().zip(other).take(states) {
        *entry = fixed_less(*entry, times, *less);
    }
}

/// Adds a row to sums, so many times.
fn add_times(sums: &mut Column, times: i128, row: &Column, states: usize) {
    for (sum, entry) in sums.iter_mut().zip(row).take(states) {
        *sum = sum.wrapping_add(times.wrapping_mul(*entry));
    }
}

/// What parts of 2^26 give to a place of this row.
fn given(row: &Column, parts: &Heights, states: usize) -> i128 {
    let mut sum: i128 = 0;
    for (entry, part) in row.iter().zip(parts).take(states) {
        sum = sum.wrapping_add(entry.wrapping_mul(i128::from(*part)));
    }
    sum >> PART_BITS
}

/// A row in numbers below 2^36, divided by a power of two.
fn narrow_row(row: &Column) -> Heights {
    let shift = shift_of(row);
    let mut heights = [0; MOST_STATES];
    for (height, entry) in heights.iter_mut().zip(row) {
        *height = narrow(*entry >> shift);
    }
    heights
}

/// How many bits a row is shifted by, so that its numbers are below 2^36.
fn shift_of(row: &Column) -> u32
    ensures { result ≤ 64 }
{
    let mut most: i128 = 0;
    for entry in row {
        most = most.max(*entry).max(0i128.saturating_sub(*entry));
    }
    128u32
        .saturating_sub(most.leading_zeros())
        .saturating_sub(36)
        .clamp(8, 64)
}

/// A mass as parts of one.
fn normal_of(mass: &[i128]) -> Column {
    let total = total_of(mass);
    let mut normal = [0; MOST_STATES];
    for (part, weight) in normal.iter_mut().zip(mass) {
        *part = normal_part(*weight, total);
    }
    normal
}

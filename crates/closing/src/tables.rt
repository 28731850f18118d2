//! Points as a linear program sees them: each belief as parts of one total, and what a unit of its mass costs.

use crate::fixed::{normal_part, word};
use crate::sums::{ratio, total_of};
use game_model::{Game, MOST_STATES};
use point_set::{Point, PointSet};
use std::alloc::{AllocError, Global};

/// A number for each state.
pub type Heights = [i64; MOST_STATES];

/// How many bits the total of the parts of a belief has.
pub const PART_BITS: u32 = 26;

/// How many more bits one has.
const LESS_BITS: u32 = 14;

/// Costs are below this in magnitude.
const MOST_COST: i128 = 1 << 34;

/// What a unit costs, where costs need not be divided.
const UNIT_COST: i128 = 256;

/// A point. Its parts add up to at most 2^26, so that a sum of parts by heights below 2^36 has 63 bits.
#[derive(Clone, Copy)]
struct Row {
    /// The belief, in parts of 2^26.
    parts: Heights,
    /// What a unit of mass costs.
    cost: i64,
    /// The total of the belief.
    total: i64,
}

/// A plane, and the greatest total of the points that are looked for below it.
#[derive(Clone, Copy)]
pub struct Plane {
    /// By state, what a unit of its mass costs.
    pub heights: Heights,
    /// A point of a greater total is left out.
    pub most_total: i64,
}

/// Points in order.
#[derive(Drop)]
pub struct PointTable {
    /// How many states there are.
    states: usize,
    rows: Vec<Row>,
    /// Costs are units times 256 over this.
    divisor: i128,
}

impl PointTable {
    /// The points of a set.
    ///
    /// # Errors
    ///
    /// Where no memory is to be had.
    pub fn of(alloc: Global, game: &Game, points: &PointSet) -> Result<PointTable, AllocError> {
        let divisor = ratio(greatest_cost(points), MOST_COST).saturating_add(1);
        let mut rows = Vec::with_capacity(alloc, points.len() as usize)?;
        for k in 0..points.len() {
            rows.push(row_of(points.point(k), divisor))?;
        }
        Ok(PointTable {
            states: game.states() as usize,
            rows,
            divisor,
        })
    }

    /// What a unit of the mass of a point costs, and 0 where there is no such point.
    pub fn cost(&self, k: u32) -> i128 {
        match self.rows.get(k as usize) {
            Some(row) => i128::from(row.cost),
            None => 0,
        }
    }

    /// A cost in units.
    pub fn units(&self, cost: i64) -> i128 {
        ratio(i128::from(cost).saturating_mul(self.divisor), UNIT_COST)
    }

    /// The four points that lie the most below a plane, the first of equal ones first, where they lie below it by a unit
    /// or more.
    pub fn lowest(&self, plane: &Plane) -> Lowest {
        let none = Below {
            above: self.step(),
            point: None,
        };
        let mut lowest = Lowest { points: [none; 4] };
        for (k, row) in self.rows.iter().enumerate() {
            let above = row.above(plane, self.states);
            if above < lowest.points[3].above {
                lowest.insert(above, u32::try_from(k).ok());
            }
        }
        lowest
    }

    /// The parts of a point of 2^26 in all, and 0 where there is no such point.
    pub fn parts(&self, k: u32) -> Heights {
        match self.rows.get(k as usize) {
            Some(row) => row.parts,
            None => [0; MOST_STATES],
        }
    }

    /// How much a point lies above a plane; a negative number where it lies below, and 0 where it is left out.
    pub fn above(&self, k: u32, plane: &Plane) -> i64 {
        match self.rows.get(k as usize) {
            Some(row) => row.above(plane, self.states),
            None => 0,
        }
    }

    /// What a point takes off a row, and 0 where it is left out.
    pub fn taken(&self, k: u32, row: &Plane) -> i64 {
        match self.rows.get(k as usize) {
            Some(point) if point.total <= row.most_total => {
                0i64.wrapping_sub(point.weighed(&row.heights, self.states))
            }
            _ => 0,
        }
    }

    /// The first point of at most a total that is nearest to a mass, where the parts of both, of 2^26 in all, differ by
    /// less than this.
    pub fn nearest(&self, mass: &[i128], near: i64, most_total: i128) -> Option<u32> {
        let parts = parts_of(mass, total_of(mass));
        let mut least = near;
        let mut found = None;
        for (k, row) in self.rows.iter().enumerate() {
            let distance = row.distance(&parts);
            if distance < least && i128::from(row.total) <= most_total {
                least = distance;
                found = u32::try_from(k).ok();
            }
        }
        found
    }

    /// A point has to lie above a plane by less than this negative number, to lie below it by a unit.
    pub fn step(&self) -> i64 {
        let unit = word(ratio(UNIT_COST, self.divisor).max(1));
        0i64.wrapping_sub(unit)
    }
}

/// A point, where there is one, with how much it lies above a plane.
#[derive(Clone, Copy)]
pub struct Below {
    pub above: i64,
    pub point: Option<u32>,
}

/// The points that lie the most below a plane.
#[derive(Clone, Copy)]
pub struct Lowest {
    pub points: [Below; 4],
}

impl Lowest {
    /// The first of them, where there is one.
    pub fn first(&self) -> Option<u32> {
        self.points[0].point
    }

    /// Puts a point into its place.
    fn insert(&mut self, above: i64, point: Option<u32>) {
        let mut found = Below { above, point };
        for place in &mut self.points {
            if found.above < place.above {
                let other = *place;
                *place = found;
                found = other;
            }
        }
    }
}

impl Row {
    /// How much a point lies above a plane; a negative number where it lies below, and 0 where it is left out.
    fn above(&self, plane: &Plane, states: usize) -> i64 {
        if self.total <= plane.most_total {
            self.cost.wrapping_sub(self.weighed(&plane.heights, states))
        } else {
            0
        }
    }

    /// The sum of the parts times numbers.
    fn weighed(&self, heights: &Heights, states: usize) -> i64 {
        let mut sum: i64 = 0;
        for (part, height) in self.parts.iter().zip(heights).take(states) {
            sum = sum.wrapping_add(part.wrapping_mul(*height));
        }
        sum >> PART_BITS
    }

    /// How much the parts differ from others in all.
    fn distance(&self, parts: &Heights) -> i64 {
        let mut sum: i64 = 0;
        for (part, other) in self.parts.iter().zip(parts) {
            let more = part.wrapping_sub(*other);
            sum = sum.wrapping_add(more.max(0i64.wrapping_sub(more)));
        }
        sum
    }
}

/// The greatest magnitude of what a unit of mass costs, times 256.
fn greatest_cost(points: &PointSet) -> i128 {
    let mut most: i128 = 0;
    for k in 0..points.len() {
        let cost = cost_of(points.point(k));
        most = most.max(cost).max(0i128.saturating_sub(cost));
    }
    most
}

/// What a unit of the mass of a point costs, times 256.
fn cost_of(point: &Point) -> i128 {
    ratio(point.value.saturating_mul(UNIT_COST), point.belief.total())
}

/// The row of a point, with costs divided by a divisor.
fn row_of(point: &Point, divisor: i128) -> Row {
    Row {
        parts: parts_of(point.belief.parts(), point.belief.total()),
        cost: word(ratio(cost_of(point), divisor)),
        total: word(point.belief.total()),
    }
}

/// Weights of this total as parts of 2^26.
fn parts_of(weights: &[i128], total: i128) -> Heights {
    let mut parts = [0; MOST_STATES];
    for (part, weight) in parts.iter_mut().zip(weights) {
        *part = word(normal_part(*weight, total) >> LESS_BITS);
    }
    parts
}

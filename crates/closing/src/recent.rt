//! The points that were found last: what lies below a plane is looked for among them first.

ghost use Rattle.stage_game.specs.Asked.{PointsServe};

use crate::tables::{Lowest, Plane, PointTable};
use game_model::{Game, MOST_STATES, law_game};
use point_set::PointSet;

/// How many points are kept, with the corners.
const MOST_RECENT: usize = 144;

/// What a point takes off a row has to be greater, to be divided by: a 2^18-th.
const LEAST_TAKEN: i64 = 1 << 14;

/// The corners, and the points that were found last.
#[derive(Clone, Copy)]
pub struct Recent {
    /// The corners at the front, and then the points found, the latest in the place of the oldest.
    members: [u32; MOST_RECENT],
    /// How many places are in use.
    count: usize,
    /// The place of the point that is found next.
    next: usize,
}

impl Recent {
    /// The corners alone.
    pub fn corners(game: &Game, points: &PointSet) -> Recent
        requires { PointsServe game.now points.now.members }
    {
        law_game(game);
        let mut recent = Recent {
            members: [0; MOST_RECENT],
            count: MOST_STATES,
            next: MOST_STATES,
        };
        for s in 0..game.states() {
            recent.members[s as usize] = points.corner(s);
        }
        recent
    }

    /// The first point that lies the most below a plane among those found before, else among all, where one lies below it
    /// by a unit or more. One that was not found before is kept, with the next three.
    pub fn lowest(&mut self, table: &PointTable, plane: &Plane) -> Option<u32> {
        let mut least = table.step();
        let mut found = None;
        for k in self.members.iter().take(self.count) {
            let above = table.above(*k, plane);
            if above < least {
                least = above;
                found = Some(*k);
            }
        }
        if found.is_none() {
            let lowest = table.lowest(plane);
            self.keep_all(&lowest);
            return lowest.first();
        }
        found
    }

    /// Keeps points.
    fn keep_all(&mut self, lowest: &Lowest) {
        for below in &lowest.points {
            if let Some(k) = below.point {
                self.keep(k);
            }
        }
    }

    /// Keeps a point, in the place of the oldest.
    fn keep(&mut self, member: u32) {
        if self.next >= MOST_RECENT {
            self.next = MOST_STATES;
        }
        if let Some(place) = self.members.get_mut(self.next) {
            *place = member;
        }
        self.next = self.next.saturating_add(1);
        self.count = self.count.max(self.next);
    }

    /// The point that rises the least above a plane for what it takes off a row, of equal ones the one that takes off the
    /// most.
    pub fn cheapest(&self, table: &PointTable, plane: &Plane, row: &Plane) -> Option<u32> {
        let mut found = None;
        let mut price: i64 = 0;
        let mut most: i64 = 1;
        for k in self.members.iter().take(self.count) {
            let taken = table.taken(*k, row);
            let above = table.above(*k, plane).max(0);
            let (here, there) = (times(above, most), times(price, taken));
            let less = here < there || (here == there && taken > most) || found.is_none();
            if taken > LEAST_TAKEN && less {
                found = Some(*k);
                price = above;
                most = taken;
            }
        }
        found
    }
}

/// The product of two words.
fn times(first: i64, second: i64) -> i128 {
    i128::from(first).wrapping_mul(i128::from(second))
}

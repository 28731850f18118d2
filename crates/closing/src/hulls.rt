//! Divisions of a mass among several points at once, as cheap as they are found: the primal simplex over the points.

ghost use Rattle.closing.specs.Better.{AreNodes};
ghost use Rattle.stage_game.specs.Asked.{PointsServe};
ghost use Rattle.std.specs.Prelude.{length, ◌≡◌};

use crate::bases::Basis;
use crate::places::{PAIRS, add_at};
use crate::recent::Recent;
use crate::tables::PointTable;
use alpha_set::NodeSet;
use game_model::{Game, MOST_STATES};
use point_set::PointSet;
use std::alloc::{AllocError, Global};

/// How often what is left of a mass is divided again.
const MORE_DIVISIONS: u32 = 2;

/// The points of a set as a table, and the division that was found last after each own action and observation.
#[derive(Drop)]
pub struct Hull {
    table: PointTable,
    recent: Recent,
    bases: Vec<Basis>,
}

impl Hull {
    /// The points of a set; all masses are divided among corners as yet.
    ///
    /// # Errors
    ///
    /// Where no memory is to be had.
    pub fn of(alloc: Global, game: &Game, points: &PointSet) -> Result<Hull, AllocError>
        requires { PointsServe game.now points.now.members }
    {
        let table = PointTable::of(alloc, game, points)?;
        let corners = Basis::corners(game, points);
        let bases = vec![in alloc; corners; PAIRS]?;
        let recent = Recent::corners(game, points);
        Ok(Hull {
            table,
            recent,
            bases,
        })
    }

    /// Divides the mass after the pair of a place among the points that are cheapest together, and answers by state
    /// what a unit of its mass costs there, in units.
    pub fn divide(
        &mut self,
        game: &Game,
        points: &PointSet,
        pair: usize,
        mass: &[i128],
    ) -> [i128; MOST_STATES]
        requires points { PointsServe game.now points.now.members }
    {
        let mut heights = [0; MOST_STATES];
        if let Some(basis) = self.bases.get_mut(pair) {
            basis.settle(game, points, &self.table, &mut self.recent, mass);
            for (height, cost) in heights.iter_mut().zip(&basis.plane.heights) {
                *height = self.table.units(*cost);
            }
        }
        heights
    }

    /// The first point of at most a total that is nearest to a mass, where the parts of both, of 2^26 in all, differ by
    /// less than this.
    pub fn nearest(&self, mass: &[i128], near: i64, most_total: i128) -> Option<u32> {
        self.table.nearest(mass, near, most_total)
    }

    /// Splits the mass after the pair of a place: each point's weight becomes what is taken of the mass by it. What is left
    /// of the mass by the points that are cheapest together is divided again, among points of smaller totals, and the rest
    /// goes to corners. The mass is overwritten.
    pub fn split(
        &mut self,
        game: &Game,
        points: &PointSet,
        pair: usize,
        mass: &mut [i128],
        weights: &mut [i128],
    )
        requires { PointsServe game.now points.now.members }
        ensures { length weights.new ≡ length weights.old }
    {
        weights.fill(0);
        self.divide(game, points, pair, mass);
        if let Some(basis) = self.bases.get(pair) {
            basis.take(points, mass, weights);
        }
        for _ in 0..MORE_DIVISIONS {
            let mut basis = Basis::corners(game, points);
            basis.settle(game, points, &self.table, &mut self.recent, mass);
            basis.take(points, mass, weights);
        }
        for s in 0..game.states() {
            if let Some(left) = mass.get(s as usize) {
                add_at(weights, points.corner(s), *left);
            }
        }
    }

    /// What the nodes are worth at the points among which the mass after the pair of a place was divided last, in units
    /// for the mass's total.
    pub fn worth(&self, game: &Game, nodes: &NodeSet, points: &PointSet, pair: usize) -> i128
        requires { AreNodes game.now nodes.now.members }
    {
        match self.bases.get(pair) {
            Some(basis) => basis.worth(game, nodes, points),
            None => 0,
        }
    }
}

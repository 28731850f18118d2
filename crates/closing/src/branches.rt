//! Where a round may go on: the beliefs that follow a visited one, each with what of the gap hangs on it.

ghost use Rattle.closing.specs.Better.{AreNodes, ArePoints};
ghost use Rattle.closing.specs.Seen.{IsSeen};
ghost use Rattle.game_model.specs.Game.{IsMass};
ghost use Rattle.stage_game.specs.Asked.{BeliefFits, PointsServe};
ghost use Rattle.stage_game.specs.Fits.{MixesFit};
ghost use Rattle.std.specs.Prelude.{length, ◌<◌, ◌≡◌, ◌≤◌};

use crate::fineness::Fineness;
use crate::hulls::Hull;
use crate::places::pair_place;
use crate::pushing::{push_out, write_parts};
use crate::sharing::share;
use crate::sums::{product, ratio, total_of};
use crate::visits::Seen;
use alpha_set::NodeSet;
use belief::{Belief, Mixes, mass, reduce};
use game_model::{Game, MIX_TOTAL, MOST_STATES, UNITS, law_game};
use point_set::PointSet;
use scaled_num::{Fraction, sum};
use std::alloc::{AllocError, Global};

/// The share of the first belief.
pub const WHOLE: i128 = 1 << 36;

/// A belief that may be visited.
#[derive(Drop)]
pub struct Open {
    pub belief: Belief,
    /// How much of the first belief's play comes here, discounted, of 2^36.
    pub share: i128,
    /// What of the gap hangs on where this belief's own gap comes from: what is lost where it is divided among points, in
    /// units, times the share.
    pub bend: i128,
}

/// Beliefs that may be visited, and those that were.
#[derive(Drop)]
pub struct Frontier {
    pub open: Vec<Open>,
    pub visited: Vec<Belief>,
    /// How finely beliefs are told apart.
    fineness: Fineness,
    /// A belief on which less hangs is not visited: in units, times the share.
    least: i128,
}

impl Frontier {
    /// The first belief of a game is open, and none was visited.
    ///
    /// # Errors
    ///
    /// Where no memory is to be had.
    pub fn of(
        alloc: Global,
        game: &Game,
        fineness: Fineness,
        gap: &Fraction,
    ) -> Result<Frontier, AllocError> {
        let first = Open {
            belief: Belief::first_of(game),
            share: WHOLE,
            bend: i128::MAX,
        };
        Ok(Frontier {
            open: vec![in alloc; first]?,
            visited: Vec::new(alloc),
            fineness,
            least: ratio(gap.num.saturating_mul(UNITS), gap.den).saturating_mul(WHOLE / 400),
        })
    }

    /// Takes the first open belief of greatest bend.
    pub fn take(&mut self) -> Option<Open> {
        let mut best = 0;
        for i in 1..self.open.len() {
            if self.open[best].bend < self.open[i].bend {
                best = i;
            }
        }
        if best < self.open.len() {
            Some(self.open.swap_remove(best))
        } else {
            None
        }
    }

    /// Whether a belief was visited.
    fn has_visited(&self, belief: &Belief) -> bool {
        self.visited.iter().any(|visited| visited.same(belief))
    }

    /// Adds a belief, where there is one, with its share and its bend.
    ///
    /// # Errors
    ///
    /// Where no memory is to be had.
    fn add_some(
        &mut self,
        belief: Option<Belief>,
        share: i128,
        bend: i128,
    ) -> Result<(), AllocError> {
        match belief {
            Some(belief) => self.add(Open {
                belief,
                share,
                bend,
            }),
            None => Ok(()),
        }
    }

    /// Adds an open belief: one that was visited is left out, and to one that is open its share and its bend are added.
    ///
    /// # Errors
    ///
    /// Where no memory is to be had.
    fn add(&mut self, next: Open) -> Result<(), AllocError> {
        if self.has_visited(&next.belief) {
            return Ok(());
        }
        for open in &mut self.open {
            if open.belief.same(&next.belief) {
                open.share = open.share.saturating_add(next.share);
                open.bend = open.bend.saturating_add(next.bend);
                return Ok(());
            }
        }
        self.open.reserve(1)?;
        self.open.push_reserved(next);
        Ok(())
    }

    /// Adds the beliefs that follow a visited one, where the bounds are apart.
    ///
    /// # Errors
    ///
    /// Where no memory is to be had.
    pub fn add_branches(
        &mut self,
        alloc: Global,
        game: &Game,
        from: &Open,
        seen: &Seen,
        nodes: &NodeSet,
        points: &PointSet,
    ) -> Result<(), AllocError>
        requires belief { BeliefFits game.now from.now.belief }
        requires seen { IsSeen game.now seen.now }
        requires nodes { AreNodes game.now nodes.now.members }
        requires points { ArePoints game.now points.now.members }
    {
        law_game(game);
        let mut hull = Hull::of(alloc, game, points)?;
        for a in 0..game.own_actions() {
            let own = seen.own[a as usize];
            if own > 0 {
                self.add_after(game, from, seen, own, a, nodes, points, &mut hull)?;
            }
        }
        Ok(())
    }

    /// Adds the beliefs that follow an own action of this weight.
    fn add_after(
        &mut self,
        game: &Game,
        from: &Open,
        seen: &Seen,
        own: i128,
        a: u32,
        nodes: &NodeSet,
        points: &PointSet,
        hull: &mut Hull,
    ) -> Result<(), AllocError>
        requires own { a < game.now.shape.own_actions }
        requires belief { BeliefFits game.now from.now.belief }
        requires seen { IsSeen game.now seen.now }
        requires nodes { AreNodes game.now nodes.now.members }
        requires points { ArePoints game.now points.now.members }
    {
        law_game(game);
        let mut weights = [0; MOST_STATES];
        let weights = &mut weights[..game.states() as usize];
        for o in 0..game.observations() {
            write_mass(game, &from.belief, &seen.informed, a, o, weights);
            let share = share_of(game, from, own, weights);
            let pair = pair_place(game, a, o);
            let heights = hull.divide(game, points, pair, weights);
            let low = lower_rate(game, nodes, weights);
            let rate = upper_rate(weights, &heights).saturating_sub(low);
            if share.saturating_mul(rate) >= self.least {
                let lost = hull.worth(game, nodes, points, pair).saturating_sub(low);
                let bend = share.saturating_mul(lost.max(rate / 64));
                let belief = stand_in(game, nodes, points, hull, weights, rate, &self.fineness);
                self.add_some(belief, share, bend)?;
            }
        }
        Ok(())
    }
}

/// Writes the mass that follows an own action and an observation.
fn write_mass(game: &Game, belief: &Belief, informed: &Mixes, a: u32, o: u32, out: &mut [i128])
    requires belief { BeliefFits game.now belief.now }
    requires informed { MixesFit game.now informed.now }
    requires own { a < game.now.shape.own_actions }
    requires seen { o < game.now.shape.observations }
    requires places { length out.old ≡ game.now.shape.states }
    ensures { IsMass game.now out.new }
{
    law_game(game);
    mass(game, belief, informed, a, o, out);
}

/// The share of a mass that follows an own action of this weight, discounted.
fn share_of(game: &Game, from: &Open, own: i128, mass: &[i128]) -> i128
    requires belief { BeliefFits game.now from.now.belief }
    requires mass { IsMass game.now mass.now }
{
    law_game(game);
    let (over, under) = game.discount();
    let whole = from
        .belief
        .total()
        .saturating_mul(MIX_TOTAL)
        .saturating_mul(game.row_total());
    let played = from.share.saturating_mul(own) / MIX_TOTAL;
    let seen = quotient(played.saturating_mul(sum(mass)), whole);
    quotient(seen.saturating_mul(over), under)
}

/// A quotient; 0 where the divisor is not positive.
fn quotient(over: i128, under: i128) -> i128 {
    if under > 0 { over / under } else { 0 }
}

/// What a mass is worth at most, in units for its total, where next states are worth these heights above.
fn upper_rate(mass: &[i128], heights: &[i128; MOST_STATES]) -> i128 {
    quotient(product(mass, heights), total_of(mass))
}

/// What the nodes are worth at a mass, in units for its total.
fn lower_rate(game: &Game, nodes: &NodeSet, mass: &[i128]) -> i128
    requires nodes { AreNodes game.now nodes.now.members }
    requires mass { IsMass game.now mass.now }
{
    law_game(game);
    let (low, _) = nodes.worth(mass);
    quotient(low, sum(mass))
}

/// The belief that is visited in the place of a mass whose bounds are apart so much: the mass, pushed out where that
/// loses little, is brought to a belief.
fn stand_in(
    game: &Game,
    nodes: &NodeSet,
    points: &PointSet,
    hull: &Hull,
    mass: &[i128],
    apart: i128,
    fineness: &Fineness,
) -> Option<Belief>
    requires nodes { AreNodes game.now nodes.now.members }
    requires points { PointsServe game.now points.now.members }
    requires mass { IsMass game.now mass.now }
{
    law_game(game);
    let mut places = [0; MOST_STATES];
    let parts = &mut places[..mass.len()];
    write_parts(game, mass, parts);
    let budget = quotient(apart.saturating_mul(fineness.loss), 256);
    if push_out(game, nodes, points, budget, parts) {
        brought(game, points, hull, parts, fineness)
    } else {
        brought(game, points, hull, mass, fineness)
    }
}

/// The belief that a mass is brought to: that of the nearest point, where one is near; else its own, where the total of
/// that is small; else one on a grid.
fn brought(
    game: &Game,
    points: &PointSet,
    hull: &Hull,
    mass: &[i128],
    fineness: &Fineness,
) -> Option<Belief>
    requires mass { IsMass game.now mass.now }
{
    law_game(game);
    if let Some(k) = hull.nearest(mass, fineness.near, fineness.grid) {
        if k < points.len() {
            return Some(points.point(k).belief.copied());
        }
    }
    let belief = reduce(mass)?;
    if belief.total() <= fineness.grid {
        Some(belief)
    } else {
        on_grid(mass, fineness.grid)
    }
}

/// The belief of a total of at most 65,536 that a mass is rounded to.
fn on_grid(mass: &[i128], grid: i128) -> Option<Belief>
    requires some { 1 ≤ length mass.now }
    requires few { length mass.now ≤ 16 }
{
    let mut weights = [0; MOST_STATES];
    let weights = &mut weights[..mass.len()];
    weights.copy_from_slice(mass);
    let mut shares = [0; MOST_STATES];
    let shares = &mut shares[..mass.len()];
    share(weights, grid.clamp(0, MIX_TOTAL), shares);
    reduce(shares)
}

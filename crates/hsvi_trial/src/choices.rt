//! Where a search goes on from a belief.

ghost use Rattle.alpha_set.specs.Nodes.{IsMix};
ghost use Rattle.belief.specs.After.{mass_after};
ghost use Rattle.belief.specs.Reduced.{IsReduced};
ghost use Rattle.controller.specs.Certificates.{IsGap};
ghost use Rattle.controller.specs.Data.{fraction_data};
ghost use Rattle.game_model.specs.Game.{IsMass};
ghost use Rattle.hsvi_trial.specs.Choices.{IsBestBefore, IsView, best_excess};
ghost use Rattle.hsvi_trial.specs.Excess.{IsChoice, IsExcess};
ghost use Rattle.hsvi_trial.specs.Looks.{IsLook, LeadsTo, looks_from};
ghost use Rattle.hsvi_trial.specs.Thresholds.{threshold};
ghost use Rattle.scaled_num.specs.Share.{at};
ghost use Rattle.stage_game.specs.Asked.{BeliefFits, NodesServe, PointsServe};
ghost use Rattle.stage_game.specs.Fits.{MixesFit};
ghost use Rattle.stage_game.specs.Masses.{is_some_mass};
ghost use Rattle.std.specs.Bool.{IsTrue};
ghost use Rattle.std.specs.Prelude.{IfSome, None, pos, suc, ◌+◌, ◌<◌, ◌≡◌};

use crate::thresholds::threshold;
use alpha_set::NodeSet;
use belief::{Belief, Mixes, mass, reduce};
use game_model::{Game, MOST_STATES, UNITS, law_game};
use point_set::PointSet;
use scaled_num::{Fraction, floor_div, sum};
use std::marker::Model;

/// The greatest depth of a visit.
const MOST_DEPTH: u32 = 64;

/// What a choice looks at.
#[derive(Drop)]
pub struct View<'v> {
    pub game: &'v Game,
    /// The nodes and points after what was kept.
    pub nodes: &'v NodeSet,
    pub points: &'v PointSet,
    pub belief: &'v Belief,
    /// The mixes of the informed player in the lower advice.
    pub informed: &'v Mixes,
    /// The mix of player one in the upper advice.
    pub own: &'v [i128],
    /// The threshold of the next depth.
    pub threshold: i128,
}

impl<'v> Model for View<'v> {
    ghost use Rattle.hsvi_trial.specs.Choices.{IsView};
    ghost use Rattle.hsvi_trial.specs.Views.{ViewData, view_data};

    ghost Value = { ViewData };

    ghost view = { λ v.
        view_data v.game.now v.nodes.now v.points.now v.belief.now v.informed.now v.own.now v.threshold };

    ghost invariant = { λ v.
        IsView v.game.now
        (view_data v.game.now v.nodes.now v.points.now v.belief.now v.informed.now v.own.now v.threshold).view };
}

/// An own action and an observation, and the excess of the mass that follows them.
#[derive(Clone, Copy)]
pub struct Best {
    pub own: u32,
    pub seen: u32,
    pub excess: i128,
}

/// Where a visit goes on: the own action and the observation that it chose, and the belief after them.
#[derive(Drop)]
pub struct Look {
    pub chosen: Option<(u32, u32)>,
    pub next: Option<Belief>,
}

impl Look {
    /// Nowhere.
    fn nowhere() -> Look
        ensures chosen { result.chosen ≡ None }
        ensures next { result.next ≡ None }
    {
        Look {
            chosen: None,
            next: None,
        }
    }
}

impl<'v> View<'v> {
    /// The first own action and observation of greatest excess, where that is positive. It takes no memory.
    pub fn choice(&self) -> Option<(u32, u32)>
        ensures { IsChoice self.now.game self.now.view result }
    {
        let mut best = None;
        for a in 0..self.game.own_actions() {
            best = self.best_with(a, best);
        }
        match best {
            Some(best) => Some((best.own, best.seen)),
            None => None,
        }
    }

    /// Where a visit goes on that looks on: what it chooses, and the belief after that. It takes no memory.
    pub fn look(&self) -> Look
        ensures chosen { IsChoice self.now.game self.now.view result.chosen }
        ensures leads { LeadsTo self.now.game self.now.view result.chosen result.next }
        ensures fits { IfSome result.next (λ next. BeliefFits self.now.game next) }
    {
        match self.choice() {
            Some((a, o)) => Look {
                chosen: Some((a, o)),
                next: Some(belief_after(self.game, self.belief, self.informed, a, o)),
            },
            None => Look::nowhere(),
        }
    }

    /// The best one among an own action's pairs and one found before.
    fn best_with(&self, a: u32, before: Option<Best>) -> Option<Best>
        requires own { a < self.now.game.shape.own_actions }
        requires before { IsBestBefore self.now.game self.now.view a 0 before }
        ensures { IsBestBefore self.now.game self.now.view (a + 1) 0 result }
    {
        law_game(self.game);
        let mut best = before;
        let mut weights = [0; MOST_STATES];
        let weights = &mut weights[..self.game.states() as usize];
        for o in 0..self.game.observations() {
            mass(self.game, self.belief, self.informed, a, o, weights);
            best = self.better(a, o, weights, best);
        }
        best
    }

    /// The best one among a pair, whose mass this is, and one found before.
    fn better(&self, a: u32, o: u32, mass: &[i128], best: Option<Best>) -> Option<Best>
        requires own { a < self.now.game.shape.own_actions }
        requires seen { o < self.now.game.shape.observations }
        requires mass { mass.now ≡ mass_after self.now.game self.now.view.belief self.now.view.informed a o }
        requires before { IsBestBefore self.now.game self.now.view a o best }
        ensures { IsBestBefore self.now.game self.now.view a (o + 1) result }
    {
        law_game(self.game);
        if !has_mass(self.game, mass) {
            return best;
        }
        let excess = self.excess(a, mass);
        if excess <= excess_of(best) {
            return best;
        }
        Some(Best {
            own: a,
            seen: o,
            excess,
        })
    }

    /// The excess of a mass that an own action leads to: the action's weight times what the bounds are apart there
    /// beyond the threshold.
    fn excess(&self, a: u32, mass: &[i128]) -> i128
        requires own { a < self.now.game.shape.own_actions }
        requires mass { IsMass self.now.game mass.now }
        ensures { IsExcess self.now.view (at self.now.view.own a) mass.now result }
    {
        law_game(self.game);
        let high = self.points.sawtooth(mass);
        let (low, _) = self.nodes.worth(mass);
        let allowed = self.threshold * sum(mass);
        self.own[a as usize] * floor_div(high - low - allowed, UNITS)
    }
}

/// Whether a mass is not zero.
fn has_mass(game: &Game, mass: &[i128]) -> bool
    requires { IsMass game.now mass.now }
    ensures { result ≡ is_some_mass mass.now }
{
    law_game(game);
    sum(mass) > 0
}

/// The excess of the best pair so far; 0 where there is none.
fn excess_of(best: Option<Best>) -> i128
    ensures { result ≡ best_excess best }
{
    match best {
        Some(best) => best.excess,
        None => 0,
    }
}

/// Where a visit of a belief at a depth goes on, with the sets after what was kept: where it may go down, with a
/// discount and above the greatest depth, by the first greatest positive excess; and nowhere else. It takes no memory.
pub fn look_on(
    game: &Game,
    gap: &Fraction,
    nodes: &NodeSet,
    points: &PointSet,
    belief: &Belief,
    depth: u32,
    down: bool,
    informed: &Mixes,
    own: &[i128],
) -> Look
    requires gap { IsGap (fraction_data gap.now) }
    requires nodes { NodesServe game.now nodes.now.members }
    requires points { PointsServe game.now points.now.members }
    requires belief { BeliefFits game.now belief.now }
    requires informed { MixesFit game.now informed.now }
    requires own { IsMix game.now.shape.own_actions own.now }
    ensures look { IsLook game.now (looks_from game.now depth down)
        (record {
          sets = record { nodes = nodes.now.members; points = points.now.members };
          belief = belief.now;
          informed = informed.now;
          own = own.now;
          threshold = pos (threshold game.now (fraction_data gap.now) (suc depth));
        })
        result.chosen result.next }
    ensures fits { IfSome result.next (λ next. BeliefFits game.now next) }
{
    if !looks_from(game, depth, down) {
        return Look::nowhere();
    }
    let view = View {
        game,
        nodes,
        points,
        belief,
        informed,
        own,
        threshold: threshold(game, gap, depth + 1),
    };
    view.look()
}

/// Whether a visit at a depth that may go down looks on: with a discount, and above the greatest depth.
fn looks_from(game: &Game, depth: u32, down: bool) -> bool
    ensures { result ≡ looks_from game.now depth down }
{
    law_game(game);
    let (over, _) = game.discount();
    down && over.unsigned_abs() > 0 && depth < MOST_DEPTH
}

/// The belief after an own action and an observation, whose mass is not zero.
pub fn belief_after(game: &Game, belief: &Belief, informed: &Mixes, a: u32, o: u32) -> Belief
    requires belief { BeliefFits game.now belief.now }
    requires informed { MixesFit game.now informed.now }
    requires own { a < game.now.shape.own_actions }
    requires seen { o < game.now.shape.observations }
    requires some { IsTrue (is_some_mass (mass_after game.now belief.now informed.now a o)) }
    ensures reduced { IsReduced (mass_after game.now belief.now informed.now a o) result }
    ensures fits { BeliefFits game.now result }
{
    law_game(game);
    let mut weights = [0; MOST_STATES];
    let weights = &mut weights[..game.states() as usize];
    mass(game, belief, informed, a, o, weights);
    match reduce(weights) {
        Some(next) => {
            let _parts = next.parts();
            next
        }
        None => unreachable!(),
    }
}

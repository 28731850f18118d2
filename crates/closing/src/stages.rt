//! A stage at a belief, played by columns: plans of player one are added, each the best answer to how the informed
//! player plays against those before, until none is better by much.

ghost use Rattle.stage_game.specs.Asked.{BeliefFits};
ghost use Rattle.stage_game.specs.Fits.{MixesFit};
ghost use Rattle.std.specs.Prelude.{length, ◌<◌, ◌≡◌};

use crate::fixed::{ONE, normal_part};
use crate::gains::{cost_in, own_gains};
use crate::going::Going;
use crate::master::{Costs, MOST_PLANS, Master};
use crate::places::{OWN_PLACES, SEEN_PLACES, Weights, add_at, pair_place};
use crate::sums::ratio;
use belief::{Belief, Mixes};
use game_model::{Game, MOST_STATES, law_game};
use std::alloc::{AllocError, Global};

/// How often plans are added at most.
pub const ROUNDS: u32 = 40;

/// What a plan has to be better by, to be added: this part of the span.
const LEAST_GAIN: i128 = 1 << 20;

/// A plan of player one: an own action, and after each observation a node.
#[derive(Clone, Copy)]
struct Plan {
    own: u32,
    nodes: [u32; SEEN_PLACES],
}

/// No plan.
const NO_PLAN: Plan = Plan {
    own: 0,
    nodes: [0; SEEN_PLACES],
};

/// The mixes of the informed player as weights of his actions, by state.
pub type StateWeights = [Weights; MOST_STATES];

/// A stage at a belief.
#[derive(Drop)]
pub struct Stage {
    master: Master,
    plans: [Plan; MOST_PLANS],
    /// How much each plan is played.
    played: [i128; MOST_PLANS],
    /// The parts of the belief.
    parts: [i128; MOST_STATES],
    /// How the informed player mixes next.
    pub next: StateWeights,
    /// The mixes against which the best plan is worth the least as yet.
    pub best: StateWeights,
    /// What the best plan is worth against them, in units.
    top: i128,
    /// What counts as 0 in the program, in units.
    low: i128,
    /// What counts as 1 more than that, in units.
    range: i128,
}

impl Stage {
    /// A stage without plans, where the informed player mixes evenly.
    ///
    /// # Errors
    ///
    /// Where no memory is to be had.
    pub fn of(alloc: Global, game: &Game, belief: &Belief) -> Result<Stage, AllocError> {
        law_game(game);
        let parts = normal_parts(belief);
        let mut listed = [0; MOST_STATES];
        let count = list_positive(&parts, &mut listed);
        let span = game.span().max(1);
        let actions = game.informed_actions() as usize;
        Ok(Stage {
            master: Master::of(alloc, &listed[..count.min(MOST_STATES)], actions)?,
            plans: [NO_PLAN; MOST_PLANS],
            played: [0; MOST_PLANS],
            parts,
            next: [[1; OWN_PLACES]; MOST_STATES],
            best: [[1; OWN_PLACES]; MOST_STATES],
            top: i128::MAX,
            low: span.saturating_mul(-3),
            range: span.saturating_mul(6),
        })
    }

    /// Adds the plan of each own action, for mixes of the informed player that were not found by the program.
    pub fn begin(&mut self, game: &Game, going: &Going) {
        for a in 0..game.own_actions() {
            self.add_plan(game, going, a);
        }
        self.master.run();
        self.read_prices(game);
    }

    /// Adds the plans that are better by much than those before, where the informed player mixes as the program said.
    /// Answers whether the stage goes on.
    pub fn go_on(&mut self, game: &Game, belief: &Belief, mixes: &Mixes, going: &Going) -> bool
        requires belief { BeliefFits game.now belief.now }
        requires mixes { MixesFit game.now mixes.now }
    {
        law_game(game);
        let gains = own_gains(game, belief, mixes, going);
        self.keep_best(greatest(&gains[..game.own_actions() as usize]));
        let known = self.known(game);
        if self.top <= known || !self.add_better(game, going, &gains, known) {
            return false;
        }
        let done = self.master.run();
        self.read_prices(game);
        done
    }

    /// Reads how much each plan is played.
    pub fn end(&mut self) {
        self.master.write_played(&mut self.played);
    }

    /// How much each own action is played.
    pub fn own_weights(&self) -> Weights {
        let mut weights = [0; OWN_PLACES];
        for (plan, played) in self.plans.iter().zip(&self.played) {
            add_at(&mut weights, plan.own, *played);
        }
        weights
    }

    /// Adds to the weight of each node how much it is gone on with after an own action and an observation.
    pub fn weigh(&self, a: u32, o: u32, weights: &mut [i128])
        ensures { length weights.new ≡ length weights.old }
    {
        for (plan, played) in self.plans.iter().zip(&self.played) {
            let more = if plan.own == a { *played } else { 0 };
            add_at(weights, plan.node(o), more);
        }
    }

    /// Keeps the mixes of this round where the best plan is worth less against them than against those before.
    fn keep_best(&mut self, top: i128) {
        if top < self.top {
            self.top = top;
            self.best = self.next;
        }
    }

    /// What the plans are worth as yet in units, and a little more.
    fn known(&self, game: &Game) -> i128 {
        ratio(self.master.value().saturating_mul(self.range), ONE)
            .saturating_add(self.low)
            .saturating_add(ratio(game.span(), LEAST_GAIN))
    }

    /// Adds the plan of each own action that gains more than what is known, and answers whether one helps.
    fn add_better(&mut self, game: &Game, going: &Going, gains: &Weights, known: i128) -> bool {
        law_game(game);
        let mut added = false;
        for a in 0..game.own_actions() {
            if gains[a as usize] > known {
                added = self.add_plan(game, going, a) || added;
            }
        }
        added
    }

    /// Adds the plan of an own action, and answers whether it helps.
    fn add_plan(&mut self, game: &Game, going: &Going, a: u32) -> bool
        requires { a < game.now.shape.own_actions }
    {
        let number = self.master.plans() as usize;
        let costs = self.costs(game, going, a);
        if !self.master.add(&costs) {
            return false;
        }
        if let Some(plan) = self.plans.get_mut(number) {
            *plan = plan_of(game, going, a);
        }
        true
    }

    /// What the plan of an own action costs in each row of the program.
    fn costs(&self, game: &Game, going: &Going, a: u32) -> Costs
        requires { a < game.now.shape.own_actions }
    {
        law_game(game);
        let mut costs = [0; MOST_STATES * OWN_PLACES];
        let mut row = 0;
        for s in 0..game.states() {
            if self.parts[s as usize] > 0 {
                self.write_costs(game, going, s, a, row, &mut costs);
                row = next_row(game, row);
            }
        }
        costs
    }

    /// Writes what the plan of an own action costs in the rows of a state.
    fn write_costs(&self, game: &Game, going: &Going, s: u32, a: u32, row: u32, costs: &mut Costs)
        requires state { s < game.now.shape.states }
        requires own { a < game.now.shape.own_actions }
    {
        for c in 0..game.informed_actions() {
            let cost = cost_in(game, going, s, a, c).saturating_sub(self.low);
            let part = ratio(cost.saturating_mul(ONE), self.range).clamp(0, ONE);
            add_at(costs, row.saturating_add(c), part);
        }
    }

    /// Takes the prices as the weights of the informed player's next mixes.
    fn read_prices(&mut self, game: &Game) {
        law_game(game);
        let mut prices = [0; MOST_STATES * OWN_PLACES];
        self.master.write_prices(&mut prices);
        let mut row = 0;
        for s in 0..game.states() {
            if self.parts[s as usize] > 0 {
                self.next[s as usize] = weights_at(game, &prices, row);
                row = next_row(game, row);
            }
        }
    }
}

impl Plan {
    /// The node after an observation.
    fn node(&self, o: u32) -> u32 {
        match self.nodes.get(o as usize) {
            Some(node) => *node,
            None => 0,
        }
    }
}

/// The first row of the next state.
fn next_row(game: &Game, row: u32) -> u32 {
    row.saturating_add(game.informed_actions())
}

/// The prices of the rows of a state.
fn weights_at(game: &Game, prices: &Costs, row: u32) -> Weights {
    let mut weights = [0; OWN_PLACES];
    for c in 0..game.informed_actions() {
        if let Some(price) = prices.get(row.saturating_add(c) as usize) {
            add_at(&mut weights, c, *price);
        }
    }
    weights
}

/// The plan of an own action, with the nodes that are worth the most after it.
fn plan_of(game: &Game, going: &Going, a: u32) -> Plan
    requires { a < game.now.shape.own_actions }
{
    law_game(game);
    let mut plan = Plan {
        own: a,
        nodes: [0; SEEN_PLACES],
    };
    for o in 0..game.observations() {
        plan.nodes[o as usize] = going.nodes[pair_place(game, a, o)];
    }
    plan
}

/// The parts of a belief by state.
fn normal_parts(belief: &Belief) -> [i128; MOST_STATES] {
    let mut parts = [0; MOST_STATES];
    for (part, weight) in parts.iter_mut().zip(belief.parts()) {
        *part = normal_part(*weight, belief.total());
    }
    parts
}

/// Lists the positive numbers, and answers how many they are.
fn list_positive(numbers: &[i128; MOST_STATES], listed: &mut [i128; MOST_STATES]) -> usize {
    let mut count: usize = 0;
    for number in numbers {
        if *number > 0 {
            if let Some(place) = listed.get_mut(count) {
                *place = *number;
            }
            count = count.saturating_add(1);
        }
    }
    count
}

/// The greatest of numbers.
fn greatest(numbers: &[i128]) -> i128 {
    let mut most = i128::MIN;
    for number in numbers {
        most = most.max(*number);
    }
    most
}

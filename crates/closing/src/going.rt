//! What going on is worth after each own action and observation, under mixes of the informed player.

ghost use Rattle.stage_game.specs.Asked.{BeliefFits, NodesServe, PointsServe};
ghost use Rattle.stage_game.specs.Fits.{MixesFit};
ghost use Rattle.std.specs.Prelude.{length, ◌<◌, ◌≡◌, ◌≤◌};

use crate::hulls::Hull;
use crate::places::{ENDS, PAIRS, end_place, pair_place};
use crate::sums::product;
use alpha_set::NodeSet;
use belief::{Belief, Mixes, mass};
use game_model::{Game, MOST_STATES, law_game};
use point_set::PointSet;

/// What going on is worth.
#[derive(Drop)]
pub struct Going {
    /// What the mass after an own action and an observation is worth, in units times the mass.
    pub values: [i128; PAIRS],
    /// What each next state is worth there, in units.
    pub ends: [i128; ENDS],
    /// The node that is worth the most there; 0 where points are asked.
    pub nodes: [u32; PAIRS],
}

impl Going {
    /// Nothing is worth anything yet.
    fn new() -> Going {
        Going {
            values: [0; PAIRS],
            ends: [0; ENDS],
            nodes: [0; PAIRS],
        }
    }

    /// Keeps what a mass and the next states are worth after the pair of a place.
    fn keep(&mut self, pair: usize, value: i128, ends: &[i128], node: u32)
        requires pair { pair < 48 }
        requires ends { length ends.now ≤ 16 }
    {
        self.values[pair] = value;
        self.nodes[pair] = node;
        for (to, end) in ends.iter().enumerate() {
            self.ends[end_place(pair, to)] = *end;
        }
    }

    /// What a next state is worth after an own action and an observation, and 0 where the table has no such place.
    pub fn end(&self, a: u32, o: u32, to: u32) -> i128 {
        let place = (a as usize * 8 + o as usize) * 16 + to as usize;
        match self.ends.get(place) {
            Some(end) => *end,
            None => 0,
        }
    }

    /// What all observations after an own action are worth, in units times the mass.
    pub fn worth_after(&self, game: &Game, a: u32) -> i128
        requires { a < game.now.shape.own_actions }
    {
        let mut sum: i128 = 0;
        for o in 0..game.observations() {
            sum = sum.saturating_add(self.values[pair_place(game, a, o)]);
        }
        sum
    }
}

/// What going on is worth by the nodes.
pub fn going_by_nodes(game: &Game, belief: &Belief, mixes: &Mixes, nodes: &NodeSet) -> Going
    requires belief { BeliefFits game.now belief.now }
    requires nodes { NodesServe game.now nodes.now.members }
    requires mixes { MixesFit game.now mixes.now }
{
    let mut going = Going::new();
    for a in 0..game.own_actions() {
        by_nodes_after(game, belief, mixes, nodes, a, &mut going);
    }
    going
}

/// Keeps what going on is worth by the nodes after an own action.
fn by_nodes_after(
    game: &Game,
    belief: &Belief,
    mixes: &Mixes,
    nodes: &NodeSet,
    a: u32,
    going: &mut Going,
)
    requires belief { BeliefFits game.now belief.now }
    requires nodes { NodesServe game.now nodes.now.members }
    requires mixes { MixesFit game.now mixes.now }
    requires own { a < game.now.shape.own_actions }
{
    for o in 0..game.observations() {
        by_nodes(game, belief, mixes, nodes, a, o, going);
    }
}

/// Keeps what going on is worth by the nodes after an own action and an observation.
fn by_nodes(
    game: &Game,
    belief: &Belief,
    mixes: &Mixes,
    nodes: &NodeSet,
    a: u32,
    o: u32,
    going: &mut Going,
)
    requires belief { BeliefFits game.now belief.now }
    requires nodes { NodesServe game.now nodes.now.members }
    requires mixes { MixesFit game.now mixes.now }
    requires own { a < game.now.shape.own_actions }
    requires seen { o < game.now.shape.observations }
{
    law_game(game);
    let mut places = [0; MOST_STATES];
    let next = &mut places[..game.states() as usize];
    mass(game, belief, mixes, a, o, next);
    let (value, node) = nodes.worth(next);
    let mut ends = [0; MOST_STATES];
    copy_front(&nodes.node(node).vector, &mut ends);
    going.keep(pair_place(game, a, o), value, &ends, node);
}

/// Copies numbers to the front of others, as many as there is room for.
fn copy_front(from: &[i128], to: &mut [i128])
    ensures { length to.new ≡ length to.old }
{
    for (place, number) in to.iter_mut().enumerate() {
        *number = match from.get(place) {
            Some(copied) => *copied,
            None => 0,
        };
    }
}

/// What going on is worth by the points.
pub fn going_by_points(
    game: &Game,
    belief: &Belief,
    mixes: &Mixes,
    points: &PointSet,
    hull: &mut Hull,
) -> Going
    requires belief { BeliefFits game.now belief.now }
    requires points { PointsServe game.now points.now.members }
    requires mixes { MixesFit game.now mixes.now }
{
    let mut going = Going::new();
    for a in 0..game.own_actions() {
        by_points_after(game, belief, mixes, points, hull, a, &mut going);
    }
    going
}

/// Keeps what going on is worth by the points after an own action.
fn by_points_after(
    game: &Game,
    belief: &Belief,
    mixes: &Mixes,
    points: &PointSet,
    hull: &mut Hull,
    a: u32,
    going: &mut Going,
)
    requires belief { BeliefFits game.now belief.now }
    requires points { PointsServe game.now points.now.members }
    requires mixes { MixesFit game.now mixes.now }
    requires own { a < game.now.shape.own_actions }
{
    for o in 0..game.observations() {
        by_points(game, belief, mixes, points, hull, a, o, going);
    }
}

/// Keeps what going on is worth by the points after an own action and an observation: the plane through the points
/// among which the mass is divided.
fn by_points(
    game: &Game,
    belief: &Belief,
    mixes: &Mixes,
    points: &PointSet,
    hull: &mut Hull,
    a: u32,
    o: u32,
    going: &mut Going,
)
    requires belief { BeliefFits game.now belief.now }
    requires points { PointsServe game.now points.now.members }
    requires mixes { MixesFit game.now mixes.now }
    requires own { a < game.now.shape.own_actions }
    requires seen { o < game.now.shape.observations }
{
    law_game(game);
    let mut places = [0; MOST_STATES];
    let next = &mut places[..game.states() as usize];
    mass(game, belief, mixes, a, o, next);
    let pair = pair_place(game, a, o);
    let ends = hull.divide(game, points, pair, next);
    going.keep(pair, product(next, &ends), &ends, 0);
}

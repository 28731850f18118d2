//! Whether the nodes of a certificate fit a game and name nodes of the set.

ghost use Rattle.alpha_set.specs.Members.{node_data};
ghost use Rattle.alpha_set.specs.Nodes.{IsMix, NodeFits};
ghost use Rattle.game_model.specs.Branches.{branch_of, branches_at, mix_total};
ghost use Rattle.game_model.specs.Game.{IsWithin, span};
ghost use Rattle.scaled_num.specs.Sums.{total};
ghost use Rattle.std.specs.Bool.{IsTrue};
ghost use Rattle.std.specs.List.{AllByRecursion};
ghost use Rattle.std.specs.Prelude.{if◌then◌else◌, length, map, pos, slice_index_or, ℕ, ◌&&◌, ◌<◌, ◌==◌, ◌↔◌, ◌≡◌};

use crate::branches::are_branches;
use alpha_set::{Node, NodeSet, Step};
use game_model::{Game, MIX_TOTAL};
use scaled_num::sum;

/// Whether each node fits a game and names nodes of the set.
pub fn nodes_fit(game: &Game, nodes: &NodeSet) -> bool
    ensures { IsTrue result ↔ AllByRecursion (NodeFits game.now (length nodes.now.members)) nodes.now.members }
{
    for i in 0..nodes.len() {
        if !node_fits(game, nodes.len(), nodes.node(i)) {
            return false;
        }
    }
    true
}

/// Whether a node fits a game and so many nodes.
fn node_fits(game: &Game, count: u32, node: &Node) -> bool
    ensures { IsTrue result ↔ NodeFits game.now count (node_data node.now) }
{
    node.vector.len() == game.states() as usize
        && are_within(&node.vector, -game.span(), game.span())
        && is_mix(game, &node.mix)
        && are_branches(game, count, MIX_TOTAL, &node.next)
        && sums_are(game, node)
}

/// Whether each number is at least `low` and at most `high`.
fn are_within(numbers: &[i128], low: i128, high: i128) -> bool
    ensures { IsTrue result ↔ AllByRecursion (IsWithin low high) numbers.now }
{
    for x in numbers {
        if *x < low || high < *x {
            return false;
        }
    }
    true
}

/// Whether these are the weights of a mix of the own actions.
fn is_mix(game: &Game, mix: &[i128]) -> bool
    ensures { IsTrue result ↔ IsMix game.now.shape.own_actions mix.now }
{
    mix.len() == game.own_actions() as usize
        && are_within(mix, 0, MIX_TOTAL)
        && sum(mix) == MIX_TOTAL
}

/// Whether after each own action and observation the steps have the weight of that action.
fn sums_are(game: &Game, node: &Node) -> bool
    requires mix { IsMix game.now.shape.own_actions (node_data node.now).mix }
    requires next { AllByRecursion (λ step. IsWithin (pos 1) (pos mix_total) step.weight) (node_data node.now).next }
    ensures { IsTrue result ↔
        ((a o : ℕ) → a < game.now.shape.own_actions → o < game.now.shape.observations →
        total (λ b. b.weight) (branches_at (node_data node.now).next a o)
        ≡ slice_index_or (node_data node.now).mix a (pos 0)) }
{
    for a in 0..game.own_actions() {
        if !sums_are_after(game, &node.next, a, node.mix[a as usize]) {
            return false;
        }
    }
    true
}

/// Whether after an own action and each observation the steps have a weight.
fn sums_are_after(game: &Game, next: &[Step], a: u32, weight: i128) -> bool
    requires { AllByRecursion (λ step. IsWithin (pos 1) (pos mix_total) step.weight) (map branch_of next.now) }
    ensures { IsTrue result ↔
        ((o : ℕ) → o < game.now.shape.observations →
        total (λ b. b.weight) (branches_at (map branch_of next.now) a o) ≡ weight) }
{
    for o in 0..game.observations() {
        if weight_after(next, a, o) != weight {
            return false;
        }
    }
    true
}

/// The weights of the steps after an own action and an observation, added up.
fn weight_after(next: &[Step], a: u32, o: u32) -> i128
    requires { AllByRecursion (λ step. IsWithin (pos 1) (pos mix_total) step.weight) (map branch_of next.now) }
    ensures { result ≡ total (λ b. b.weight) (branches_at (map branch_of next.now) a o) }
{
    let mut sum = 0;
    for step in next {
        sum += weight_of(step, a, o);
    }
    sum
}

/// The weight of a step after this own action and this observation, 0 after others.
fn weight_of(step: &Step, a: u32, o: u32) -> i128
    ensures { result ≡ (if (step.now.a == a) && (step.now.o == o) then step.now.weight else pos 0) }
{
    if step.a == a && step.o == o {
        step.weight
    } else {
        0
    }
}

//! Tables of what the steps of a node are worth.

ghost use Rattle.game_model.specs.Limits.{most_states, most_actions, most_observations};
ghost use Rattle.alpha_set.specs.Members.{HoldsWorths, IsMember, IsTable, brought, data_of, entry_at, expected, node_data, table_length, table_index};
ghost use Rattle.alpha_set.specs.Nodes.{node_of, nodes_of};
ghost use Rattle.game_model.specs.Branches.{mix_total};
ghost use Rattle.game_model.specs.Game.{IsWithin, numbers, span};
ghost use Rattle.game_model.specs.Numbers.{over_row};
ghost use Rattle.std.specs.List.{AllByRecursion};
ghost use Rattle.std.specs.Prelude.{length, pos, replicate, unsigned_abs, ℕ, ◌*◌, ◌+ℤ◌, ◌<◌, ◌^◌, ◌≡◌, ◌≤◌};

use crate::nodes::Node;
use game_model::{Branch, Game, MOST_ACTIONS, MOST_OBSERVATIONS, MOST_STATES, law_game};

/// The length of a table by own action, observation and next state.
pub const TABLE: usize = MOST_ACTIONS as usize * MOST_OBSERVATIONS as usize * MOST_STATES;

/// The index of an own action, an observation and a next state in a table.
fn index(a: u32, o: u32, t: u32) -> usize
    requires own { a < most_actions }
    requires seen { o < most_observations }
    requires to { t < most_states }
    ensures index { result ≡ table_index a o t }
    ensures within { result < table_length }
{
    (a as usize * MOST_OBSERVATIONS as usize + o as usize) * MOST_STATES + t as usize
}

/// Fills a table with what the steps of a node are worth after each own action and observation in each next state:
/// the sum of their weights times the entries of their nodes.
pub fn fill(game: &Game, nodes: &[Node], node: &Node, table: &mut [i128])
    requires member { IsMember game.now nodes.now node.now }
    requires zeros { table.old ≡ replicate table_length (pos 0) }
    ensures table { IsTable game.now table.new }
    ensures worths { HoldsWorths game.now (nodes_of (data_of nodes.now)) (node_of (node_data node.now)) table.new }
{
    law_game(game);
    for step in &node.next {
        add(step, &nodes[step.k as usize].vector, table);
    }
}

/// Adds a step's weight times the entries of its node's vector.
fn add(step: &Branch, vector: &[i128], table: &mut [i128])
    requires own { step.now.a < most_actions }
    requires seen { step.now.o < most_observations }
    requires weight { IsWithin (pos 1) (pos mix_total) step.now.weight }
    requires few { length vector.now ≤ most_states }
    requires entries { AllByRecursion (λ x. unsigned_abs x ≤ 2 ^ 66) vector.now }
    requires long { length table.old ≡ table_length }
    requires small { (t : ℕ) → t < length vector.now →
        unsigned_abs (entry_at table.old step.now.a step.now.o t) ≤ 2 ^ 82 }
    ensures long { length table.new ≡ table_length }
    ensures brought { (a o t : ℕ) → o < most_observations → t < length vector.now →
        entry_at table.new a o t ≡ entry_at table.old a o t +ℤ brought step.now vector.now a o t }
{
    let start = index(step.a, step.o, 0);
    for t in 0..vector.len() {
        table[start + t] += step.weight * vector[t];
    }
}

/// The sum over the own actions and their rows of the weights times the entries of a table.
pub fn later(game: &Game, table: &[i128], s: u32, c: u32) -> i128
    requires table { IsTable game.now table.now }
    requires state { s < game.now.shape.states }
    requires informed { c < game.now.shape.informed_actions }
    ensures exact { result ≡ expected (numbers game.now) table.now s c }
    ensures small { unsigned_abs result ≤ most_actions *
        (unsigned_abs game.now.shape.row_total * (mix_total * span game.now)) }
{
    law_game(game);
    let mut sum = 0;
    for a in 0..game.own_actions() {
        sum += later_after(game, table, s, a, c);
    }
    sum
}

/// The sum over the row of a triple of its weights times the entries of a table.
fn later_after(game: &Game, table: &[i128], s: u32, a: u32, c: u32) -> i128
    requires table { IsTable game.now table.now }
    requires state { s < game.now.shape.states }
    requires own { a < game.now.shape.own_actions }
    requires informed { c < game.now.shape.informed_actions }
    ensures exact { result ≡ over_row (numbers game.now) s a c (λ o t. entry_at table.now a o t) }
    ensures small { unsigned_abs result ≤ unsigned_abs game.now.shape.row_total * (mix_total * span game.now) }
{
    law_game(game);
    let row = game.row(s, a, c);
    let mut sum = 0;
    for landing in row {
        sum += landing.weight * table[index(a, landing.seen, landing.to)];
    }
    sum
}

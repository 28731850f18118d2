//! What one stage of a node gives.

ghost use Rattle.alpha_set.specs.Members.{IsMember, IsTable, data_of, mix_of, node_data, paid, worth_by};
ghost use Rattle.alpha_set.specs.Nodes.{IsMix, node_of, node_worth, nodes_of};
ghost use Rattle.game_model.specs.Bounds.{IsLeastOf};
ghost use Rattle.game_model.specs.Game.{numbers};
ghost use Rattle.scaled_num.specs.Share.{at};
ghost use Rattle.std.specs.Prelude.{length, unsigned_abs, ℕ, ◌<◌, ◌^◌, ◌≡◌, ◌≤◌};

use crate::nodes::Node;
use crate::tables::{TABLE, fill, later};
use game_model::{Game, UNITS, law_game};

/// Writes for each state the least, over the informed actions, of what one stage of a node gives among others.
pub fn stage_worths(game: &Game, nodes: &[Node], node: &Node, worths: &mut [i128])
    requires member { IsMember game.now nodes.now node.now }
    requires states { length worths.old ≡ game.now.shape.states }
    ensures long { length worths.new ≡ game.now.shape.states }
    ensures least { (s : ℕ) → s < game.now.shape.states →
        IsLeastOf (node_worth (numbers game.now) (nodes_of (data_of nodes.now)) (node_of (node_data node.now)) s)
        game.now.shape.informed_actions (at worths.new s) }
{
    let mut table = [0; TABLE];
    fill(game, nodes, node, &mut table);
    least_worths(game, &node.mix, &table, worths);
}

/// Writes for each state the least, over the informed actions, of what one stage gives by a table.
fn least_worths(game: &Game, mix: &[i128], table: &[i128], worths: &mut [i128])
    requires mix { IsMix game.now.shape.own_actions mix.now }
    requires table { IsTable game.now table.now }
    requires states { length worths.old ≡ game.now.shape.states }
    ensures long { length worths.new ≡ game.now.shape.states }
    ensures least { (s : ℕ) → s < game.now.shape.states →
        IsLeastOf (worth_by (numbers game.now) (mix_of mix.now) table.now s) game.now.shape.informed_actions
        (at worths.new s) }
{
    law_game(game);
    for (s, worth) in worths.iter_mut().enumerate() {
        *worth = least_worth(game, mix, table, s as u32);
    }
}

/// The least, over the informed actions, of what one stage gives in a state by a table.
fn least_worth(game: &Game, mix: &[i128], table: &[i128], s: u32) -> i128
    requires mix { IsMix game.now.shape.own_actions mix.now }
    requires table { IsTable game.now table.now }
    requires state { s < game.now.shape.states }
    ensures { IsLeastOf (worth_by (numbers game.now) (mix_of mix.now) table.now s) game.now.shape.informed_actions
        result }
{
    law_game(game);
    let mut least = stage_worth(game, mix, table, s, 0);
    for c in 1..game.informed_actions() {
        least = least.min(stage_worth(game, mix, table, s, c));
    }
    least
}

/// What one stage gives in a state against an informed action, by a table of what the steps are worth: the right side
/// of the node rule.
pub fn stage_worth(game: &Game, mix: &[i128], table: &[i128], s: u32, c: u32) -> i128
    requires mix { IsMix game.now.shape.own_actions mix.now }
    requires table { IsTable game.now table.now }
    requires state { s < game.now.shape.states }
    requires informed { c < game.now.shape.informed_actions }
    ensures { result ≡ worth_by (numbers game.now) (mix_of mix.now) table.now s c }
{
    law_game(game);
    let (over, under) = game.discount();
    let scale = game.row_total() * under;
    UNITS * scale * at_once(game, mix, s, c) + over * later(game, table, s, c)
}

/// The sum over the own actions of the mix's weight times the reward.
fn at_once(game: &Game, mix: &[i128], s: u32, c: u32) -> i128
    requires mix { IsMix game.now.shape.own_actions mix.now }
    requires state { s < game.now.shape.states }
    requires informed { c < game.now.shape.informed_actions }
    ensures exact { result ≡ paid (numbers game.now) (mix_of mix.now) s c }
    ensures small { unsigned_abs result ≤ 2 ^ 49 }
{
    law_game(game);
    let mut sum = 0;
    for a in 0..game.own_actions() {
        sum += mix[a as usize] * game.reward(s, a, c);
    }
    sum
}

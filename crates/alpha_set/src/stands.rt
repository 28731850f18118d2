//! The first place at which a node does not stand.

ghost use Rattle.alpha_set.specs.Faults.{rule_places, state_places};
ghost use Rattle.alpha_set.specs.Members.{AllHoldBy, FailsFirstAmong, FailsFirstBy, HoldsBy, IsMember, IsTable, StandsAmong, most_nodes, node_data};
ghost use Rattle.alpha_set.specs.Nodes.{NodeFits, node_of};
ghost use Rattle.game_model.specs.Game.{numbers};
ghost use Rattle.std.specs.Bool.{IsTrue};
ghost use Rattle.std.specs.Prelude.{IfSome, IsNone, ◌<◌, ◌↔◌};

use crate::nodes::Node;
use crate::stages::stage_worth;
use crate::tables::{TABLE, fill};
use game_model::{Game, MIX_TOTAL, law_game};

/// The first state and informed action at which the node rule fails for a node among others.
pub fn first_fault(game: &Game, nodes: &[Node], node: &Node) -> Option<(u32, u32)>
    requires { IsMember game.now nodes.now node.now }
    ensures none { IsNone result ↔ StandsAmong game.now nodes.now node.now }
    ensures first { IfSome result (FailsFirstAmong game.now nodes.now node.now) }
{
    let mut table = [0; TABLE];
    fill(game, nodes, node, &mut table);
    first_by(game, node, &table)
}

/// The first state and informed action at which the node rule fails, by a table of what the steps are worth.
fn first_by(game: &Game, node: &Node, table: &[i128]) -> Option<(u32, u32)>
    requires fits { NodeFits game.now most_nodes (node_data node.now) }
    requires table { IsTable game.now table.now }
    ensures none { IsNone result → AllHoldBy game.now node.now table.now (rule_places (numbers game.now)) }
    ensures first { IfSome result (FailsFirstBy game.now node.now table.now (rule_places (numbers game.now))) }
{
    for s in 0..game.states() {
        if let Some(c) = first_in(game, node, table, s) {
            return Some((s, c));
        }
    }
    None
}

/// The first informed action at which the node rule fails in a state, by a table.
fn first_in(game: &Game, node: &Node, table: &[i128], s: u32) -> Option<u32>
    requires fits { NodeFits game.now most_nodes (node_data node.now) }
    requires table { IsTable game.now table.now }
    requires state { s < game.now.shape.states }
    ensures none { IsNone result → AllHoldBy game.now node.now table.now (state_places (numbers game.now) s) }
    ensures first { IfSome result (λ c. FailsFirstBy game.now node.now table.now (state_places (numbers game.now) s)
        (s, c)) }
{
    for c in 0..game.informed_actions() {
        if !holds(game, node, table, s, c) {
            return Some(c);
        }
    }
    None
}

/// Whether the node rule holds at a state and an informed action, by a table.
fn holds(game: &Game, node: &Node, table: &[i128], s: u32, c: u32) -> bool
    requires fits { NodeFits game.now most_nodes (node_data node.now) }
    requires table { IsTable game.now table.now }
    requires state { s < game.now.shape.states }
    requires informed { c < game.now.shape.informed_actions }
    ensures { IsTrue result ↔ HoldsBy (numbers game.now) (node_of (node_data node.now)) table.now s c }
{
    law_game(game);
    let (_, under) = game.discount();
    let scale = MIX_TOTAL * (game.row_total() * under);
    node.vector[s as usize] * scale <= stage_worth(game, &node.mix, table, s, c)
}

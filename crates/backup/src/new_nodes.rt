//! The node of a lower advice.

ghost use Rattle.alpha_set.specs.Members.{most_nodes, node_data};
ghost use Rattle.alpha_set.specs.Nodes.{NodeData, NodeFits, NodeStands, node_of, nodes_of};
ghost use Rattle.backup.specs.Entries.{AreEntries};
ghost use Rattle.backup.specs.Evaluation.{IsNewNode};
ghost use Rattle.game_model.specs.Game.{numbers};
ghost use Rattle.scaled_num.specs.Share.{IsFloor, at};
ghost use Rattle.stage_game.specs.Asked.{NodesServe};
ghost use Rattle.stage_game.specs.Data.{lower_data};
ghost use Rattle.stage_game.specs.Fits.{LowerFits};
ghost use Rattle.std.specs.List.{AllByRecursion};
ghost use Rattle.std.specs.Prelude.{IfOk, List, length, pos, replicate, ℕ, ◌++◌, ◌<ℤ◌, ◌<◌, ◌≡◌};

use alpha_set::{Node, NodeSet};
use game_model::{Game, MIX_TOTAL, MOST_STATES, law_game};
use scaled_num::floor_div;
use stage_game::LowerAdvice;
use std::alloc::{AllocError, Global};

/// The node of a lower advice that fits: its mix and steps, and for each state an entry in units, which is what one
/// stage surely gives: the least, over the informed actions, of the right side of the node rule, divided and rounded
/// down. So the node stands, whatever the advice is, and goes on to stand where nodes are added to the set.
///
/// # Errors
///
/// Where no memory is to be had.
pub fn new_node(
    alloc: Global,
    game: &Game,
    advice: &LowerAdvice,
    nodes: &NodeSet,
) -> Result<Node, AllocError>
    requires nodes { NodesServe game.now nodes.now.members }
    requires advice { LowerFits game.now (length nodes.now.members) (lower_data advice.now) }
    ensures node { IfOk result (λ node. IsNewNode game.now nodes.now.members (lower_data advice.now) (node_data node)) }
    ensures fits { IfOk result (λ node. NodeFits game.now (length nodes.now.members) (node_data node)) }
    ensures stands { IfOk result (λ node.
        NodeStands (numbers game.now) (nodes_of nodes.now.members) (node_of (node_data node))) }
    ensures stays { IfOk result (λ node. (more : List NodeData) →
        NodeStands (numbers game.now) (nodes_of (nodes.now.members ++ more)) (node_of (node_data node))) }
{
    law_game(game);
    let mut node = advised(alloc, game, advice)?;
    let mut entries = [0; MOST_STATES];
    let entries = &mut entries[..game.states() as usize];
    write_entries(game, nodes, &node, entries);
    node.vector.copy_from_slice(entries);
    Ok(node)
}

/// A node with the mix and steps of an advice, whose entries are still 0.
fn advised(alloc: Global, game: &Game, advice: &LowerAdvice) -> Result<Node, AllocError>
    ensures vector { IfOk result (λ node. node.vector.items ≡ replicate game.now.shape.states (pos 0)) }
    ensures mix { IfOk result (λ node. node.mix.items ≡ advice.now.own.items) }
    ensures next { IfOk result (λ node. node.next.items ≡ advice.now.next.items) }
{
    Ok(Node {
        vector: vec![in alloc; 0; game.states() as usize]?,
        mix: advice.own.clone()?,
        next: advice.next.clone()?,
    })
}

/// Writes for each state what a node surely gives in one stage. Its own entries do not count.
fn write_entries(game: &Game, nodes: &NodeSet, node: &Node, entries: &mut [i128])
    requires nodes { AllByRecursion (NodeFits game.now most_nodes) nodes.now.members }
    requires fits { NodeFits game.now (length nodes.now.members) (node_data node.now) }
    requires states { length entries.old ≡ game.now.shape.states }
    ensures { AreEntries game.now nodes.now.members (node_data node.now) entries.new }
{
    law_game(game);
    nodes.stage_worths(game, node, entries);
    let (_, under) = game.discount();
    round_down(MIX_TOTAL * (game.row_total() * under), entries);
}

/// Divides each number, and rounds it down.
fn round_down(divisor: i128, numbers: &mut [i128])
    requires { pos 0 <ℤ divisor }
    ensures long { length numbers.new ≡ length numbers.old }
    ensures floors { (i : ℕ) → i < length numbers.old → IsFloor (at numbers.new i) (at numbers.old i) divisor }
{
    for number in numbers.iter_mut() {
        *number = floor_div(*number, divisor);
    }
}

//! Raising a node to what one stage of it gives.

ghost use Rattle.alpha_set.specs.Changes.{HasRisen, IsLifted, IsRaised, divisor_of};
ghost use Rattle.alpha_set.specs.Members.{data_of, most_nodes, node_data};
ghost use Rattle.alpha_set.specs.Nodes.{NodeFits, no_node, node_worth, nodes_of};
ghost use Rattle.game_model.specs.Bounds.{IsLeastOf};
ghost use Rattle.game_model.specs.Game.{numbers};
ghost use Rattle.scaled_num.specs.Share.{at};
ghost use Rattle.std.specs.Bool.{IsTrue};
ghost use Rattle.std.specs.List.{AllByRecursion};
ghost use Rattle.std.specs.Prelude.{length, pos, slice_index_or, ℕ, ◌<ℤ◌, ◌<◌, ◌↔◌, ◌≡◌, ◌≤◌};

use crate::nodes::Node;
use crate::stages::stage_worths;
use game_model::{Game, MIX_TOTAL, MOST_STATES, law_game};
use scaled_num::floor_div;

/// Raises the vector of the node of a number to what one stage of it gives, and answers whether an entry rose.
pub fn lift_node(game: &Game, nodes: &mut [Node], number: usize) -> bool
    requires member { number < length nodes.old }
    requires few { length nodes.old ≤ most_nodes }
    requires fits { AllByRecursion (NodeFits game.now (length nodes.old)) (data_of nodes.old) }
    ensures lifted { IsLifted game.now (data_of nodes.old) number (data_of nodes.new) }
    ensures told { IsTrue result ↔ HasRisen (slice_index_or (data_of nodes.old) number no_node).vector
        (slice_index_or (data_of nodes.new) number no_node).vector }
{
    law_game(game);
    let mut worths = [0; MOST_STATES];
    let worths = &mut worths[..game.states() as usize];
    worths_at(game, nodes, number, worths);
    let node = &mut nodes[number];
    raise(&mut node.vector, worths, divisor(game))
}

/// Writes for each state the least, over the informed actions, of what one stage of the node of a number gives.
fn worths_at(game: &Game, nodes: &[Node], number: usize, worths: &mut [i128])
    requires member { number < length nodes.now }
    requires few { length nodes.now ≤ most_nodes }
    requires fits { AllByRecursion (NodeFits game.now (length nodes.now)) (data_of nodes.now) }
    requires states { length worths.old ≡ game.now.shape.states }
    ensures long { length worths.new ≡ game.now.shape.states }
    ensures least { (s : ℕ) → s < game.now.shape.states →
        IsLeastOf (node_worth (numbers game.now) (nodes_of (data_of nodes.now)) (nodes_of (data_of nodes.now) number) s)
        game.now.shape.informed_actions (at worths.new s) }
{
    stage_worths(game, nodes, &nodes[number], worths);
}

/// The mix total times the row total times the discount's denominator.
fn divisor(game: &Game) -> i128
    ensures { result ≡ divisor_of game.now }
{
    law_game(game);
    let (_, under) = game.discount();
    MIX_TOTAL * (game.row_total() * under)
}

/// Raises each entry to the worth there, divided and rounded down, where that is higher, and answers whether one rose.
fn raise(entries: &mut [i128], worths: &[i128], divisor: i128) -> bool
    requires divisor { pos 0 <ℤ divisor }
    requires long { length entries.old ≡ length worths.now }
    ensures long { length entries.new ≡ length entries.old }
    ensures raised { (s : ℕ) → s < length entries.old →
        IsRaised (at worths.now s) divisor (at entries.old s) (at entries.new s) }
    ensures told { IsTrue result ↔ HasRisen entries.old entries.new }
{
    let mut risen = false;
    for s in 0..entries.len() {
        let raised = raised(entries[s], worths[s], divisor);
        if entries[s] < raised {
            entries[s] = raised;
            risen = true;
        }
    }
    risen
}

/// The greater of an entry, and of a worth divided and rounded down.
fn raised(entry: i128, worth: i128, divisor: i128) -> i128
    requires { pos 0 <ℤ divisor }
    ensures { IsRaised worth divisor entry result }
{
    entry.max(floor_div(worth, divisor))
}

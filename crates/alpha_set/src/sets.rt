//! The set of a controller's nodes.

ghost use Rattle.alpha_set.specs.Changes.{HasRisen, IsLifted, NodesStand};
ghost use Rattle.alpha_set.specs.Faults.{NodeFailsFirst};
ghost use Rattle.alpha_set.specs.Members.{most_nodes, node_data};
ghost use Rattle.alpha_set.specs.Nodes.{NodeFits, NodeStands, no_node, node_of, node_worth, nodes_of};
ghost use Rattle.alpha_set.specs.Worth.{AreWeighed, IsWorth};
ghost use Rattle.game_model.specs.Bounds.{IsLeastOf};
ghost use Rattle.game_model.specs.Game.{numbers};
ghost use Rattle.game_model.specs.Spans.{IsWithinSpan};
ghost use Rattle.scaled_num.specs.Share.{at};
ghost use Rattle.std.specs.Bool.{IsTrue};
ghost use Rattle.std.specs.List.{AllByRecursion};
ghost use Rattle.std.specs.Prelude.{IfOk, IfSome, IsErrOf, IsNone, IsOk, OnErr, OnOk, [], length, slice_index_or, slice_set, vec_capacity, vec_len, ℕ, ◌++◌, ◌+◌, ◌<◌, ◌↔◌, ◌∷◌, ◌≡◌, ◌≤ℤ◌, ◌≤◌};

use crate::lifts::lift_node;
use crate::nodes::Node;
use crate::stages::stage_worths;
use crate::stands::first_fault;
use crate::worth::{are_narrow, greatest};
use game_model::{Game, law_game};
use std::alloc::{AllocError, Global};
use std::marker::Model;

/// The most nodes of a set.
pub const MOST_NODES: usize = 1024;

/// Why a node is not added.
#[derive(Debug, Drop)]
pub enum PushFault {
    /// The set has 1,024 nodes.
    Full,
    /// No memory was to be had.
    OutOfMemory,
}

/// At most 1,024 nodes, by number.
#[derive(Drop)]
pub struct NodeSet {
    nodes: Vec<Node>,
    /// False where an entry of some node is not narrow.
    narrow: bool,
}

impl Model for NodeSet {
    ghost use Rattle.alpha_set.specs.Members.{data_of, most_nodes, node_data};
    ghost use Rattle.alpha_set.specs.Nodes.{NodeData};
    ghost use Rattle.alpha_set.specs.Products.{HaveNarrowEntries};
    ghost use Rattle.game_model.specs.Sets.{SetData};
    ghost use Rattle.std.specs.Bool.{IsTrue};
    ghost use Rattle.std.specs.Prelude.{length, map, vec_capacity, vec_len, ◌-◌, ◌≤◌};

    ghost Value = { SetData NodeData };

    ghost view = { λ set. record {
      members = map node_data set.nodes.items;
      spare = vec_capacity set.nodes - vec_len set.nodes;
    } };

    ghost invariant = { λ set. (length set.nodes.items ≤ most_nodes)
        × (IsTrue set.narrow → HaveNarrowEntries (data_of set.nodes.items)) };
}

impl NodeSet {
    /// A set for the nodes of a game, empty at first. It takes no memory yet.
    pub fn new(alloc: Global, _game: &Game) -> NodeSet
        ensures none { result.members ≡ [] }
        ensures no_spare { result.spare ≡ 0 }
    {
        NodeSet {
            nodes: Vec::new(alloc),
            narrow: true,
        }
    }

    /// The number of nodes.
    pub fn len(&self) -> u32
        ensures count { result ≡ length self.now.members }
        ensures few { length self.now.members ≤ most_nodes }
    {
        self.nodes.len() as u32
    }

    /// The node of a number.
    pub fn node(&self, i: u32) -> &Node
        requires { i < length self.now.members }
        ensures { node_data result.now ≡ slice_index_or self.now.members i no_node }
    {
        &self.nodes[i as usize]
    }

    /// Adds a node, and answers its number.
    ///
    /// # Errors
    ///
    /// `Full` where the set has 1,024 nodes. `OutOfMemory` where no memory is to be had. A refusal drops the node and
    /// leaves the set as it was.
    pub fn push(&mut self, node: Node) -> Result<u32, PushFault>
        ensures full { IsErrOf result PushFault.Full ↔ (length self.old.members ≡ most_nodes) }
        ensures added { OnOk result (self.new.members ≡ self.old.members ++ node_data node ∷ []) }
        ensures number { IfOk result (λ number. number ≡ length self.old.members) }
        ensures unchanged { OnErr result (self.new ≡ self.old) }
        ensures room { 1 ≤ self.old.spare → length self.old.members < most_nodes → IsOk result }
        ensures lowers { 1 ≤ self.old.spare → OnOk result (self.new.spare + 1 ≡ self.old.spare) }
    {
        if self.nodes.len() == MOST_NODES {
            return Err(PushFault::Full);
        }
        if make_room(&mut self.nodes, 1).is_err() {
            return Err(PushFault::OutOfMemory);
        }
        let number = self.nodes.len() as u32;
        self.narrow = self.narrow && are_narrow(&node.vector);
        self.nodes.push_reserved(node);
        Ok(number)
    }

    /// Takes memory for so many more nodes, where the set has none to spare for them.
    ///
    /// # Errors
    ///
    /// Where no memory is to be had. A refusal leaves the set as it was.
    pub fn reserve(&mut self, more: u32) -> Result<(), AllocError>
        ensures members { self.new.members ≡ self.old.members }
        ensures spare { OnOk result (more ≤ self.new.spare) }
        ensures unchanged { OnErr result (self.new ≡ self.old) }
    {
        make_room(&mut self.nodes, more as usize)
    }

    /// Replaces the node of a number by another. It takes no memory.
    pub fn replace(&mut self, number: u32, node: Node)
        requires member { number < length self.old.members }
        ensures members { self.new.members ≡ slice_set self.old.members number (node_data node) }
        ensures spare { self.new.spare ≡ self.old.spare }
    {
        let narrow = are_narrow(&node.vector);
        self.nodes[number as usize] = node;
        self.narrow = self.narrow && narrow;
    }

    /// Raises the node of a number to what one stage of it gives among the nodes as they are, and answers whether an
    /// entry rose. Each entry becomes the greater of itself and of the least worth of a stage there, divided by the mix
    /// total, the row total and the discount's denominator and rounded down; the mix and the steps stay. Where all
    /// nodes stand, all of them stand after it. It takes no memory.
    pub fn lift(&mut self, game: &Game, number: u32) -> bool
        requires member { number < length self.old.members }
        requires fits { AllByRecursion (NodeFits game.now (length self.old.members)) self.old.members }
        ensures lifted { IsLifted game.now self.old.members number self.new.members }
        ensures told { IsTrue result ↔ HasRisen (slice_index_or self.old.members number no_node).vector
            (slice_index_or self.new.members number no_node).vector }
        ensures spare { self.new.spare ≡ self.old.spare }
        ensures count { length self.new.members ≡ length self.old.members }
        ensures never_lower { (k s : ℕ) → s < game.now.shape.states →
            (nodes_of self.old.members k).vector s ≤ℤ (nodes_of self.new.members k).vector s }
        ensures fit { AllByRecursion (NodeFits game.now (length self.new.members)) self.new.members }
        ensures stand { NodesStand (numbers game.now) self.old.members →
            NodesStand (numbers game.now) self.new.members }
    {
        law_game(game);
        let risen = lift_node(game, &mut self.nodes, number as usize);
        self.narrow = self.narrow && are_narrow(&self.nodes[number as usize].vector);
        risen
    }

    /// What the nodes are worth at a mass: the greatest product of a node's vector with the mass, and the first node
    /// that has it. The nodes fit one game, and the mass is over its states, with a total of at most 2^36 times the
    /// row total. It takes no memory.
    pub fn worth(&self, mass: &[i128]) -> (i128, u32)
        requires some { 1 ≤ length self.now.members }
        requires weighed { AreWeighed self.now.members mass.now }
        ensures worth { IsWorth self.now.members mass.now result.0 result.1 }
        ensures bounded { (weighed : AreWeighed self.now.members mass.now) →
            IsWithinSpan weighed.game mass.now result.0 }
    {
        greatest(&self.nodes, self.narrow, mass)
    }

    /// Whether a node stands: None where the node rule holds at every state and informed action. Else the first of
    /// these, in rising order, at which it fails. It takes no memory.
    pub fn stands(&self, game: &Game, i: u32) -> Option<(u32, u32)>
        requires member { i < length self.now.members }
        requires fits { AllByRecursion (NodeFits game.now most_nodes) self.now.members }
        requires named { AllByRecursion (λ step. step.member < length self.now.members)
            (slice_index_or self.now.members i no_node).next }
        ensures none { IsNone result ↔ NodeStands (numbers game.now) (nodes_of self.now.members)
            (nodes_of self.now.members i) }
        ensures first { IfSome result (NodeFailsFirst (numbers game.now) (nodes_of self.now.members)
            (nodes_of self.now.members i)) }
    {
        first_fault(game, &self.nodes, &self.nodes[i as usize])
    }

    /// Writes what one stage of a node gives among these: for each state the least, over the informed actions, of the
    /// right side of the node rule, in units of the mix total times the row total times the discount's denominator. The
    /// node may be one that is not in the set, and its own entries do not count. It takes no memory.
    pub fn stage_worths(&self, game: &Game, node: &Node, worths: &mut [i128])
        requires members { AllByRecursion (NodeFits game.now most_nodes) self.now.members }
        requires fits { NodeFits game.now (length self.now.members) (node_data node.now) }
        requires states { length worths.old ≡ game.now.shape.states }
        ensures long { length worths.new ≡ game.now.shape.states }
        ensures least { (s : ℕ) → s < game.now.shape.states →
            IsLeastOf (node_worth (numbers game.now) (nodes_of self.now.members) (node_of (node_data node.now)) s)
            game.now.shape.informed_actions (at worths.new s) }
    {
        stage_worths(game, &self.nodes, node, worths);
    }
}

/// Makes room for so many more nodes; where there is room, nothing changes.
fn make_room(nodes: &mut Vec<Node>, more: usize) -> Result<(), AllocError>
    ensures items { nodes.new.items ≡ nodes.old.items }
    ensures count { vec_len nodes.new ≡ vec_len nodes.old }
    ensures room { OnOk result (vec_len nodes.new + more ≤ vec_capacity nodes.new) }
    ensures has { vec_len nodes.old + more ≤ vec_capacity nodes.old → IsOk result }
    ensures same { vec_len nodes.old + more ≤ vec_capacity nodes.old → vec_capacity nodes.new ≡ vec_capacity nodes.old }
    ensures unchanged { OnErr result (vec_capacity nodes.new ≡ vec_capacity nodes.old) }
{
    if more <= nodes.capacity() - nodes.len() {
        return Ok(());
    }
    nodes.reserve(more)
}

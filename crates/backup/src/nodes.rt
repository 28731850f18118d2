ghost use Rattle.backup.specs.Standing.{NodesStand};
ghost use Rattle.game_model.specs.Branches.{branch_of};
ghost use Rattle.alpha_set.specs.Members.{most_nodes, node_data};
ghost use Rattle.alpha_set.specs.Nodes.{NodeFits};
ghost use Rattle.backup.specs.Seeds.{AreSeedNodes, IsSeedNode, pure_mix};
ghost use Rattle.backup.specs.Steps.{IsSeedVector, always_steps};
ghost use Rattle.std.specs.List.{AllByRecursion};
ghost use Rattle.std.specs.Prelude.{IfOk, OnOk, [], length, map, ◌++◌, ◌<◌, ◌∷◌, ◌≡◌};

use alpha_set::{Node, NodeSet, PushFault, Step};
use game_model::{Game, MIX_TOTAL, law_game};
use std::alloc::{AllocError, Global};

/// The seed nodes: one for each own action, in order.
///
/// # Errors
///
/// Where no memory is to be had.
pub fn seed_nodes(alloc: Global, game: &Game) -> Result<NodeSet, AllocError>
    ensures nodes { IfOk result (λ set. AreSeedNodes game.now set.members) }
    ensures fit { IfOk result (λ set. AllByRecursion (NodeFits game.now (length set.members)) set.members) }
    ensures stand { IfOk result (λ set. NodesStand game.now set.members) }
{
    law_game(game);
    let mut nodes = NodeSet::new(alloc, game);
    for a in 0..game.own_actions() {
        add(&mut nodes, always(alloc, game, a)?)?;
    }
    Ok(nodes)
}

/// Adds a node to a set that has room for it.
fn add(nodes: &mut NodeSet, node: Node) -> Result<(), AllocError>
    requires { length nodes.old.members < most_nodes }
    ensures { OnOk result (nodes.new.members ≡ nodes.old.members ++ node_data node ∷ []) }
{
    match nodes.push(node) {
        Ok(_) => Ok(()),
        Err(PushFault::OutOfMemory) => Err(AllocError),
        Err(PushFault::Full) => unreachable!(),
    }
}

/// The node that always plays an action and goes on with itself.
fn always(alloc: Global, game: &Game, a: u32) -> Result<Node, AllocError>
    requires { a < game.now.shape.own_actions }
    ensures { IfOk result (λ node. IsSeedNode game.now a (node_data node)) }
{
    Ok(Node {
        vector: seed_vector(alloc, game, a)?,
        mix: whole_mix(alloc, game, a)?,
        next: steps_after(alloc, game, a)?,
    })
}

/// The seed vector of an action.
fn seed_vector(alloc: Global, game: &Game, a: u32) -> Result<Vec<i128>, AllocError>
    requires { a < game.now.shape.own_actions }
    ensures { IfOk result (λ vector. IsSeedVector game.now a vector.items) }
{
    let mut vector = vec![in alloc; 0; game.states() as usize]?;
    game.steady(a, &mut vector);
    Ok(vector)
}

/// The mix with all weight on an action.
fn whole_mix(alloc: Global, game: &Game, a: u32) -> Result<Vec<i128>, AllocError>
    requires { a < game.now.shape.own_actions }
    ensures { IfOk result (λ mix. mix.items ≡ pure_mix game.now a) }
{
    let mut mix = vec![in alloc; 0; game.own_actions() as usize]?;
    mix[a as usize] = MIX_TOTAL;
    Ok(mix)
}

/// After an action and each observation, one step to the node of the action.
fn steps_after(alloc: Global, game: &Game, a: u32) -> Result<Vec<Step>, AllocError>
    ensures { IfOk result (λ steps. map branch_of steps.items ≡ always_steps a game.now.shape.observations) }
{
    let mut steps = Vec::with_capacity(alloc, game.observations() as usize)?;
    for o in 0..game.observations() {
        steps.push(Step {
            a,
            o,
            k: a,
            weight: MIX_TOTAL,
        })?;
    }
    Ok(steps)
}

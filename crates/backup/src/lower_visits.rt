//! The lower advice of a visit, and its node.

ghost use Rattle.alpha_set.specs.Members.{node_data};
ghost use Rattle.alpha_set.specs.Nodes.{NodeData, NodeFits, NodeStands, node_of, nodes_of};
ghost use Rattle.backup.specs.LowerLaws.{LowerVisitsAreOne};
ghost use Rattle.backup.specs.LowerRuns.{HasWorth, IsBestRun, IsFirstRun, IsSound, run_data};
ghost use Rattle.backup.specs.LowerVisits.{IsLowerRun, IsLowerVisit};
ghost use Rattle.backup.specs.Tries.{tried_bits};
ghost use Rattle.game_model.specs.Game.{numbers};
ghost use Rattle.simplex.specs.declared.End.{End};
ghost use Rattle.stage_game.specs.Asked.{AreBits, AreLowerEnds, BeliefFits, HasRoomForLowers, NodesServe};
ghost use Rattle.stage_game.specs.Data.{lower_data};
ghost use Rattle.stage_game.specs.Fits.{LowerFits};
ghost use Rattle.std.specs.Prelude.{IfOk, List, length, ℕ, ◌++◌, ◌<ℤ◌, ◌≡◌, ◌≤ℤ◌};

use crate::new_nodes::new_node;
use alpha_set::{MOST_NODES, Node, NodeSet};
use belief::Belief;
use game_model::{Game, law_game};
use simplex::{End, Solver};
use stage_game::{LowerAdvice, lower_advice, lower_candidates};
use std::alloc::{AllocError, Global};

/// The bits that the program with the first candidates is scaled by.
const FIRST_BITS: u32 = 10;

/// The bits that those with the priced candidates are scaled by, in the order in which they are tried.
const TRIED_BITS: [u32; 3] = [10, 7, 5];

/// A run of a lower program: its advice, the node of that, and the product of the belief with the node.
#[derive(Drop)]
struct Run {
    advice: LowerAdvice,
    node: Node,
    worth: i128,
}

/// The lower advice of a visit, and its node, which is the first of greatest product with the belief among up to four
/// runs. The first run has the first candidates and 10 bits. The others have the priced candidates under the informed
/// mixes of the first: one with 10 bits, where it did not end optimal one with 7, and where that did not either one
/// with 5. The node fits the game, and it stands among the nodes, also when others come behind them.
///
/// # Errors
///
/// Where no memory is to be had. The solver may then hold another last dictionary, and keeps its room.
pub fn lower_visit(
    alloc: Global,
    solver: &mut Solver,
    game: &Game,
    belief: &Belief,
    nodes: &NodeSet,
) -> Result<(LowerAdvice, Node), AllocError>
    requires belief { BeliefFits game.now belief.now }
    requires nodes { NodesServe game.now nodes.now.members }
    requires room { HasRoomForLowers solver.old game.now nodes.now.members }
    ensures rows { solver.new.most_rows ≡ solver.old.most_rows }
    ensures variables { solver.new.most_variables ≡ solver.old.most_variables }
    ensures visit { IfOk result (λ made.
        IsLowerVisit game.now belief.now nodes.now.members (lower_data made.0) (node_data made.1)) }
    ensures advice { IfOk result (λ made. LowerFits game.now (length nodes.now.members) (lower_data made.0)) }
    ensures bounded { IfOk result (λ made. (col : ℕ) → made.0.end ≡ End.Unbounded col → ⊥) }
    ensures fits { IfOk result (λ made. NodeFits game.now (length nodes.now.members) (node_data made.1)) }
    ensures stands { IfOk result (λ made.
        NodeStands (numbers game.now) (nodes_of nodes.now.members) (node_of (node_data made.1))) }
    ensures stays { IfOk result (λ made. (more : List NodeData) →
        NodeStands (numbers game.now) (nodes_of (nodes.now.members ++ more)) (node_of (node_data made.1))) }
{
    let first = first_run(alloc, solver, game, belief, nodes)?;
    let priced = lower_candidates(alloc, game, belief, nodes, Some(&first.advice.informed))?;
    let best = best_run(
        alloc,
        solver,
        game,
        belief,
        nodes,
        &priced,
        &TRIED_BITS,
        first,
    )?;
    Ok((best.advice, best.node))
}

/// The run with the first candidates.
fn first_run(
    alloc: Global,
    solver: &mut Solver,
    game: &Game,
    belief: &Belief,
    nodes: &NodeSet,
) -> Result<Run, AllocError>
    requires belief { BeliefFits game.now belief.now }
    requires nodes { NodesServe game.now nodes.now.members }
    requires room { HasRoomForLowers solver.old game.now nodes.now.members }
    ensures rows { solver.new.most_rows ≡ solver.old.most_rows }
    ensures variables { solver.new.most_variables ≡ solver.old.most_variables }
    ensures run { IfOk result (λ run. IsFirstRun game.now belief.now nodes.now.members (run_data run)) }
    ensures sound { IfOk result (λ run. IsSound game.now nodes.now.members (run_data run)) }
    ensures worth { IfOk result (HasWorth belief.now) }
{
    let candidates = lower_candidates(alloc, game, belief, nodes, None)?;
    lower_run(alloc, solver, game, belief, nodes, &candidates, FIRST_BITS)
}

/// The best of a first run and those with the priced candidates, by the bits that are tried until a run ends optimal.
fn best_run(
    alloc: Global,
    solver: &mut Solver,
    game: &Game,
    belief: &Belief,
    nodes: &NodeSet,
    priced: &[u32],
    tried: &[u32],
    first: Run,
) -> Result<Run, AllocError>
    requires belief { BeliefFits game.now belief.now }
    requires nodes { NodesServe game.now nodes.now.members }
    requires room { HasRoomForLowers solver.old game.now nodes.now.members }
    requires priced { AreLowerEnds nodes.now.members priced.now }
    requires tried { tried.now ≡ tried_bits }
    requires sound { IsSound game.now nodes.now.members (run_data first) }
    requires worth { HasWorth belief.now first }
    ensures rows { solver.new.most_rows ≡ solver.old.most_rows }
    ensures variables { solver.new.most_variables ≡ solver.old.most_variables }
    ensures run { IfOk result (λ run.
        IsBestRun game.now belief.now nodes.now.members priced.now (run_data first) (run_data run)) }
    ensures sound { IfOk result (λ run. IsSound game.now nodes.now.members (run_data run)) }
{
    let mut best = first;
    for bits in tried {
        let run = lower_run(alloc, solver, game, belief, nodes, priced, *bits)?;
        let is_last = matches!(run.advice.end, End::Optimal);
        best = greater(best, run);
        if is_last {
            return Ok(best);
        }
    }
    Ok(best)
}

/// The run whose node is worth more, and the first of two that are worth the same.
fn greater(first: Run, second: Run) -> Run
    ensures kept { second.worth ≤ℤ first.worth → result ≡ first }
    ensures taken { first.worth <ℤ second.worth → result ≡ second }
{
    if second.worth > first.worth {
        second
    } else {
        first
    }
}

/// The run of the lower program with these candidates and bits.
fn lower_run(
    alloc: Global,
    solver: &mut Solver,
    game: &Game,
    belief: &Belief,
    nodes: &NodeSet,
    candidates: &[u32],
    bits: u32,
) -> Result<Run, AllocError>
    requires belief { BeliefFits game.now belief.now }
    requires nodes { NodesServe game.now nodes.now.members }
    requires room { HasRoomForLowers solver.old game.now nodes.now.members }
    requires candidates { AreLowerEnds nodes.now.members candidates.now }
    requires bits { AreBits bits }
    ensures rows { solver.new.most_rows ≡ solver.old.most_rows }
    ensures variables { solver.new.most_variables ≡ solver.old.most_variables }
    ensures run { IfOk result (λ run.
        IsLowerRun game.now belief.now nodes.now.members candidates.now bits (run_data run)) }
    ensures sound { IfOk result (λ run. IsSound game.now nodes.now.members (run_data run)) }
    ensures worth { IfOk result (HasWorth belief.now) }
{
    law_game(game);
    prove!(nodes.len() as usize <= MOST_NODES);
    let advice = lower_advice(alloc, solver, game, belief, nodes, candidates, bits)?;
    let node = new_node(alloc, game, &advice, nodes)?;
    let worth = node.worth(belief.parts());
    Ok(Run {
        advice,
        node,
        worth,
    })
}

/// A law: the lower visit of a belief has one advice and one node, whatever solver runs its programs.
pub fn law_one_lower_visit()
    ensures { LowerVisitsAreOne }
{}

//! The rows of the lower stage program.

ghost use Rattle.game_model.specs.Game.{GameData};
ghost use Rattle.scaled_num.specs.Sums.{below};
ghost use Rattle.stage_game.specs.Asked.{AreBits, AreLowerEnds, NodesServe};
ghost use Rattle.stage_game.specs.LowerProgram.{going_on_row, lower_worth_row, node_brings};
ghost use Rattle.stage_game.specs.Masses.{over_pairs};
ghost use Rattle.stage_game.specs.Pairs.{pairs};
ghost use Rattle.stage_game.specs.Scaling.{floor_of, paid_above, pay_width, worth_rows};
ghost use Rattle.stage_game.specs.Variables.{variables};
ghost use Rattle.std.specs.Prelude.{IfOk, OnOk, List, [], length, map, neg_ℤ, ℕ, ◌++◌, ◌<◌, ◌∷◌, ◌≡◌, ◌≤◌};

use crate::landings::{raised_sum, seen_so};
use crate::pairs::all_pairs;
use crate::parts::{pair_row, push_unit, variable_count};
use crate::scaling::{minus_down, paid, paid_over, scale_of, width_of};
use alpha_set::NodeSet;
use game_model::{Game, law_game};
use std::alloc::{AllocError, Global};

/// Pushes a row for each state and informed action: the worth of the state is at most what player one gets.
pub fn push_worth_rows(
    alloc: Global,
    game: &Game,
    nodes: &NodeSet,
    candidates: &[u32],
    bits: u32,
    rows: &mut Vec<Vec<i128>>,
) -> Result<(), AllocError>
    requires nodes { NodesServe game.now nodes.now.members }
    requires candidates { AreLowerEnds nodes.now.members candidates.now }
    requires bits { AreBits bits }
    ensures { OnOk result
        (map (λ row. row.items) rows.new.items ≡ map (λ row. row.items) rows.old.items
        ++ map (λ number. map number (variables game.now candidates.now))
        (worth_rows game.now (lower_worth_row game.now bits nodes.now.members))) }
{
    law_game(game);
    let places = all_pairs(alloc, game.states(), game.informed_actions())?;
    let after = all_pairs(alloc, game.own_actions(), game.observations())?;
    for place in &places {
        rows.push(worth_row(
            alloc, game, nodes, candidates, bits, place.0, place.1, &after,
        )?)?;
    }
    Ok(())
}

/// The row of a state and an informed action.
fn worth_row(
    alloc: Global,
    game: &Game,
    nodes: &NodeSet,
    candidates: &[u32],
    bits: u32,
    s: u32,
    c: u32,
    after: &[(u32, u32)],
) -> Result<Vec<i128>, AllocError>
    requires nodes { NodesServe game.now nodes.now.members }
    requires candidates { AreLowerEnds nodes.now.members candidates.now }
    requires bits { AreBits bits }
    requires state { s < game.now.shape.states }
    requires informed { c < game.now.shape.informed_actions }
    requires after { after.now ≡ pairs game.now.shape.own_actions game.now.shape.observations }
    ensures { IfOk result (λ row.
        row.items ≡ map (lower_worth_row game.now bits nodes.now.members s c) (variables game.now candidates.now)) }
{
    let mut row = Vec::with_capacity(alloc, variable_count(game, candidates.len()))?;
    push_unit(s, game.states(), &mut row)?;
    push_pays(game, bits, s, c, &mut row)?;
    for pair in after {
        push_block(
            game, nodes, candidates, bits, s, pair.0, c, pair.1, &mut row,
        )?;
    }
    Ok(row)
}

/// Pushes what each own action pays at once against an informed action, rounded down.
fn push_pays(game: &Game, bits: u32, s: u32, c: u32, row: &mut Vec<i128>) -> Result<(), AllocError>
    requires bits { AreBits bits }
    requires state { s < game.now.shape.states }
    requires informed { c < game.now.shape.informed_actions }
    ensures { OnOk result
        (row.new.items ≡ row.old.items
        ++ map (λ a. neg_ℤ (floor_of (paid_above game.now bits s a c) (pay_width game.now)))
        (below game.now.shape.own_actions)) }
{
    law_game(game);
    let whole = paid_over(game);
    for a in 0..game.own_actions() {
        row.push(minus_down(paid(game, bits, s, a, c), whole))?;
    }
    Ok(())
}

/// Pushes what going on with each node brings after an own action and an observation, rounded down.
fn push_block(
    game: &Game,
    nodes: &NodeSet,
    candidates: &[u32],
    bits: u32,
    s: u32,
    a: u32,
    c: u32,
    o: u32,
    row: &mut Vec<i128>,
) -> Result<(), AllocError>
    requires nodes { NodesServe game.now nodes.now.members }
    requires candidates { AreLowerEnds nodes.now.members candidates.now }
    requires bits { AreBits bits }
    requires state { s < game.now.shape.states }
    requires own { a < game.now.shape.own_actions }
    requires informed { c < game.now.shape.informed_actions }
    requires observation { o < game.now.shape.observations }
    ensures { OnOk result
        (row.new.items ≡ row.old.items
        ++ map (λ k. neg_ℤ (node_brings game.now bits nodes.now.members s a c o k)) candidates.now) }
{
    law_game(game);
    let (over, under) = game.discount();
    let times = scale_of(bits) * over;
    let whole = game.row_total() * under * width_of(game);
    let landings = seen_so(game.row(s, a, c), o);
    for k in candidates {
        let sum = raised_sum(landings, &nodes.node(*k).vector, game.span());
        row.push(minus_down(times * sum, whole))?;
    }
    Ok(())
}

/// Pushes a row for each own action and observation: player one goes on by at most the weight of the action.
pub fn push_going_on_rows(
    alloc: Global,
    game: &Game,
    count: usize,
    rows: &mut Vec<Vec<i128>>,
) -> Result<(), AllocError>
    requires few { count ≤ 16 }
    ensures { OnOk result ((ends : List ℕ) → length ends ≡ count →
        map (λ row. row.items) rows.new.items ≡ map (λ row. row.items) rows.old.items
        ++ map (λ number. map number (variables game.now ends)) (over_pairs game.now (λ a o. going_on_row a o ∷ []))) }
{
    law_game(game);
    let after = all_pairs(alloc, game.own_actions(), game.observations())?;
    let block = vec![in alloc; 1; count]?;
    for pair in &after {
        rows.push(pair_row(alloc, game, pair.0, pair.1, -1, &block)?)?;
    }
    Ok(())
}

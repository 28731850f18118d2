//! The rows of the upper stage program.

ghost use Rattle.point_set.specs.Corners.{point_at};
ghost use Rattle.point_set.specs.Members.{point_data};
ghost use Rattle.point_set.specs.Points.{PointFits};
ghost use Rattle.point_set.specs.Members.{most_points};
ghost use Rattle.scaled_num.specs.Share.{at};
ghost use Rattle.scaled_num.specs.Sums.{below, sum_of};
ghost use Rattle.stage_game.specs.Asked.{AreBits, AreUpperEnds, PointsServe};
ghost use Rattle.stage_game.specs.Masses.{over_pairs};
ghost use Rattle.stage_game.specs.Pairs.{pairs};
ghost use Rattle.stage_game.specs.PointParts.{part_data, part_of, part_row};
ghost use Rattle.stage_game.specs.Scaling.{ceil_of, floor_of, paid_above, pay_width, scale, worth_rows};
ghost use Rattle.stage_game.specs.UpperProgram.{point_row, state_brings, upper_worth_row};
ghost use Rattle.stage_game.specs.Variables.{variables};
ghost use Rattle.std.specs.List.{AllByRecursion};
ghost use Rattle.std.specs.Prelude.{IfOk, OnOk, length, map, neg_ℤ, ◌*ℤ◌, ◌++◌, ◌<◌, ◌≡◌, ◌≤◌};

use crate::landings::{seen_so, weight_to};
use crate::pairs::all_pairs;
use crate::parts::{pair_row, push_unit, variable_count};
use crate::scaling::{minus_up, paid, paid_over, scale_of, width_of};
use game_model::{Game, law_game};
use point_set::{Point, PointSet};
use scaled_num::floor_div;
use std::alloc::{AllocError, Global};

/// The numbers of the rows of a point.
#[derive(Drop)]
pub struct PointPart {
    /// The number of the own action: minus what the point's belief is worth.
    pub own: i128,
    /// The numbers of the next states: the point's belief.
    pub block: Vec<i128>,
}

/// Pushes a row for each state and informed action: the worth of the state is at most what player one gets.
pub fn push_worth_rows(
    alloc: Global,
    game: &Game,
    bits: u32,
    rows: &mut Vec<Vec<i128>>,
) -> Result<(), AllocError>
    requires bits { AreBits bits }
    ensures { OnOk result
        (map (λ row. row.items) rows.new.items ≡ map (λ row. row.items) rows.old.items
        ++ map (λ number. map number (variables game.now (below game.now.shape.states)))
        (worth_rows game.now (upper_worth_row game.now bits))) }
{
    law_game(game);
    let places = all_pairs(alloc, game.states(), game.informed_actions())?;
    let after = all_pairs(alloc, game.own_actions(), game.observations())?;
    for place in &places {
        rows.push(worth_row(alloc, game, bits, place.0, place.1, &after)?)?;
    }
    Ok(())
}

/// The row of a state and an informed action.
fn worth_row(
    alloc: Global,
    game: &Game,
    bits: u32,
    s: u32,
    c: u32,
    after: &[(u32, u32)],
) -> Result<Vec<i128>, AllocError>
    requires bits { AreBits bits }
    requires state { s < game.now.shape.states }
    requires informed { c < game.now.shape.informed_actions }
    requires after { after.now ≡ pairs game.now.shape.own_actions game.now.shape.observations }
    ensures { IfOk result (λ row.
        row.items ≡ map (upper_worth_row game.now bits s c) (variables game.now (below game.now.shape.states))) }
{
    law_game(game);
    let mut row = Vec::with_capacity(alloc, variable_count(game, game.states() as usize))?;
    push_unit(s, game.states(), &mut row)?;
    push_pays(game, bits, s, c, &mut row)?;
    for pair in after {
        push_block(game, bits, s, pair.0, c, pair.1, &mut row)?;
    }
    Ok(row)
}

/// Pushes what each own action pays at once against an informed action, rounded up.
fn push_pays(game: &Game, bits: u32, s: u32, c: u32, row: &mut Vec<i128>) -> Result<(), AllocError>
    requires bits { AreBits bits }
    requires state { s < game.now.shape.states }
    requires informed { c < game.now.shape.informed_actions }
    ensures { OnOk result
        (row.new.items ≡ row.old.items
        ++ map (λ a. neg_ℤ (ceil_of (paid_above game.now bits s a c) (pay_width game.now)))
        (below game.now.shape.own_actions)) }
{
    law_game(game);
    let whole = paid_over(game);
    for a in 0..game.own_actions() {
        row.push(minus_up(paid(game, bits, s, a, c), whole))?;
    }
    Ok(())
}

/// Pushes what going on with each next state brings after an own action and an observation, rounded up.
fn push_block(
    game: &Game,
    bits: u32,
    s: u32,
    a: u32,
    c: u32,
    o: u32,
    row: &mut Vec<i128>,
) -> Result<(), AllocError>
    requires bits { AreBits bits }
    requires state { s < game.now.shape.states }
    requires own { a < game.now.shape.own_actions }
    requires informed { c < game.now.shape.informed_actions }
    requires observation { o < game.now.shape.observations }
    ensures { OnOk result
        (row.new.items ≡ row.old.items
        ++ map (λ t. neg_ℤ (state_brings game.now bits s a c o t)) (below game.now.shape.states)) }
{
    law_game(game);
    let (over, under) = game.discount();
    let times = scale_of(bits);
    let whole = under * game.row_total();
    let landings = seen_so(game.row(s, a, c), o);
    for t in 0..game.states() {
        row.push(minus_up(times * (over * weight_to(landings, t)), whole))?;
    }
    Ok(())
}

/// Pushes a row for each own action, observation and point: the belief of the point is worth at most its value.
pub fn push_point_rows(
    alloc: Global,
    game: &Game,
    points: &PointSet,
    candidates: &[u32],
    bits: u32,
    rows: &mut Vec<Vec<i128>>,
) -> Result<(), AllocError>
    requires points { PointsServe game.now points.now.members }
    requires candidates { AreUpperEnds game.now points.now.members candidates.now }
    requires bits { AreBits bits }
    ensures { OnOk result
        (map (λ row. row.items) rows.new.items ≡ map (λ row. row.items) rows.old.items
        ++ map (λ number. map number (variables game.now (below game.now.shape.states)))
        (over_pairs game.now (λ a o.
        map (λ k. point_row game.now bits (point_at points.now.members k) a o) candidates.now))) }
{
    law_game(game);
    let after = all_pairs(alloc, game.own_actions(), game.observations())?;
    let parts = all_parts(alloc, game, points, candidates, bits)?;
    for pair in &after {
        push_rows_after(alloc, game, pair.0, pair.1, &parts, rows)?;
    }
    Ok(())
}

/// Pushes the rows of all points after an own action and an observation.
fn push_rows_after(
    alloc: Global,
    game: &Game,
    a: u32,
    o: u32,
    parts: &[PointPart],
    rows: &mut Vec<Vec<i128>>,
) -> Result<(), AllocError>
    requires own { a < game.now.shape.own_actions }
    requires observation { o < game.now.shape.observations }
    requires long { AllByRecursion (λ part. length part.block.items ≡ game.now.shape.states) parts.now }
    ensures { OnOk result
        (map (λ row. row.items) rows.new.items ≡ map (λ row. row.items) rows.old.items
        ++ map (λ part. map (part_row (part_data part) a o) (variables game.now (below game.now.shape.states)))
        parts.now) }
{
    law_game(game);
    for part in parts {
        rows.push(pair_row(alloc, game, a, o, part.own, &part.block)?)?;
    }
    Ok(())
}

/// The numbers of the rows of each candidate.
fn all_parts(
    alloc: Global,
    game: &Game,
    points: &PointSet,
    candidates: &[u32],
    bits: u32,
) -> Result<Vec<PointPart>, AllocError>
    requires points { PointsServe game.now points.now.members }
    requires candidates { AreUpperEnds game.now points.now.members candidates.now }
    requires bits { AreBits bits }
    ensures { IfOk result (λ parts.
        map part_data parts.items ≡ map (λ k. part_of game.now bits (point_at points.now.members k)) candidates.now) }
{
    let mut parts = Vec::with_capacity(alloc, candidates.len())?;
    for k in candidates {
        parts.push(point_part(alloc, game, points.point(*k), bits)?)?;
    }
    Ok(parts)
}

/// The numbers of the rows of a point.
fn point_part(alloc: Global, game: &Game, point: &Point, bits: u32) -> Result<PointPart, AllocError>
    requires point { PointFits game.now most_points (point_data point.now) }
    requires bits { AreBits bits }
    ensures { IfOk result (λ part. part_data part ≡ part_of game.now bits (point_data point.now)) }
{
    law_game(game);
    let total = point.belief.total();
    let times = scale_of(bits);
    let worth = times * (point.value + game.span() * total);
    let mut block = Vec::with_capacity(alloc, game.states() as usize)?;
    for part in point.belief.parts() {
        block.push(floor_div(times * *part, total))?;
    }
    Ok(PointPart {
        own: minus_up(worth, width_of(game) * total),
        block,
    })
}

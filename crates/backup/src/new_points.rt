//! The point of an upper advice.

ghost use Rattle.backup.specs.Evaluation.{IsNewPoint, split_branches};
ghost use Rattle.backup.specs.NewPoints.{AddsShares, AddsSharesAfter, AreItemsOf, AreShares, IsSplitBy};
ghost use Rattle.game_model.specs.Branches.{branch_of};
ghost use Rattle.game_model.specs.Game.{numbers};
ghost use Rattle.point_set.specs.Members.{IsAfter, point_data};
ghost use Rattle.point_set.specs.Points.{PointData, PointFits, PointStands, point_of, points_of};
ghost use Rattle.point_set.specs.Sawtooth.{AreMeasured};
ghost use Rattle.point_set.specs.Split.{IsWanted};
ghost use Rattle.stage_game.specs.Asked.{BeliefFits, PointsServe};
ghost use Rattle.stage_game.specs.Data.{upper_data};
ghost use Rattle.stage_game.specs.Fits.{UpperFits};
ghost use Rattle.std.specs.Prelude.{IfOk, List, OnOk, filter, length, map, pos, ◌++◌, ◌<◌, ◌≡◌};

use crate::points::evaluation;
use belief::{Belief, mass};
use game_model::{Game, MOST_STATES, law_game};
use point_set::{MOST_POINTS, Point, PointSet, Share, Split};
use scaled_num::sum;
use stage_game::UpperAdvice;
use std::alloc::{AllocError, Global};

/// The point at a belief of an upper advice that fits: the mixes of the advice; each mass that then follows, split by
/// the points that the advice wants there; and the value that these need, which is the greatest, over the own actions,
/// of what one stage costs at most, rounded up. The value is in units, times the belief's total. The point fits the
/// game, and it stands among the points, also when others come behind them.
///
/// # Errors
///
/// Where no memory is to be had.
pub fn new_point(
    alloc: Global,
    game: &Game,
    belief: &Belief,
    advice: &UpperAdvice,
    points: &PointSet,
) -> Result<Point, AllocError>
    requires belief { BeliefFits game.now belief.now }
    requires points { PointsServe game.now points.now.members }
    requires advice { UpperFits game.now points.now.members (upper_data advice.now) }
    ensures point { IfOk result (λ point.
        IsNewPoint game.now belief.now points.now.members (upper_data advice.now) (point_data point)) }
    ensures fits { IfOk result (λ point. PointFits game.now (length points.now.members) (point_data point)) }
    ensures stands { IfOk result (λ point.
        PointStands (numbers game.now) (points_of points.now.members) (point_of (point_data point))) }
    ensures stays { IfOk result (λ point. (more : List PointData) →
        PointStands (numbers game.now) (points_of (points.now.members ++ more)) (point_of (point_data point))) }
{
    law_game(game);
    prove!(points.len() as usize <= MOST_POINTS);
    let mut point = split_point(alloc, game, belief, advice, points)?;
    point.value = evaluation(game, points, &point);
    Ok(point)
}

/// The point at a belief of an upper advice, whose value is still 0.
fn split_point(
    alloc: Global,
    game: &Game,
    belief: &Belief,
    advice: &UpperAdvice,
    points: &PointSet,
) -> Result<Point, AllocError>
    requires belief { BeliefFits game.now belief.now }
    requires points { PointsServe game.now points.now.members }
    requires advice { UpperFits game.now points.now.members (upper_data advice.now) }
    ensures { IfOk result (λ point.
        IsSplitBy game.now belief.now (upper_data advice.now) points.now.members (pos 0) (point_data point)) }
{
    let mixes = advice.informed.copied()?;
    let splits = split_masses(alloc, game, belief, advice, points)?;
    Ok(Point {
        belief: belief.copied(),
        value: 0,
        mixes,
        splits,
    })
}

/// The shares that split all masses that follow a belief under the mixes of an advice, by the points that it wants.
fn split_masses(
    alloc: Global,
    game: &Game,
    belief: &Belief,
    advice: &UpperAdvice,
    points: &PointSet,
) -> Result<Vec<Share>, AllocError>
    requires belief { BeliefFits game.now belief.now }
    requires points { PointsServe game.now points.now.members }
    requires advice { UpperFits game.now points.now.members (upper_data advice.now) }
    ensures { IfOk result (λ shares.
        AreShares game.now belief.now advice.now.informed (map branch_of advice.now.wanted.items) points.now.members
        (map branch_of shares.items)) }
{
    let mut shares = Vec::new(alloc);
    for a in 0..game.own_actions() {
        split_after(alloc, game, belief, advice, points, a, &mut shares)?;
    }
    Ok(shares)
}

/// Adds the shares after an own action.
fn split_after(
    alloc: Global,
    game: &Game,
    belief: &Belief,
    advice: &UpperAdvice,
    points: &PointSet,
    a: u32,
    shares: &mut Vec<Share>,
) -> Result<(), AllocError>
    requires belief { BeliefFits game.now belief.now }
    requires points { PointsServe game.now points.now.members }
    requires advice { UpperFits game.now points.now.members (upper_data advice.now) }
    requires own { a < game.now.shape.own_actions }
    ensures { OnOk result
        (AddsShares game.now belief.now advice.now.informed (map branch_of advice.now.wanted.items) points.now.members a
        (map branch_of shares.old.items) (map branch_of shares.new.items)) }
{
    for o in 0..game.observations() {
        split_seen(alloc, game, belief, advice, points, a, o, shares)?;
    }
    Ok(())
}

/// Adds the shares after an own action and an observation.
fn split_seen(
    alloc: Global,
    game: &Game,
    belief: &Belief,
    advice: &UpperAdvice,
    points: &PointSet,
    a: u32,
    o: u32,
    shares: &mut Vec<Share>,
) -> Result<(), AllocError>
    requires belief { BeliefFits game.now belief.now }
    requires points { PointsServe game.now points.now.members }
    requires advice { UpperFits game.now points.now.members (upper_data advice.now) }
    requires own { a < game.now.shape.own_actions }
    requires seen { o < game.now.shape.observations }
    ensures { OnOk result
        (AddsSharesAfter game.now belief.now advice.now.informed
        (map branch_of advice.now.wanted.items) points.now.members a o (map branch_of shares.old.items)
        (map branch_of shares.new.items)) }
{
    law_game(game);
    let mut masses = [0; MOST_STATES];
    let masses = &mut masses[..game.states() as usize];
    mass(game, belief, &advice.informed, a, o, masses);
    let wanted = wanted_after(alloc, &advice.wanted, a, o)?;
    let split = split_of(points, &wanted, masses);
    add_items(&split, a, o, shares)
}

/// The wanted points after an own action and an observation, with their weights.
fn wanted_after(
    alloc: Global,
    wanted: &[Share],
    a: u32,
    o: u32,
) -> Result<Vec<(u32, i128)>, AllocError>
    ensures { IfOk result (λ pairs.
        pairs.items ≡ map (λ share. (share.k, share.weight)) (filter (IsAfter a o) wanted.now)) }
{
    wanted
        .iter()
        .filter(|want| want.a == a && want.o == o)
        .map(|want| (want.k, want.weight))
        .collect(alloc)
}

/// The split of a mass by wanted points. That of a mass of zero has no items.
fn split_of(points: &PointSet, wanted: &[(u32, i128)], mass: &[i128]) -> Split
    requires measured { AreMeasured points.now.members mass.now }
    requires wanted { IsWanted points.now.members (length mass.now) wanted.now }
    ensures { AreItemsOf points.now.members wanted.now mass.now result }
{
    let mut split = Split::new();
    if sum(mass) == 0 {
        return split;
    }
    points.split_into(wanted, mass, &mut split);
    split
}

/// Adds the items of a split as shares.
fn add_items(split: &Split, a: u32, o: u32, shares: &mut Vec<Share>) -> Result<(), AllocError>
    ensures { OnOk result
        (map branch_of shares.new.items ≡ map branch_of shares.old.items ++ split_branches a o split.now) }
{
    for i in 0..split.len() {
        let (k, weight) = split.item(i);
        shares.push(Share { a, o, k, weight })?;
    }
    Ok(())
}

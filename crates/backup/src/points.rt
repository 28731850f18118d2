ghost use Rattle.backup.specs.Standing.{PointsStand};
ghost use Rattle.backup.specs.Rounds.{AreSettled};
ghost use Rattle.backup.specs.Seeds.{AreSeedPoints, IsEvaluation, IsRootPoint, corner_points, corner_split};
ghost use Rattle.backup.specs.Shares.{AreCorners, AreSeeds, IsSplitAmong};
ghost use Rattle.backup.specs.Rounds.{IsGreatestOf};
ghost use Rattle.belief.specs.Mixes.{pure_mixes};
ghost use Rattle.game_model.specs.Game.{numbers};
ghost use Rattle.point_set.specs.Members.{most_points, point_data};
ghost use Rattle.point_set.specs.Points.{PointFits, point_of, point_worth, points_of};
ghost use Rattle.scaled_num.specs.Share.{at};
ghost use Rattle.std.specs.List.{AllByRecursion};
ghost use Rattle.std.specs.Prelude.{IfOk, OnOk, [], length, ◌++◌, ◌<◌, ◌∷◌, ◌≡◌};

use crate::corners::settle_corners;
use crate::shares::split_into_corners;
use belief::{Belief, Mixes};
use game_model::{Game, MIX_TOTAL, MOST_STATES, law_game};
use point_set::{Point, PointSet, PushFault};
use scaled_num::ceil_div;
use std::alloc::{AllocError, Global};

/// The seed points: the corner points in order, and the root point where the first belief is no corner.
///
/// # Errors
///
/// Where no memory is to be had.
pub fn seed_points(alloc: Global, game: &Game) -> Result<PointSet, AllocError>
    ensures points { IfOk result (λ set. AreSeedPoints game.now set.members) }
    ensures fit { IfOk result (λ set. AllByRecursion (PointFits game.now (length set.members)) set.members) }
    ensures stand { IfOk result (λ set. PointsStand game.now set.members) }
{
    law_game(game);
    let mut values = [0; MOST_STATES];
    let values = &mut values[..game.states() as usize];
    let mut replies = [0; MOST_STATES];
    let replies = &mut replies[..game.states() as usize];
    settle_corners(game, values, replies);
    let mut points = corner_points(alloc, game, values, replies)?;
    add_root(alloc, game, replies, &mut points)?;
    Ok(points)
}

/// The corner points with these values and replies.
fn corner_points(
    alloc: Global,
    game: &Game,
    values: &[i128],
    replies: &[u32],
) -> Result<PointSet, AllocError>
    requires { AreSettled game.now values.now replies.now }
    ensures { IfOk result (λ set. set.members ≡ corner_points game.now values.now (pure_mixes game.now replies.now)) }
{
    law_game(game);
    let mut points = PointSet::new(alloc, game);
    for (s, value) in values.iter().enumerate() {
        let corner = Belief::corner(game.states(), s as u32);
        let point = point_at(alloc, game, corner, *value, replies)?;
        add(&mut points, point)?;
    }
    Ok(points)
}

/// Adds the root point to the corner points where the first belief is no corner. As its weights are coprime, they are
/// more than one in all just there.
fn add_root(
    alloc: Global,
    game: &Game,
    replies: &[u32],
    points: &mut PointSet,
) -> Result<(), AllocError>
    requires { AreCorners game.now replies.now points.old.members }
    ensures { OnOk result (AreSeeds game.now points.new.members) }
{
    law_game(game);
    if game.first_total() > 1 {
        let root = root_point(alloc, game, replies, points)?;
        add(points, root)?;
    }
    Ok(())
}

/// The point at the first belief, with its value among the corner points.
fn root_point(
    alloc: Global,
    game: &Game,
    replies: &[u32],
    corners: &PointSet,
) -> Result<Point, AllocError>
    requires { AreCorners game.now replies.now corners.now.members }
    ensures { IfOk result (λ point. IsRootPoint game.now corners.now.members (pure_mixes game.now replies.now)
        (point_data point)) }
{
    law_game(game);
    let mut point = point_at(alloc, game, Belief::first_of(game), 0, replies)?;
    point.value = evaluation(game, corners, &point);
    Ok(point)
}

/// The point at a belief, with this value and the mixes that surely play these replies, split into corners.
fn point_at(
    alloc: Global,
    game: &Game,
    belief: Belief,
    value: i128,
    replies: &[u32],
) -> Result<Point, AllocError>
    requires belief { length belief ≡ game.now.shape.states }
    requires states { length replies.now ≡ game.now.shape.states }
    requires actions { AllByRecursion (λ c. c < game.now.shape.informed_actions) replies.now }
    ensures { IfOk result (λ point. point_data point
        ≡ corner_split game.now belief value (pure_mixes game.now replies.now)) }
{
    let mixes = Mixes::pure(alloc, game, replies)?;
    let splits = split_into_corners(alloc, game, &belief, &mixes)?;
    Ok(Point {
        belief,
        value,
        mixes,
        splits,
    })
}

/// Adds a point to a set that has room for it.
fn add(points: &mut PointSet, point: Point) -> Result<(), AllocError>
    requires { length points.old.members < most_points }
    ensures { OnOk result (points.new.members ≡ points.old.members ++ point_data point ∷ []) }
{
    match points.push(point) {
        Ok(_) => Ok(()),
        Err(PushFault::OutOfMemory) => Err(AllocError),
        Err(PushFault::Full) => unreachable!(),
    }
}

/// What a point must be worth among the points of a set, rounded up.
pub fn evaluation(game: &Game, points: &PointSet, point: &Point) -> i128
    requires { IsSplitAmong game.now points.now.members (point_data point.now) }
    ensures { IsEvaluation (numbers game.now) (points_of points.now.members) (point_of (point_data point.now)) result }
{
    law_game(game);
    let worth = greatest_worth(game, points, point);
    let (_, under) = game.discount();
    ceil_div(worth, MIX_TOTAL * (game.row_total() * under))
}

/// The most that one stage costs a point over the own actions, before the division.
fn greatest_worth(game: &Game, points: &PointSet, point: &Point) -> i128
    requires { IsSplitAmong game.now points.now.members (point_data point.now) }
    ensures { IsGreatestOf (point_worth (numbers game.now) (points_of points.now.members)
        (point_of (point_data point.now))) game.now.shape.own_actions result }
{
    law_game(game);
    let mut most = points.stage_worth(game, point, 0);
    for a in 1..game.own_actions() {
        most = most.max(points.stage_worth(game, point, a));
    }
    most
}

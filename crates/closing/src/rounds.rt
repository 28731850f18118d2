//! One round of closing: a path of visits from the first belief on, and sweeps.

ghost use Rattle.closing.specs.Better.{AreNodes, ArePoints, NodesGoOn, PointsGoOn};
ghost use Rattle.closing.specs.Closer.{IsBetter};
ghost use Rattle.controller.specs.Certificates.{CertificateStands};
ghost use Rattle.controller.specs.Concluded.{EndsByGap};
ghost use Rattle.std.specs.Prelude.{IfOk, ◌<◌};

use crate::branches::{Frontier, Open};
use crate::export::with_room;
use crate::fineness::Fineness;
use crate::places::is_of_game;
use crate::restarts::restarted;
use crate::sweeps::{sweep_nodes, sweep_points};
use crate::visits::{visit, visit_points};
use alpha_set::NodeSet;
use belief::Belief;
use controller::Certificate;
use game_model::{Game, law_game};
use point_set::PointSet;
use scaled_num::Fraction;
use std::alloc::{AllocError, Global};

/// What one round makes of a certificate: better members by visits from the first belief on, told apart so finely, then
/// better points by a visit of each.
///
/// # Errors
///
/// Where no memory is to be had.
pub fn round(
    alloc: Global,
    game: &Game,
    certificate: Certificate,
    fineness: &Fineness,
) -> Result<Certificate, AllocError>
    requires stands { CertificateStands game.now certificate }
    requires ends { EndsByGap certificate }
    ensures { IfOk result (IsBetter game.now certificate) }
{
    let next = visited(alloc, game, certificate, fineness)?;
    settled(alloc, game, next, fineness)
}

/// The first half of a round: where members are dropped, those that the starts do not reach are. Then beliefs are visited
/// from the first one on, those first where most is lost by a division among points, then the corners, then the visited
/// beliefs once more for points, from the last to the first. Then all members are swept, and the starts move to better
/// ones.
fn visited(
    alloc: Global,
    game: &Game,
    certificate: Certificate,
    fineness: &Fineness,
) -> Result<Certificate, AllocError>
    requires stands { CertificateStands game.now certificate }
    requires ends { EndsByGap certificate }
    ensures { IfOk result (IsBetter game.now certificate) }
{
    let roomy = with_room(alloc, game, certificate, fineness.drops)?;
    let next = with_visits(alloc, game, roomy, fineness)?;
    restarted(alloc, game, next)
}

/// The second half of a round: members are dropped as before the first one. Then the belief of each point is visited for
/// a point, the points are swept, and the starts move to better members.
fn settled(
    alloc: Global,
    game: &Game,
    certificate: Certificate,
    fineness: &Fineness,
) -> Result<Certificate, AllocError>
    requires stands { CertificateStands game.now certificate }
    requires ends { EndsByGap certificate }
    ensures { IfOk result (IsBetter game.now certificate) }
{
    let roomy = with_room(alloc, game, certificate, fineness.drops)?;
    let next = with_settled_points(alloc, game, roomy)?;
    restarted(alloc, game, next)
}

/// The certificate with the members that the visits of a round and sweeps make of its own.
fn with_visits(
    alloc: Global,
    game: &Game,
    certificate: Certificate,
    fineness: &Fineness,
) -> Result<Certificate, AllocError>
    requires { CertificateStands game.now certificate }
    ensures { IfOk result (IsBetter game.now certificate) }
{
    law_game(game);
    let mut next = certificate;
    visit_all(
        alloc,
        game,
        fineness,
        &next.gap,
        &mut next.nodes,
        &mut next.points,
    )?;
    sweep_nodes(game, &mut next.nodes);
    sweep_points(game, &mut next.points);
    Ok(next.concluded(game))
}

/// The certificate with the points that a visit of each and a sweep make of its own.
fn with_settled_points(
    alloc: Global,
    game: &Game,
    certificate: Certificate,
) -> Result<Certificate, AllocError>
    requires { CertificateStands game.now certificate }
    ensures { IfOk result (IsBetter game.now certificate) }
{
    law_game(game);
    let mut next = certificate;
    visit_members(alloc, game, &mut next.points)?;
    sweep_points(game, &mut next.points);
    Ok(next.concluded(game))
}

/// Makes the visits of a round.
fn visit_all(
    alloc: Global,
    game: &Game,
    fineness: &Fineness,
    gap: &Fraction,
    nodes: &mut NodeSet,
    points: &mut PointSet,
) -> Result<(), AllocError>
    requires nodes { AreNodes game.now nodes.old.members }
    requires points { ArePoints game.now points.old.members }
    ensures nodes { NodesGoOn game.now nodes.old.members nodes.new.members }
    ensures points { PointsGoOn game.now points.old.members points.new.members }
{
    law_game(game);
    let mut frontier = Frontier::of(alloc, game, *fineness, gap)?;
    explore(alloc, game, fineness.budget, &mut frontier, nodes, points)?;
    for s in 0..game.states() {
        visit_corner(alloc, game, s, nodes, points)?;
    }
    go_back(alloc, game, &frontier.visited, points)
}

/// Visits the belief that is sure of a state.
fn visit_corner(
    alloc: Global,
    game: &Game,
    state: u32,
    nodes: &mut NodeSet,
    points: &mut PointSet,
) -> Result<(), AllocError>
    requires state { state < game.now.shape.states }
    requires nodes { AreNodes game.now nodes.old.members }
    requires points { ArePoints game.now points.old.members }
    ensures nodes { NodesGoOn game.now nodes.old.members nodes.new.members }
    ensures points { PointsGoOn game.now points.old.members points.new.members }
{
    law_game(game);
    let corner = Belief::corner(game.states(), state);
    if is_of_game(game, &corner) {
        visit(alloc, game, &corner, nodes, points)?;
    }
    Ok(())
}

/// Visits the open beliefs, the one of greatest bend first, until none is open or the budget is used.
fn explore(
    alloc: Global,
    game: &Game,
    budget: u32,
    frontier: &mut Frontier,
    nodes: &mut NodeSet,
    points: &mut PointSet,
) -> Result<(), AllocError>
    requires nodes { AreNodes game.now nodes.old.members }
    requires points { ArePoints game.now points.old.members }
    ensures nodes { NodesGoOn game.now nodes.old.members nodes.new.members }
    ensures points { PointsGoOn game.now points.old.members points.new.members }
{
    for _ in 0..budget {
        match frontier.take() {
            Some(open) => visit_open(alloc, game, frontier, open, nodes, points)?,
            None => return Ok(()),
        }
    }
    Ok(())
}

/// Visits an open belief, and opens those that follow it.
fn visit_open(
    alloc: Global,
    game: &Game,
    frontier: &mut Frontier,
    open: Open,
    nodes: &mut NodeSet,
    points: &mut PointSet,
) -> Result<(), AllocError>
    requires nodes { AreNodes game.now nodes.old.members }
    requires points { ArePoints game.now points.old.members }
    ensures nodes { NodesGoOn game.now nodes.old.members nodes.new.members }
    ensures points { PointsGoOn game.now points.old.members points.new.members }
{
    law_game(game);
    if !is_of_game(game, &open.belief) {
        return Ok(());
    }
    let seen = visit(alloc, game, &open.belief, nodes, points)?;
    frontier.add_branches(alloc, game, &open, &seen, nodes, points)?;
    frontier.visited.reserve(1)?;
    frontier.visited.push_reserved(open.belief);
    Ok(())
}

/// Visits beliefs once more for points, from the last to the first.
fn go_back(
    alloc: Global,
    game: &Game,
    beliefs: &[Belief],
    points: &mut PointSet,
) -> Result<(), AllocError>
    requires points { ArePoints game.now points.old.members }
    ensures { PointsGoOn game.now points.old.members points.new.members }
{
    let count = beliefs.len();
    for i in 0..count {
        visit_again(alloc, game, &beliefs[count - 1 - i], points)?;
    }
    Ok(())
}

/// Visits the belief of each point for a point, from the last to the first.
fn visit_members(alloc: Global, game: &Game, points: &mut PointSet) -> Result<(), AllocError>
    requires points { ArePoints game.now points.old.members }
    ensures { PointsGoOn game.now points.old.members points.new.members }
{
    let count = points.len();
    for i in 0..count {
        let number = count - 1 - i;
        if number < points.len() {
            let belief = points.point(number).belief.copied();
            visit_again(alloc, game, &belief, points)?;
        }
    }
    Ok(())
}

/// Visits a belief for a point.
fn visit_again(
    alloc: Global,
    game: &Game,
    belief: &Belief,
    points: &mut PointSet,
) -> Result<(), AllocError>
    requires points { ArePoints game.now points.old.members }
    ensures { PointsGoOn game.now points.old.members points.new.members }
{
    if is_of_game(game, belief) {
        visit_points(alloc, game, belief, points)?;
    }
    Ok(())
}

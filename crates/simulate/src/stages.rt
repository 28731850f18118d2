//! One stage of a play: what it draws, in order.

ghost use Rattle.controller.specs.Certificates.{CertificateStands};
ghost use Rattle.game_model.specs.Branches.{AreRising, branch_of};
ghost use Rattle.hsvi_draw.specs.Draws.{after_draws};
ghost use Rattle.point_set.specs.Members.{IsAfter};
ghost use Rattle.simulate.specs.Plays.{CanPlay, CanStand, informed_drawn, landing_drawn, moved, move_draws};
ghost use Rattle.simulate.specs.Plays.{node_drawn, own_drawn};
ghost use Rattle.simulate.specs.Plays.{played_at, point_drawn, row_weights, share_draws};
ghost use Rattle.std.specs.List.{sum};
ghost use Rattle.std.specs.Prelude.{IfOk, OnOk, Some, filter, length, map, ◌<◌, ◌≡◌, ◌≤◌, ◌^◌};

use crate::choices::{draw_place, sum_of};
use crate::parts::{Played, Standing};
use crate::weights::{branch_weights, landing_weights, mix_weights, share_weights, state_weights};
use controller::Certificate;
use game_model::{Branch, Game, Landing, law_game};
use hsvi_draw::Draw;
use std::alloc::{AllocError, Global};

/// What a stage draws first: the own action, the informed action and the landing.
pub fn draw_stage(
    alloc: Global,
    game: &Game,
    certificate: &Certificate,
    draw: &mut Draw,
    at: &Standing,
) -> Result<Played, AllocError>
    requires stands { CertificateStands game.now certificate.now }
    requires at { CanStand game.now certificate.now at.now }
    ensures played { IfOk result (λ played. played ≡ played_at game.now certificate.now at.now draw.old) }
    ensures moved { OnOk result (draw.new ≡ after_draws 3 draw.old) }
{
    law_game(game);
    let own = draw_own(alloc, game, certificate, draw, at.node)?;
    let informed = draw_informed(alloc, game, certificate, draw, at)?;
    let landing = draw_landing(alloc, draw, game.row(at.state, own, informed))?;
    Ok(Played {
        state: at.state,
        own,
        informed,
        seen: landing.seen,
        to: landing.to,
    })
}

/// What it draws then: the node and the point of the next stage.
pub fn move_on(
    alloc: Global,
    game: &Game,
    certificate: &Certificate,
    draw: &mut Draw,
    at: &Standing,
    played: &Played,
) -> Result<Standing, AllocError>
    requires stands { CertificateStands game.now certificate.now }
    requires at { CanStand game.now certificate.now at.now }
    requires played { CanPlay game.now certificate.now at.now played.now }
    ensures standing { IfOk result (λ next. next ≡ moved certificate.now at.now played.now draw.old) }
    ensures moved { OnOk result (draw.new ≡ after_draws (move_draws certificate.now at.now played.now) draw.old) }
{
    let node = draw_node(alloc, game, certificate, draw, at, played)?;
    let point = draw_point(alloc, game, certificate, draw, at, played)?;
    Ok(Standing {
        state: played.to,
        node,
        point,
    })
}

/// The own action, over the node's mix.
fn draw_own(
    alloc: Global,
    game: &Game,
    certificate: &Certificate,
    draw: &mut Draw,
    node: u32,
) -> Result<u32, AllocError>
    requires stands { CertificateStands game.now certificate.now }
    requires node { node < length certificate.now.nodes }
    ensures own { IfOk result (λ own. own ≡ own_drawn game.now certificate.now node draw.old) }
    ensures moved { OnOk result (draw.new ≡ after_draws 1 draw.old) }
{
    law_game(game);
    let weights = mix_weights(alloc, &certificate.nodes.node(node).mix)?;
    Ok(draw_place(draw, &weights) as u32)
}

/// The informed action, over the point's mix at the state, or without a point each as likely as another.
fn draw_informed(
    alloc: Global,
    game: &Game,
    certificate: &Certificate,
    draw: &mut Draw,
    at: &Standing,
) -> Result<u32, AllocError>
    requires stands { CertificateStands game.now certificate.now }
    requires at { CanStand game.now certificate.now at.now }
    ensures informed { IfOk result (λ informed.
        informed ≡ informed_drawn game.now certificate.now at.now.point at.now.state draw.old) }
    ensures moved { OnOk result (draw.new ≡ after_draws 1 draw.old) }
{
    law_game(game);
    match at.point {
        None => Ok(draw.below(u128::from(game.informed_actions())) as u32),
        Some(j) => draw_from_point(alloc, game, certificate, draw, j, at.state),
    }
}

/// The informed action, over a point's mix at a state.
fn draw_from_point(
    alloc: Global,
    game: &Game,
    certificate: &Certificate,
    draw: &mut Draw,
    j: u32,
    s: u32,
) -> Result<u32, AllocError>
    requires stands { CertificateStands game.now certificate.now }
    requires point { j < length certificate.now.points }
    requires state { s < game.now.shape.states }
    ensures informed { IfOk result (λ informed.
        informed ≡ informed_drawn game.now certificate.now (Some j) s draw.old) }
    ensures moved { OnOk result (draw.new ≡ after_draws 1 draw.old) }
{
    law_game(game);
    let weights = state_weights(alloc, &certificate.points.point(j).mixes, s)?;
    Ok(draw_place(draw, &weights) as u32)
}

/// The landing, over a row in its order.
fn draw_landing(alloc: Global, draw: &mut Draw, row: &[Landing]) -> Result<Landing, AllocError>
    requires some { 1 ≤ sum (row_weights row.now) }
    requires most { sum (row_weights row.now) ≤ 2 ^ 30 }
    ensures landing { IfOk result (λ landing. landing ≡ landing_drawn row.now draw.old) }
    ensures moved { OnOk result (draw.new ≡ after_draws 1 draw.old) }
{
    let weights = landing_weights(alloc, row)?;
    Ok(row[draw_place(draw, &weights)])
}

/// The next node, over the node's steps after the own action and the observation.
fn draw_node(
    alloc: Global,
    game: &Game,
    certificate: &Certificate,
    draw: &mut Draw,
    at: &Standing,
    played: &Played,
) -> Result<u32, AllocError>
    requires stands { CertificateStands game.now certificate.now }
    requires at { CanStand game.now certificate.now at.now }
    requires played { CanPlay game.now certificate.now at.now played.now }
    ensures node { IfOk result (λ node. node ≡ node_drawn certificate.now at.now.node played.now draw.old) }
    ensures moved { OnOk result (draw.new ≡ after_draws 1 draw.old) }
{
    let steps = branches_after(
        &certificate.nodes.node(at.node).next,
        played.own,
        played.seen,
    );
    let weights = branch_weights(alloc, steps)?;
    Ok(steps[draw_place(draw, &weights)].k)
}

/// The next point, for a rival who plays by points.
fn draw_point(
    alloc: Global,
    game: &Game,
    certificate: &Certificate,
    draw: &mut Draw,
    at: &Standing,
    played: &Played,
) -> Result<Option<u32>, AllocError>
    requires stands { CertificateStands game.now certificate.now }
    requires at { CanStand game.now certificate.now at.now }
    requires played { CanPlay game.now certificate.now at.now played.now }
    ensures point { IfOk result (λ point. point ≡ point_drawn certificate.now at.now.point played.now draw.old) }
    ensures moved { OnOk result
        (draw.new ≡ after_draws (share_draws certificate.now at.now.point played.now) draw.old) }
{
    match at.point {
        None => Ok(None),
        Some(j) => Ok(Some(draw_share(alloc, game, certificate, draw, j, played)?)),
    }
}

/// The next point, over what the shares after the own action and the observation bring to the next state; where that
/// is nothing, the point of the next state.
fn draw_share(
    alloc: Global,
    game: &Game,
    certificate: &Certificate,
    draw: &mut Draw,
    j: u32,
    played: &Played,
) -> Result<u32, AllocError>
    requires stands { CertificateStands game.now certificate.now }
    requires point { j < length certificate.now.points }
    requires own { played.now.own < game.now.shape.own_actions }
    requires seen { played.now.seen < game.now.shape.observations }
    requires to { played.now.to < game.now.shape.states }
    ensures point { IfOk result (λ point. Some point ≡ point_drawn certificate.now (Some j) played.now draw.old) }
    ensures moved { OnOk result (draw.new ≡ after_draws (share_draws certificate.now (Some j) played.now) draw.old) }
{
    let shares = branches_after(&certificate.points.point(j).splits, played.own, played.seen);
    let weights = share_weights(alloc, game, &certificate.points, shares, played.to)?;
    if sum_of(&weights) == 0 {
        return Ok(played.to);
    }
    Ok(shares[draw_place(draw, &weights)].k)
}

/// The branches after an own action and an observation.
fn branches_after(branches: &[Branch], a: u32, o: u32) -> &[Branch]
    requires { AreRising (map branch_of branches.now) }
    ensures { result.now ≡ filter (IsAfter a o) branches.now }
{
    let start = branches.partition_point(|branch| branch.a < a || (branch.a == a && branch.o < o));
    let rest = &branches[start..];
    let count = rest.partition_point(|branch| branch.a == a && branch.o == o);
    &rest[..count]
}

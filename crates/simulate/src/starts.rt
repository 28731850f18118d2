//! Where a play begins.

ghost use Rattle.controller.specs.Certificates.{CertificateStands};
ghost use Rattle.hsvi_draw.specs.Draws.{after_draws};
ghost use Rattle.simulate.specs.Plays.{draws_over, from_weights, member_drawn, state_drawn};
ghost use Rattle.std.specs.List.{sum};
ghost use Rattle.std.specs.Prelude.{IfOk, OnOk, length, ◌^◌, ◌<◌, ◌≡◌, ◌≤◌};

use crate::choices::draw_place;
use crate::weights::{first_weights, start_weights};
use controller::Certificate;
use game_model::{Game, law_game};
use hsvi_draw::Draw;
use std::alloc::{AllocError, Global};

/// The first state, over the first belief.
pub fn draw_state(alloc: Global, game: &Game, draw: &mut Draw) -> Result<u32, AllocError>
    ensures state { IfOk result (λ state. state ≡ state_drawn game.now draw.old) }
    ensures moved { OnOk result (draw.new ≡ after_draws 1 draw.old) }
{
    law_game(game);
    let weights = first_weights(alloc, game)?;
    Ok(draw_place(draw, &weights) as u32)
}

/// The start node, over the weights of the start nodes.
pub fn draw_start_node(
    alloc: Global,
    game: &Game,
    certificate: &Certificate,
    draw: &mut Draw,
) -> Result<u32, AllocError>
    requires { CertificateStands game.now certificate.now }
    ensures node { IfOk result (λ node.
        node ≡ member_drawn certificate.now.start_nodes (from_weights certificate.now) draw.old) }
    ensures moved { OnOk result (draw.new ≡ after_draws (draws_over certificate.now.start_nodes) draw.old) }
{
    let weights = start_weights(alloc, &certificate.start_nodes)?;
    Ok(draw_member(draw, &certificate.start_nodes, &weights))
}

/// The member that is drawn over starts by weights; from one start alone it is that one, and nothing is drawn.
pub fn draw_member(draw: &mut Draw, starts: &[(u32, i128)], weights: &[u128]) -> u32
    requires same { length weights.now ≡ length starts.now }
    requires some { 1 ≤ sum weights.now }
    requires most { sum weights.now < 2 ^ 128 }
    ensures member { result ≡ member_drawn starts.now weights.now draw.old }
    ensures moved { draw.new ≡ after_draws (draws_over starts.now) draw.old }
{
    if starts.len() == 1 {
        return starts[0].0;
    }
    starts[draw_place(draw, weights)].0
}

//! Plays: the stages that a seed gives.

ghost use Rattle.controller.specs.Certificates.{CertificateStands};
ghost use Rattle.hsvi_draw.specs.Draws.{after_draws, seeded};
ghost use Rattle.simulate.specs.Plays.{CanStand, begin_draws, begun, draws_over};
ghost use Rattle.simulate.specs.Plays.{from_weights, member_drawn, over_weights, point_draws};
ghost use Rattle.simulate.specs.Plays.{simulated, start_point, state_drawn, steps_from};
ghost use Rattle.std.specs.List.{sum};
ghost use Rattle.game_model.specs.Game.{first_at, numbers};
ghost use Rattle.simulate.specs.Lengths.{IsShortPlay};
ghost use Rattle.simulate.specs.Plays.{gain_of};
ghost use Rattle.std.specs.Prelude.{IfOk, OnOk, length, pos, ◌^◌, ◌<◌, ◌≡◌, ◌≤◌};

use crate::gains::gain_of;
use crate::parts::{PlayLog, Played, Rival, Standing};
use crate::stages::{draw_stage, move_on};
use crate::starts::{draw_member, draw_start_node, draw_state};
use crate::weights::over_weights;
use controller::Certificate;
use game_model::{Game, law_game};
use hsvi_draw::Draw;
use std::alloc::{AllocError, Global};

/// The play that a seed gives, of so many stages against a rival: the draws of `Draw::new(seed)` decide everything.
///
/// The first draw is the first state, over the first belief; then come the start node and, for `Rival::Points`, the
/// start point, each where there are several. Each stage draws the own action, the informed action, the landing, the
/// next node and, for `Rival::Points`, the next point. The gain is over the denominator of the discount to the number
/// of stages. `longest` says how many stages there may be.
pub fn play(
    alloc: Global,
    game: &Game,
    certificate: &Certificate,
    seed: u64,
    stages: u32,
    against: Rival,
) -> Result<PlayLog, AllocError>
    requires stands { CertificateStands game.now certificate.now }
    requires short { IsShortPlay game.now stages }
    ensures steps { IfOk result (λ log. log.steps.items ≡ simulated game.now certificate.now seed stages against) }
    ensures gain { IfOk result (λ log.
        log.gain.num ≡ gain_of (numbers game.now) (simulated game.now certificate.now seed stages against)) }
    ensures scale { IfOk result (λ log. log.gain.den ≡ pos ((numbers game.now).discount_under ^ stages)) }
{
    law_game(game);
    let steps = play_seed(alloc, game, certificate, seed, stages, against)?;
    let gain = gain_of(game, &steps);
    Ok(PlayLog { steps, gain })
}

/// The stages of the play that a seed gives.
fn play_seed(
    alloc: Global,
    game: &Game,
    certificate: &Certificate,
    seed: u64,
    stages: u32,
    against: Rival,
) -> Result<Vec<Played>, AllocError>
    requires { CertificateStands game.now certificate.now }
    ensures { IfOk result (λ steps. steps.items ≡ simulated game.now certificate.now seed stages against) }
{
    let mut draw = Draw::new(seed);
    let at = begin(alloc, game, certificate, &mut draw, against)?;
    play_stages(alloc, game, certificate, &mut draw, at, stages)
}

/// So many stages, one after another.
fn play_stages(
    alloc: Global,
    game: &Game,
    certificate: &Certificate,
    draw: &mut Draw,
    first: Standing,
    stages: u32,
) -> Result<Vec<Played>, AllocError>
    requires stands { CertificateStands game.now certificate.now }
    requires first { CanStand game.now certificate.now first }
    ensures { IfOk result (λ steps. steps.items ≡ steps_from game.now certificate.now stages first draw.old) }
{
    law_game(game);
    let mut at = first;
    let mut steps = Vec::new(alloc);
    for _ in 0..stages {
        let played = draw_stage(alloc, game, certificate, draw, &at)?;
        at = move_on(alloc, game, certificate, draw, &at, &played)?;
        steps.push(played)?;
    }
    Ok(steps)
}

/// Where the play begins: a state, a node and, for a rival who plays by points, a point.
fn begin(
    alloc: Global,
    game: &Game,
    certificate: &Certificate,
    draw: &mut Draw,
    against: Rival,
) -> Result<Standing, AllocError>
    requires { CertificateStands game.now certificate.now }
    ensures begun { IfOk result (λ at. at ≡ begun game.now certificate.now against draw.old) }
    ensures moved { OnOk result (draw.new ≡ after_draws (begin_draws certificate.now against) draw.old) }
    ensures stands { IfOk result (CanStand game.now certificate.now) }
{
    law_game(game);
    let state = draw_state(alloc, game, draw)?;
    let node = draw_start_node(alloc, game, certificate, draw)?;
    let point = draw_start_point(alloc, game, certificate, draw, state, against)?;
    Ok(Standing { state, node, point })
}

/// The start point, for a rival who plays by points: over what the start points bring to the first state.
fn draw_start_point(
    alloc: Global,
    game: &Game,
    certificate: &Certificate,
    draw: &mut Draw,
    state: u32,
    against: Rival,
) -> Result<Option<u32>, AllocError>
    requires stands { CertificateStands game.now certificate.now }
    requires state { state < game.now.shape.states }
    requires weight { 1 ≤ first_at game.now state }
    ensures point { IfOk result (λ point. point ≡ start_point certificate.now against state draw.old) }
    ensures moved { OnOk result (draw.new ≡ after_draws (point_draws certificate.now against) draw.old) }
{
    law_game(game);
    match against {
        Rival::Uniform => Ok(None),
        Rival::Points => {
            let starts = &certificate.start_points;
            let weights = over_weights(alloc, game, &certificate.points, starts, state)?;
            Ok(Some(draw_member(draw, starts, &weights)))
        }
    }
}

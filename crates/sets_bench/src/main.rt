//! Asks full sets of drawn nodes and points for drawn masses, and prints nanoseconds a call. Without the word
//! `measure` it does nothing.
#![tactic(auto)]

mod drawn;
mod limits;
mod measures;

use drawn::{STATES, draw_certificate, draw_game, draw_masses, draw_wanted};
use game_model::Game;
use limits::{are_full, are_masses, are_wanted};
use measures::{Call, Round, measure};
use std::{env, io};

/// How many masses a round has.
const MASSES: u32 = 256;

/// Measures the calls of sets that are drawn for a game, with masses in all states and in three.
fn measure_sets(rt: HostRuntime, game: &Game, seed: &mut u64) -> io::Result<()> {
    let span = game.span();
    if game.states() != STATES || span < 0 || span >= 1 << 30 {
        return println!(rt; "the game is of another size");
    }
    let certificate = draw_certificate(rt.alloc(), game, span as u32, seed)?;
    let wanted = draw_wanted(seed);
    if !are_full(game, &certificate) || !are_wanted(&certificate.points, STATES, &wanted) {
        return println!(rt; "the sets are not full");
    }
    for held in [STATES, 3] {
        let masses = draw_masses(rt.alloc(), MASSES, held, seed)?;
        if !are_masses(game, &masses) {
            return println!(rt; "the masses are too great");
        }
        for call in [Call::Worth, Call::Sawtooth, Call::SplitInto, Call::Fits] {
            measure(
                rt,
                Round { call, held },
                game,
                &certificate,
                &wanted,
                &masses,
            )?;
        }
    }
    Ok(())
}

fn main(rt: HostRuntime) -> io::Result<()> {
    let Some(word) = env::args(&rt)?.nth(1) else {
        return Ok(());
    };
    if word.as_str() != "measure" {
        return Ok(());
    }
    let mut seed: u64 = 12345;
    let Ok(game) = draw_game(rt.alloc(), &mut seed) else {
        return println!(rt; "the game is refused");
    };
    measure_sets(rt, &game, &mut seed)
}

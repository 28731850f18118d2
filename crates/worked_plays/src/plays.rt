//! Plays of certificates by seeds, against both rivals.

use crate::texts::{
    GUESS_THE_STATE, MATCHING_PENNIES, MATCHING_PENNIES_CERTIFICATE, THREE_HALVED,
    THREE_HALVED_CERTIFICATE, TWO_STARTS,
};
use cert_check::{Verdict, check};
use simulate::{PlayLog, Played, Rival, longest, play};
use std::alloc::Global;

/// More bytes than any text here has.
const MANY: usize = 4096;

/// The play of a seed, where both texts are read, the certificate stands and there may be so many stages.
fn played(
    alloc: Global,
    game: &[u8],
    certificate: &[u8],
    seed: u64,
    stages: u32,
    against: Rival,
) -> Option<PlayLog> {
    if game.len() > MANY || certificate.len() > MANY {
        return None;
    }
    let Ok(game) = game_text::read_alone(alloc, game) else {
        return None;
    };
    let Ok(certificate) = cert_text::read(alloc, &game, certificate) else {
        return None;
    };
    if stages > longest(&game) {
        return None;
    }
    match check(&game, &certificate) {
        Verdict::Yes => play(alloc, &game, &certificate, seed, stages, against).ok(),
        Verdict::No(_) => None,
    }
}

/// A stage that sees 0: state, own action, informed action and next state.
fn stage(state: u32, own: u32, informed: u32, to: u32) -> Played {
    Played {
        state,
        own,
        informed,
        seen: 0,
        to,
    }
}

#[test]
fn three_stages_of_three(rt: HostRuntime) {
    for against in [Rival::Uniform, Rival::Points] {
        let Some(log) = played(
            rt.alloc(),
            THREE_HALVED,
            THREE_HALVED_CERTIFICATE,
            0,
            3,
            against,
        ) else {
            panic!(rt; "there is no play");
        };
        assert_eq!(rt; log.steps.as_slice(), [stage(0, 0, 0, 0); 3].as_slice());
        assert_eq!(rt; (log.gain.num, log.gain.den), (42, 8));
    }
}

#[test]
fn pennies_by_a_seed(rt: HostRuntime) {
    let own = [1, 0, 0, 0, 0, 0];
    let informed = [
        (Rival::Uniform, [0, 0, 0, 1, 0, 1]),
        (Rival::Points, [0, 0, 0, 0, 0, 0]),
    ];
    for (against, informed) in informed {
        let Some(log) = played(
            rt.alloc(),
            MATCHING_PENNIES,
            MATCHING_PENNIES_CERTIFICATE,
            1,
            6,
            against,
        ) else {
            panic!(rt; "there is no play");
        };
        assert_eq!(rt; log.steps.len(), 6);
        for i in 0..6 {
            assert_eq!(rt;
                log.steps.get(i).copied(),
                Some(stage(0, own[i], informed[i], 0))
            );
        }
        assert_eq!(rt; (log.gain.num, log.gain.den), (-1, 1));
    }
}

#[test]
fn starts_that_are_drawn(rt: HostRuntime) {
    for (seed, own, gain) in [(0, 0, 0), (1, 1, 1), (7, 1, 1)] {
        for against in [Rival::Uniform, Rival::Points] {
            let Some(log) = played(rt.alloc(), GUESS_THE_STATE, TWO_STARTS, seed, 4, against) else {
                panic!(rt; "there is no play");
            };
            assert_eq!(rt; log.steps.as_slice(), [stage(1, own, 0, 1); 4].as_slice());
            assert_eq!(rt; (log.gain.num, log.gain.den), (gain, 1));
        }
    }
}

//! Worked runs of `close` and of `simulate`, over a game and a certificate.
use crate::Status;
use crate::solve_tests::{GUESS_CERTIFICATE, THREE_SOLVED};
use crate::start_tests::GUESS_THE_STATE;
use crate::tests::{
    PENNIES, PENNIES_CERTIFICATE, THREE_CERTIFICATE, THREE_HALVED, answered, changed, joined, over,
    text_of,
};
use crate::words::{Command, Gap, parse};
use std::test::Fail;

/// The first three stages of a play of three halved.
const THREE_STAGES: &str = "stage 0 state 0 own 0 informed 0 seen 0 to 0\n\
    stage 1 state 0 own 0 informed 0 seen 0 to 0\nstage 2 state 0 own 0 informed 0 seen 0 to 0\ngain 42/8\n";

#[test]
fn a_closed_certificate_is_given_back(rt: HostRuntime) -> Result<(), Fail> {
    let alloc = rt.alloc();
    let certificate = text_of(alloc, &PENNIES_CERTIFICATE)?;
    let both = joined(alloc, &text_of(alloc, &PENNIES)?, &certificate)?;
    let input = both.as_bytes();
    assert!(rt; answered(alloc, &["close"], input, &certificate)? == (Status::Done, true));
    assert!(rt;
        answered(alloc, &["close", "--rounds=0"], input, &certificate)? == (Status::Done, true)
    );
    Ok(())
}

#[test]
fn bounds_within_the_gap_are_kept(rt: HostRuntime) -> Result<(), Fail> {
    let alloc = rt.alloc();
    let guess = text_of(alloc, &GUESS_CERTIFICATE)?;
    let both = joined(alloc, &text_of(alloc, &GUESS_THE_STATE)?, &guess)?;
    assert!(rt; answered(alloc, &["close"], both.as_bytes(), &guess)? == (Status::Done, true));
    let game = text_of(alloc, &THREE_HALVED)?;
    let solve = ["solve", "--gap=0/1", "--trials=5"].as_slice();
    let (status, open) = over(alloc, solve, game.as_bytes(), (4096, &[]), (4096, &[]))?;
    assert!(rt; status == Status::Open);
    let mut input = Vec::from_slice(alloc, game.as_bytes())?;
    input.extend_from_slice(&open)?;
    let closed = text_of(alloc, &THREE_SOLVED)?;
    let command = ["close", "--gap=1/65536"].as_slice();
    assert!(rt; answered(alloc, command, &input, &closed)? == (Status::Done, true));
    Ok(())
}

#[test]
fn the_seeds_of_pennies_close(rt: HostRuntime) -> Result<(), Fail> {
    let alloc = rt.alloc();
    let game = text_of(alloc, &PENNIES)?;
    let solve = ["solve", "--trials=0"].as_slice();
    let (status, seeds) = over(alloc, solve, game.as_bytes(), (4096, &[]), (4096, &[]))?;
    assert!(rt; status == Status::Open);
    let mut input = Vec::from_slice(alloc, game.as_bytes())?;
    input.extend_from_slice(&seeds)?;
    let (status, closed) = over(alloc, &["close"], &input, (4096, &[]), (4096, &[]))?;
    assert!(rt; status == Status::Done);
    assert!(rt;
        closed
            .as_slice()
            .starts_with(b"certificate 1\noutcome closed\n")
    );
    Ok(())
}

#[test]
fn what_does_not_stand_is_not_made_better_or_played(rt: HostRuntime) -> Result<(), Fail> {
    let alloc = rt.alloc();
    let game = text_of(alloc, &THREE_HALVED)?;
    let fails = changed(alloc, &THREE_CERTIFICATE, 2, "outcome trials")?;
    let both = joined(alloc, &game, &fails)?;
    let input = both.as_bytes();
    for command in [["close"].as_slice(), &["simulate"], &["check"]] {
        assert!(rt; answered(alloc, command, input, "no outcome\n")? == (Status::No, true));
    }
    let other = joined(alloc, &text_of(alloc, &GUESS_THE_STATE)?, "certificate 1\n")?;
    let refused = "certificate refused: line 2 kind 10\n";
    for command in [["close"].as_slice(), &["simulate"]] {
        assert!(rt;
            answered(alloc, command, other.as_bytes(), refused)? == (Status::CertRefused, true)
        );
    }
    Ok(())
}

#[test]
fn three_stages_are_played(rt: HostRuntime) -> Result<(), Fail> {
    let alloc = rt.alloc();
    let both = joined(
        alloc,
        &text_of(alloc, &THREE_HALVED)?,
        &text_of(alloc, &THREE_CERTIFICATE)?,
    )?;
    let input = both.as_bytes();
    for command in [
        ["simulate", "--stages", "3"].as_slice(),
        &["simulate", "--stages=03", "--rival=points", "--seed", "7"],
    ] {
        assert!(rt; answered(alloc, command, input, THREE_STAGES)? == (Status::Done, true));
    }
    Ok(())
}

#[test]
fn options_of_close_have_limits(rt: HostRuntime) -> Result<(), Fail> {
    let alloc = rt.alloc();
    let gap = Some(Gap { num: 1, den: 2 });
    let named = [
        (["close"].as_slice(), 100, None),
        (&["close", "--rounds=10000"], 10000, None),
        (&["close", "--gap", "1/2", "--rounds=0"], 0, gap),
    ];
    for (command, rounds, gap) in named {
        let words = crate::tests::words(alloc, command)?;
        assert!(rt; parse(alloc, &words)? == Some(Command::Close { rounds, gap }));
    }
    for option in ["--rounds=10001", "--trials=5", "--gap=1/0", "--"] {
        let words = crate::tests::words(alloc, &["close", option])?;
        assert!(rt; parse(alloc, &words)? == None);
    }
    Ok(())
}

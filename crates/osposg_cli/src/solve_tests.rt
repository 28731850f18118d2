//! Worked runs of `solve`.
use crate::Status;
use crate::start_tests::GUESS_THE_STATE;
use crate::tests::{
    FIVE_EACH_TIME, PENNIES, PENNIES_CERTIFICATE, THREE_HALVED, answered, changed, joined, text_of,
};
use std::test::Fail;

/// What `solve` makes of five each time, without a trial.
pub const FIVE_CERTIFICATE: [&str; 18] = [
    "certificate 1",
    "outcome closed",
    "gap 1/100",
    "lower 327680/65536",
    "upper 327680/65536",
    "tail 327680/65536",
    "sizes 1 1",
    "start 0 0",
    "node 0",
    "vector 327680",
    "mix 65536",
    "next 0 0 0 65536",
    "point 0",
    "belief 1",
    "value 327680",
    "mix 0 65536",
    "split 0 0 0 65536",
    "end",
];

/// What `solve` makes of three halved with the tolerance 1/65536: its bounds are that far apart, and stay so.
pub const THREE_SOLVED: [&str; 18] = [
    "certificate 1",
    "outcome closed",
    "gap 1/65536",
    "lower 393215/65536",
    "upper 393216/65536",
    "tail 393216/65536",
    "sizes 1 1",
    "start 0 0",
    "node 0",
    "vector 393215",
    "mix 65536",
    "next 0 0 0 65536",
    "point 0",
    "belief 1",
    "value 393216",
    "mix 0 65536",
    "split 0 0 0 65536",
    "end",
];

/// What `check` writes of it.
const THREE_SOLVED_YES: &str =
    "yes\nlower 393215/65536 5.999984\nupper 393216/65536 6.000000\ntail 393216/65536 6.000000\n";

/// What `solve` makes of guess the state, without a trial.
pub const GUESS_CERTIFICATE: [&str; 36] = [
    "certificate 1",
    "outcome closed",
    "gap 1/100",
    "lower 65536/131072",
    "upper 65536/131072",
    "tail 65536/65536",
    "sizes 1 3",
    "start 0 2",
    "node 0",
    "vector 65536 0",
    "mix 65536 0",
    "next 0 0 0 65536",
    "point 0",
    "belief 1 0",
    "value 65536",
    "mix 0 65536",
    "mix 1 65536",
    "split 0 0 0 65536",
    "split 1 0 0 65536",
    "point 1",
    "belief 0 1",
    "value 65536",
    "mix 0 65536",
    "mix 1 65536",
    "split 0 0 1 65536",
    "split 1 0 1 65536",
    "point 2",
    "belief 1 1",
    "value 65536",
    "mix 0 65536",
    "mix 1 65536",
    "split 0 0 0 65536",
    "split 0 0 1 65536",
    "split 1 0 0 65536",
    "split 1 0 1 65536",
    "end",
];

#[test]
fn five_each_time_is_closed_without_a_trial(rt: HostRuntime) -> Result<(), Fail> {
    let alloc = rt.alloc();
    let game = text_of(alloc, &FIVE_EACH_TIME)?;
    let certificate = text_of(alloc, &FIVE_CERTIFICATE)?;
    assert!(rt;
        answered(alloc, &["solve"], game.as_bytes(), &certificate)? == (Status::Done, true)
    );
    assert!(rt;
        answered(
            alloc,
            &["solve", "--trials", "0"],
            game.as_bytes(),
            &certificate
        )? == (Status::Done, true)
    );
    Ok(())
}

#[test]
fn three_halved_is_closed_at_the_last_unit(rt: HostRuntime) -> Result<(), Fail> {
    let alloc = rt.alloc();
    let game = text_of(alloc, &THREE_HALVED)?;
    let certificate = text_of(alloc, &THREE_SOLVED)?;
    for command in [
        ["solve", "--gap", "1/65536"].as_slice(),
        &["solve", "--gap=01/065536"],
        &["solve", "--trials=0", "--gap", "1/65536"],
    ] {
        assert!(rt;
            answered(alloc, command, game.as_bytes(), &certificate)? == (Status::Done, true)
        );
    }
    let input = joined(alloc, &game, &certificate)?;
    assert!(rt;
        answered(alloc, &["check"], input.as_bytes(), THREE_SOLVED_YES)? == (Status::Done, true)
    );
    Ok(())
}

#[test]
fn three_halved_runs_out_of_trials(rt: HostRuntime) -> Result<(), Fail> {
    let alloc = rt.alloc();
    let game = text_of(alloc, &THREE_HALVED)?;
    let mut lines = THREE_SOLVED;
    lines[1] = "outcome trials";
    lines[2] = "gap 0/1";
    let certificate = text_of(alloc, &lines)?;
    assert!(rt;
        answered(
            alloc,
            &["solve", "--gap", "0/1", "--trials", "5"],
            game.as_bytes(),
            &certificate
        )? == (Status::Open, true)
    );
    let input = joined(alloc, &game, &certificate)?;
    assert!(rt;
        answered(alloc, &["check"], input.as_bytes(), THREE_SOLVED_YES)? == (Status::Done, true)
    );
    Ok(())
}

#[test]
fn matching_pennies_is_closed_by_one_trial(rt: HostRuntime) -> Result<(), Fail> {
    let alloc = rt.alloc();
    let game = text_of(alloc, &PENNIES)?;
    let certificate = text_of(alloc, &PENNIES_CERTIFICATE)?;
    assert!(rt;
        answered(alloc, &["solve"], game.as_bytes(), &certificate)? == (Status::Done, true)
    );
    assert!(rt;
        answered(
            alloc,
            &["solve", "--trials=1"],
            game.as_bytes(),
            &certificate
        )? == (Status::Done, true)
    );
    Ok(())
}

#[test]
fn guess_the_state_is_closed_without_a_trial(rt: HostRuntime) -> Result<(), Fail> {
    let alloc = rt.alloc();
    let certificate = text_of(alloc, &GUESS_CERTIFICATE)?;
    let game = text_of(alloc, &GUESS_THE_STATE)?;
    assert!(rt;
        answered(alloc, &["solve"], game.as_bytes(), &certificate)? == (Status::Done, true)
    );
    let doubled = changed(alloc, &GUESS_THE_STATE, 5, "first 2 2")?;
    assert!(rt;
        answered(alloc, &["solve"], doubled.as_bytes(), &certificate)? == (Status::Done, true)
    );
    Ok(())
}

#[test]
fn a_game_without_its_end_line_or_with_two_is_refused(rt: HostRuntime) -> Result<(), Fail> {
    let alloc = rt.alloc();
    let cut = text_of(alloc, &FIVE_EACH_TIME[..7])?;
    let whole = text_of(alloc, &FIVE_EACH_TIME)?;
    let twice = joined(alloc, &whole, &whole)?;
    for (text, refusal) in [
        (cut, "game refused: line 8 kind 9\n"),
        (twice, "game refused: line 9 kind 10\n"),
    ] {
        assert!(rt;
            answered(alloc, &["solve"], text.as_bytes(), refusal)? == (Status::GameRefused, true)
        );
    }
    Ok(())
}

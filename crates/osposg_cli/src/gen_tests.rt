//! Worked runs of `gen`, and the words that it takes.
use crate::Status;
use crate::tests::{answered, over, text_of, words};
use crate::words::{Command, Gap, parse};
use std::alloc::Global;
use std::test::Fail;

/// The game of the number 1 and the size 2.
pub const SMALL: [&str; 12] = [
    "osposg 1",
    "size 2 1 1 1",
    "total 100",
    "discount 19 20",
    "first 1 1",
    "step 0 0 0 -7",
    "out 0 0 75",
    "out 0 1 25",
    "step 1 0 0 -6",
    "out 0 0 75",
    "out 0 1 25",
    "end",
];

/// What solving it comes to.
const SMALL_SOLVED: &str = "game 1 size 2\noutcome closed\nlower -17661990/131072 -134.750290\n\
    upper -17661864/131072 -134.749328\ntail 9175040/65536 140.000000\nsizes 1 3\n";

/// The status of a run over this input, and what it writes.
fn written(alloc: Global, command: &[&str], input: &[u8]) -> Result<(Status, Vec<u8>), Fail> {
    over(alloc, command, input, (4096, &[]), (4096, &[]))
}

#[test]
fn gen_writes_its_game_whatever_the_input(rt: HostRuntime) -> Result<(), Fail> {
    let alloc = rt.alloc();
    let small = text_of(alloc, &SMALL)?;
    for command in [
        ["gen", "--number", "1", "--size", "2"].as_slice(),
        &["gen", "--size=02", "--number=0001"],
    ] {
        assert!(rt; answered(alloc, command, b"", &small)? == (Status::Done, true));
        assert!(rt; answered(alloc, command, b"no game", &small)? == (Status::Done, true));
    }
    Ok(())
}

#[test]
fn gen_reads_nothing(rt: HostRuntime) -> Result<(), Fail> {
    let alloc = rt.alloc();
    let small = text_of(alloc, &SMALL)?;
    let game = ["gen", "--number=1", "--size=2"].as_slice();
    let summary = ["gen", "--trials=5", "--number=1", "--size=2", "--gap=1/100"].as_slice();
    for (command, whole) in [(game, small.as_str()), (summary, SMALL_SOLVED)] {
        let (status, text) = over(alloc, command, b"", (1, &[0]), (1024, &[]))?;
        assert!(rt; status == Status::Done);
        assert!(rt; text.as_slice() == whole.as_bytes());
    }
    Ok(())
}

/// Whether the summary of a game that is still open has the bounds of a yes of `check`.
fn has_bounds(summary: &[u8], yes: &[u8]) -> bool {
    match (
        summary.strip_prefix(b"game 1 size 4\noutcome trials\n"),
        yes.strip_prefix(b"yes\n"),
    ) {
        (Some(rest), Some(bounds)) => rest.starts_with(bounds),
        _ => false,
    }
}

#[test]
fn generated_games_are_shown_solved_and_checked(rt: HostRuntime) -> Result<(), Fail> {
    let alloc = rt.alloc();
    let (status, six) = written(alloc, &["gen", "--number", "1", "--size", "6"], b"")?;
    assert!(rt; status == Status::Done);
    assert!(rt; six.as_slice().starts_with(b"osposg 1\nsize 6 3 3 2\n"));
    let (status, four) = written(alloc, &["gen", "--number", "1", "--size", "4"], b"")?;
    assert!(rt; status == Status::Done);
    assert!(rt; four.as_slice().starts_with(b"osposg 1\nsize 4 2 2 2\n"));
    let (status, shown) = written(alloc, &["show"], &four)?;
    assert!(rt; status == Status::Done);
    assert!(rt; shown == four);
    let (solved, certificate) = written(alloc, &["solve", "--trials", "1"], &four)?;
    let closed = certificate
        .as_slice()
        .starts_with(b"certificate 1\noutcome closed\n");
    assert!(rt; solved == if closed { Status::Done } else { Status::Open });
    let mut input = four;
    input.extend_from_slice(&certificate)?;
    let (status, yes) = written(alloc, &["check"], &input)?;
    assert!(rt; status == Status::Done);
    assert!(rt; yes.as_slice().starts_with(b"yes\n"));
    let (summed, summary) = written(alloc, &["gen", "--number=1", "--size=4", "--trials=1"], b"")?;
    assert!(rt; summed == solved);
    assert!(rt; has_bounds(&summary, &yes));
    Ok(())
}

#[test]
fn values_of_gen_reach_their_limits(rt: HostRuntime) -> Result<(), Fail> {
    let alloc = rt.alloc();
    let named = [
        (["--number=0", "--size=1"], 0, 1),
        (["--size=16", "--number=18446744073709551615"], u64::MAX, 16),
    ];
    for ([first, second], number, size) in named {
        let words = words(alloc, &["gen", first, second])?;
        assert!(rt; parse(alloc, &words)? == Some(Command::Gen { number, size }));
    }
    for (words_of, trials, (num, den)) in [
        (
            ["gen", "--number=1", "--size=2", "--trials=0"].as_slice(),
            0,
            (1, 100),
        ),
        (
            &[
                "gen", "--gap", "1/4", "--trials", "10000", "--size", "2", "--number", "1",
            ],
            10000,
            (1, 4),
        ),
    ] {
        let words = words(alloc, words_of)?;
        let gap = Gap { num, den };
        let (number, size) = (1, 2);
        assert!(rt;
            parse(alloc, &words)?
                == Some(Command::Summary {
                    number,
                    size,
                    trials,
                    gap
                })
        );
    }
    Ok(())
}

#[test]
fn other_words_of_gen_are_refused(rt: HostRuntime) -> Result<(), Fail> {
    let alloc = rt.alloc();
    for command in [
        ["gen"].as_slice(),
        &["gen", "--number", "1"],
        &["gen", "--size", "2"],
        &["gen", "--number=1", "--size"],
        &["gen", "--number=1", "--size=0"],
        &["gen", "--number=1", "--size=17"],
        &["gen", "--number=1", "--size=+2"],
        &["gen", "--number=18446744073709551616", "--size=2"],
        &["gen", "--number=-1", "--size=2"],
        &["gen", "--number=", "--size=2"],
        &["gen", "--number=1", "--number=1", "--size=2"],
        &["gen", "--number=1", "--size=2", "--size=2"],
        &["gen", "--number=1", "--size=2", "--trials=10001"],
        &["gen", "--number=1", "--size=2", "--trials"],
        &["gen", "--size=2", "--trials=1"],
        &["gen", "--number=1", "--size=2", "--trials=1", "--gap=1/0"],
        &["gen", "--number=1", "--size=2", "--trials=1", "--trials=1"],
        &["gen", "--number=1", "--size=2", "--gap=1/2"],
        &["gen", "--number=1", "--size=2", "--seed=1"],
        &["gen", "--number=1", "--size=2", "show"],
        &["show", "--number=1", "--size=2"],
        &["solve", "--number=1", "--size=2"],
    ] {
        let words = words(alloc, command)?;
        assert!(rt; parse(alloc, &words)? == None);
    }
    Ok(())
}

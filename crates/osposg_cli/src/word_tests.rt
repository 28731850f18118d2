//! Words that name `solve`, with the values of its options, and words that name no command.
use crate::tests::words;
use crate::words::{Command, Gap, parse};
use std::test::Fail;

#[test]
fn options_of_solve_have_two_spellings_and_any_order(rt: HostRuntime) -> Result<(), Fail> {
    let alloc = rt.alloc();
    let named = [
        (["solve"].as_slice(), 100, (1, 100)),
        (&["solve", "--trials", "5"], 5, (1, 100)),
        (&["solve", "--trials=5"], 5, (1, 100)),
        (&["solve", "--gap", "3/4"], 100, (3, 4)),
        (&["solve", "--gap=3/4"], 100, (3, 4)),
        (&["solve", "--gap=3/4", "--trials", "5"], 5, (3, 4)),
        (&["solve", "--trials=5", "--gap", "3/4"], 5, (3, 4)),
    ];
    for (command, trials, (num, den)) in named {
        let gap = Gap { num, den };
        let words = words(alloc, command)?;
        assert!(rt; parse(alloc, &words)? == Some(Command::Solve { trials, gap }));
    }
    Ok(())
}

#[test]
fn values_of_solve_reach_their_limits(rt: HostRuntime) -> Result<(), Fail> {
    let alloc = rt.alloc();
    let named = [
        (["--trials=0", "--gap=0/1"], 0, (0, 1)),
        (
            ["--trials=10000", "--gap=1099511627776/1048576"],
            10000,
            (1 << 40, 1 << 20),
        ),
        (["--trials=0007", "--gap=02/0004"], 7, (2, 4)),
        (
            [
                "--trials=000000000000000000000000000012",
                "--gap=000000000000000000000000000001/000000000000000000000000000002",
            ],
            12,
            (1, 2),
        ),
    ];
    for ([first, second], trials, (num, den)) in named {
        let gap = Gap { num, den };
        let words = words(alloc, &["solve", first, second])?;
        assert!(rt; parse(alloc, &words)? == Some(Command::Solve { trials, gap }));
    }
    Ok(())
}

#[test]
fn values_beyond_their_limits_or_out_of_form_are_refused(rt: HostRuntime) -> Result<(), Fail> {
    let alloc = rt.alloc();
    for option in [
        "--trials=10001",
        "--trials=",
        "--trials=+5",
        "--trials=-5",
        "--trials= 5",
        "--trials=5x",
        "--trials=5=5",
        "--trials=0000000000000000000000000000012",
        "--trials=340282366920938463463374607431768211457",
        "--gap=1099511627777/1",
        "--gap=1/1048577",
        "--gap=1/0",
        "--gap=1",
        "--gap=/1",
        "--gap=1/",
        "--gap=/",
        "--gap=1/2/3",
        "--gap=+1/2",
        "--gap=1/-2",
        "--gap=1 / 2",
        "--gap=0000000000000000000000000000001/2",
    ] {
        let words = words(alloc, &["solve", option])?;
        assert!(rt; parse(alloc, &words)? == None, "{option}");
    }
    Ok(())
}

#[test]
fn other_options_of_solve_are_refused(rt: HostRuntime) -> Result<(), Fail> {
    let alloc = rt.alloc();
    for command in [
        ["solve", "--"].as_slice(),
        &["solve", "--", "5"],
        &["solve", "--trials"],
        &["solve", "--gap"],
        &["solve", "--trials", "5", "--trials", "5"],
        &["solve", "--trials=5", "--trials", "6"],
        &["solve", "--gap=1/2", "--trials=5", "--gap=1/2"],
        &["solve", "--trials", "--gap=1/2"],
        &["solve", "--seed", "1"],
        &["solve", "--trial", "5"],
        &["solve", "--Trials", "5"],
        &["solve", "-trials", "5"],
        &["solve", "trials=5"],
        &["solve", "--trials 5"],
        &["solve", "--help"],
        &["solve", "5"],
        &["solve", "solve"],
        &["solve", ""],
    ] {
        let words = words(alloc, command)?;
        assert!(rt; parse(alloc, &words)? == None);
    }
    Ok(())
}

#[test]
fn other_commands_take_no_options(rt: HostRuntime) -> Result<(), Fail> {
    let alloc = rt.alloc();
    let named = [
        ("floor", Command::Floor),
        ("check", Command::Check),
        ("show", Command::Show),
    ];
    for (word, command) in named {
        assert!(rt; parse(alloc, &words(alloc, &[word])?)? == Some(command));
        assert!(rt; parse(alloc, &words(alloc, &[word, "--trials=5"])?)? == None);
        assert!(rt; parse(alloc, &words(alloc, &[word, "--gap", "1/2"])?)? == None);
        assert!(rt; parse(alloc, &words(alloc, &[word, word])?)? == None);
    }
    assert!(rt; parse(alloc, &words(alloc, &[])?)? == None);
    assert!(rt; parse(alloc, &words(alloc, &["Solve"])?)? == None);
    assert!(rt; parse(alloc, &words(alloc, &["--trials=5", "solve"])?)? == None);
    Ok(())
}

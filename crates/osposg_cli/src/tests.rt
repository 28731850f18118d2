//! Worked runs of the whole program, over sources and sinks in memory.
use crate::{Status, run};
use hsvi_io::{MemSink, MemSource, SureSink, SureSource};
use std::alloc::Global;
use std::test::Fail;

/// One state, a reward of 5 each time, no future.
pub const FIVE_EACH_TIME: [&str; 8] = [
    "osposg 1",
    "size 1 1 1 1",
    "total 1",
    "discount 0 1",
    "first 1",
    "step 0 0 0 5",
    "out 0 0 1",
    "end",
];

/// One state, a reward of 3 each stage, discount 1/2.
pub const THREE_HALVED: [&str; 8] = [
    "osposg 1",
    "size 1 1 1 1",
    "total 1",
    "discount 1 2",
    "first 1",
    "step 0 0 0 3",
    "out 0 0 1",
    "end",
];

/// A certificate that closes its gap.
pub const THREE_CERTIFICATE: [&str; 18] = [
    "certificate 1",
    "outcome closed",
    "gap 0/1",
    "lower 393216/65536",
    "upper 393216/65536",
    "tail 393216/65536",
    "sizes 1 1",
    "start 0 0",
    "node 0",
    "vector 393216",
    "mix 65536",
    "next 0 0 0 65536",
    "point 0",
    "belief 1",
    "value 393216",
    "mix 0 65536",
    "split 0 0 0 65536",
    "end",
];

/// Matching pennies in one state, without a future.
pub const PENNIES: [&str; 14] = [
    "osposg 1",
    "size 1 2 2 1",
    "total 1",
    "discount 0 1",
    "first 1",
    "step 0 0 0 1",
    "out 0 0 1",
    "step 0 0 1 -1",
    "out 0 0 1",
    "step 0 1 0 -1",
    "out 0 0 1",
    "step 0 1 1 1",
    "out 0 0 1",
    "end",
];

/// A certificate that closes its gap, by even mixes of both players.
pub const PENNIES_CERTIFICATE: [&str; 30] = [
    "certificate 1",
    "outcome closed",
    "gap 1/100",
    "lower 0/65536",
    "upper 0/65536",
    "tail 65536/65536",
    "sizes 2 2",
    "start 1 1",
    "node 0",
    "vector -65536",
    "mix 65536 0",
    "next 0 0 0 65536",
    "node 1",
    "vector 0",
    "mix 32768 32768",
    "next 0 0 0 32768",
    "next 1 0 0 32768",
    "point 0",
    "belief 1",
    "value 65536",
    "mix 0 65536 0",
    "split 0 0 0 65536",
    "split 1 0 0 65536",
    "point 1",
    "belief 1",
    "value 0",
    "mix 0 32768 32768",
    "split 0 0 0 65536",
    "split 1 0 0 65536",
    "end",
];

/// What `check` writes of it.
const PENNIES_YES: &str =
    "yes\nlower 0/65536 0.000000\nupper 0/65536 0.000000\ntail 65536/65536 1.000000\n";

/// What `check` writes of the certificate of three halved.
pub const THREE_YES: &str =
    "yes\nlower 393216/65536 6.000000\nupper 393216/65536 6.000000\ntail 393216/65536 6.000000\n";

/// The bound that `floor` writes for five each time.
pub const FIVE_BOUND: &str = "action 0\nlower 327680/65536\ntail 327680/65536\n";

/// A text of these lines.
pub fn text_of(alloc: Global, lines: &[&str]) -> Result<String, Fail> {
    let mut text = String::new(alloc);
    for line in lines {
        text.push_str(line)?;
        text.push('\n')?;
    }
    Ok(text)
}

/// The text of these lines with one of them changed; lines are counted from 1.
pub fn changed(alloc: Global, lines: &[&str], number: usize, line: &str) -> Result<String, Fail> {
    let mut text = String::new(alloc);
    for (place, old) in lines.iter().enumerate() {
        text.push_str(if place + 1 == number { line } else { old })?;
        text.push('\n')?;
    }
    Ok(text)
}

/// One text after another.
pub fn joined(alloc: Global, game: &str, certificate: &str) -> Result<String, Fail> {
    let mut text = String::from_str(alloc, game)?;
    text.push_str(certificate)?;
    Ok(text)
}

/// The words of a command line.
pub fn words(alloc: Global, texts: &[&str]) -> Result<Vec<String>, Fail> {
    let mut words = Vec::new(alloc);
    for text in texts {
        words.push(String::from_str(alloc, text)?)?;
    }
    Ok(words)
}

/// The status of a run over ends that never fail, and whether it writes just this text.
pub fn answered(
    alloc: Global,
    command: &[&str],
    input: &[u8],
    text: &str,
) -> Result<(Status, bool), Fail> {
    let words = words(alloc, command)?;
    let mut source = SureSource::new(input);
    let mut sink = SureSink::new(alloc, 1024)?;
    let status = run(alloc, &words, &mut source, &mut sink);
    Ok((status, sink.written() == Some(text.as_bytes())))
}

/// The status of a run and what it writes, over a source that gives and a sink that takes at most so many bytes a call;
/// the calls of these numbers fail.
pub fn over(
    alloc: Global,
    command: &[&str],
    input: &[u8],
    (given, read_fails): (usize, &[u32]),
    (taken, write_fails): (usize, &[u32]),
) -> Result<(Status, Vec<u8>), Fail> {
    let words = words(alloc, command)?;
    let mut source = MemSource::new(alloc, input, given.max(1), read_fails)?;
    let mut sink = MemSink::new(alloc, 1 << 16, taken.max(1), write_fails)?;
    let status = run(alloc, &words, &mut source, &mut sink);
    Ok((status, Vec::from_slice(alloc, sink.written())?))
}

#[test]
fn floor_writes_the_bounds_of_worked_games(rt: HostRuntime) -> Result<(), Fail> {
    let alloc = rt.alloc();
    let five = text_of(alloc, &FIVE_EACH_TIME)?;
    assert!(rt; answered(alloc, &["floor"], five.as_bytes(), FIVE_BOUND)? == (Status::Done, true));
    let edge =
        "osposg 1\nsize 1 1 1 1\ntotal 4\ndiscount 0 1048576\nfirst 1\nstep 0 0 0 1073741824\nout 0 0 4\nend\n";
    let bound = "action 0\nlower 70368744177664/65536\ntail 70368744177664/65536\n";
    assert!(rt; answered(alloc, &["floor"], edge.as_bytes(), bound)? == (Status::Done, true));
    Ok(())
}

#[test]
fn refused_games_name_the_first_line_and_its_least_kind(rt: HostRuntime) -> Result<(), Fail> {
    let alloc = rt.alloc();
    let refused = [
        (1, "osposg 3", "game refused: line 1 kind 1\n"),
        (2, "size 1 1 1", "game refused: line 2 kind 2\n"),
        (2, "size 17 1 1 1", "game refused: line 2 kind 4\n"),
        (3, "total 1x", "game refused: line 3 kind 3\n"),
        (3, "total 0", "game refused: line 3 kind 4\n"),
        (3, "total 2", "game refused: line 8 kind 6\n"),
        (4, "discount 1 1", "game refused: line 4 kind 4\n"),
        (5, "first 0", "game refused: line 5 kind 7\n"),
        (6, "step 0 0 0 1073741825", "game refused: line 6 kind 4\n"),
        (7, "out 0 0 2", "game refused: line 7 kind 4\n"),
    ];
    for (number, line, refusal) in refused {
        let text = changed(alloc, &FIVE_EACH_TIME, number, line)?;
        assert!(rt;
            answered(alloc, &["floor"], text.as_bytes(), refusal)? == (Status::GameRefused, true),
            "{line}"
        );
    }
    Ok(())
}

#[test]
fn refused_games_of_other_lengths_and_widths(rt: HostRuntime) -> Result<(), Fail> {
    let alloc = rt.alloc();
    let whole = text_of(alloc, &FIVE_EACH_TIME)?;
    let twice = joined(alloc, &whole, &whole)?;
    let cut = text_of(alloc, &FIVE_EACH_TIME[..7])?;
    let refused = [
        ("", "game refused: line 1 kind 9\n"),
        (cut.as_str(), "game refused: line 8 kind 9\n"),
        (twice.as_str(), "game refused: line 9 kind 10\n"),
        (
            "osposg 1\nsize 1 1 1 1\ntotal 2\ndiscount 0 1\nfirst 1\nstep 0 0 0 5\nout 0 0 1\nout 0 0 1\nend\n",
            "game refused: line 8 kind 5\n",
        ),
        (
            "osposg 1\nsize 1 1 1 1\ntotal 8\ndiscount 0 1048576\nfirst 1\nstep 0 0 0 1073741824\nout 0 0 8\nend\n",
            "game refused: line 6 kind 8\n",
        ),
    ];
    for (text, refusal) in refused {
        assert!(rt;
            answered(alloc, &["floor"], text.as_bytes(), refusal)? == (Status::GameRefused, true),
            "{refusal}"
        );
    }
    Ok(())
}

#[test]
fn other_words_are_refused_and_nothing_is_read(rt: HostRuntime) -> Result<(), Fail> {
    let alloc = rt.alloc();
    for command in [
        [].as_slice(),
        &["--"],
        &["Floor"],
        &["floor", "floor"],
        &["solve", "--"],
        &["solve", "--trials", "5", "--"],
        &["solve", "--trials", "10001"],
    ] {
        let (status, text) = over(alloc, command, b"", (1, &[0]), (1024, &[]))?;
        assert!(rt; status == Status::WordsRefused);
        assert!(rt; text.as_slice() == b"words refused\n".as_slice());
    }
    Ok(())
}

#[test]
fn show_writes_the_canonical_text(rt: HostRuntime) -> Result<(), Fail> {
    let alloc = rt.alloc();
    let five = text_of(alloc, &FIVE_EACH_TIME)?;
    let multiple = changed(alloc, &FIVE_EACH_TIME, 5, "first 3")?;
    assert!(rt; answered(alloc, &["show"], five.as_bytes(), &five)? == (Status::Done, true));
    assert!(rt; answered(alloc, &["show"], multiple.as_bytes(), &five)? == (Status::Done, true));
    let twice = joined(alloc, &five, &five)?;
    assert!(rt;
        answered(
            alloc,
            &["show"],
            twice.as_bytes(),
            "game refused: line 9 kind 10\n"
        )? == (Status::GameRefused, true)
    );
    Ok(())
}

/// A game of full size in which each stage gives 5 and nothing comes after it. Each row has a landing for each
/// observation and next state.
fn great_text(alloc: Global) -> Result<String, Fail> {
    let mut row = String::new(alloc);
    for o in 0..8 {
        for t in 0..16 {
            row.push_str(&format!(in alloc; "out {o} {t} 100000\n")?)?;
        }
    }
    let mut text = String::from_str(
        alloc,
        "osposg 1\nsize 16 6 6 8\ntotal 12800000\ndiscount 0 1\nfirst 1 1 1 1 1 1 1 1 1 1 1 1 1 1 1 1\n",
    )?;
    for s in 0..16 {
        for a in 0..6 {
            for c in 0..6 {
                text.push_str(&format!(in alloc; "step {s} {a} {c} 5\n")?)?;
                text.push_str(&row)?;
            }
        }
    }
    text.push_str("end\n")?;
    Ok(text)
}

#[test]
fn a_game_text_of_a_million_bytes_is_answered(rt: HostRuntime) -> Result<(), Fail> {
    let alloc = rt.alloc();
    let text = great_text(alloc)?;
    assert!(rt; text.len() > 1_000_000);
    let bound = "action 0\nlower 5242880/1048576\ntail 327680/65536\n";
    assert!(rt; answered(alloc, &["floor"], text.as_bytes(), bound)? == (Status::Done, true));
    Ok(())
}

#[test]
fn an_input_above_the_limit_is_too_long(rt: HostRuntime) -> Result<(), Fail> {
    let alloc = rt.alloc();
    let input = vec![in alloc; b'\n'; (1 << 26) + 1]?;
    assert!(rt; answered(alloc, &["floor"], &input, "")? == (Status::TooLong, true));
    Ok(())
}

#[test]
fn a_certificate_that_stands_is_answered_with_its_bounds(rt: HostRuntime) -> Result<(), Fail> {
    let alloc = rt.alloc();
    let game = text_of(alloc, &THREE_HALVED)?;
    let input = joined(alloc, &game, &text_of(alloc, &THREE_CERTIFICATE)?)?;
    assert!(rt; answered(alloc, &["check"], input.as_bytes(), THREE_YES)? == (Status::Done, true));
    assert!(rt;
        answered(
            alloc,
            &["check"],
            game.as_bytes(),
            "certificate refused: line 1 kind 10\n"
        )? == (Status::CertRefused, true)
    );
    assert!(rt;
        answered(alloc, &["check"], b"", "game refused: line 1 kind 9\n")?
            == (Status::GameRefused, true)
    );
    Ok(())
}

#[test]
fn even_mixes_of_matching_pennies_close_the_gap(rt: HostRuntime) -> Result<(), Fail> {
    let alloc = rt.alloc();
    let game = text_of(alloc, &PENNIES)?;
    let input = joined(alloc, &game, &text_of(alloc, &PENNIES_CERTIFICATE)?)?;
    assert!(rt;
        answered(alloc, &["check"], input.as_bytes(), PENNIES_YES)? == (Status::Done, true)
    );
    Ok(())
}

#[test]
fn changed_certificates_are_refused_or_fail_first(rt: HostRuntime) -> Result<(), Fail> {
    let alloc = rt.alloc();
    let game = text_of(alloc, &THREE_HALVED)?;
    let answers = [
        (
            1,
            "certificate 3",
            Status::CertRefused,
            "certificate refused: line 1 kind 1\n",
        ),
        (
            1,
            "certificate 2",
            Status::CertRefused,
            "certificate refused: line 8 kind 2\n",
        ),
        (
            2,
            "outcome open",
            Status::CertRefused,
            "certificate refused: line 2 kind 2\n",
        ),
        (2, "outcome trials", Status::No, "no outcome\n"),
        (
            3,
            "gap 0/01",
            Status::CertRefused,
            "certificate refused: line 3 kind 3\n",
        ),
        (4, "lower 393215/65536", Status::No, "no bound\n"),
        (
            7,
            "sizes 0 2000",
            Status::CertRefused,
            "certificate refused: line 7 kind 4\n",
        ),
        (
            7,
            "sizes 1025 1",
            Status::CertRefused,
            "certificate refused: line 7 kind 9\n",
        ),
        (
            8,
            "start 1 0",
            Status::CertRefused,
            "certificate refused: line 8 kind 6\n",
        ),
        (
            10,
            "vector 393217",
            Status::CertRefused,
            "certificate refused: line 10 kind 4\n",
        ),
        (
            11,
            "mix 65535",
            Status::CertRefused,
            "certificate refused: line 11 kind 7\n",
        ),
        (
            12,
            "next 0 0 0 65535",
            Status::CertRefused,
            "certificate refused: line 13 kind 7\n",
        ),
        (
            14,
            "belief 2",
            Status::CertRefused,
            "certificate refused: line 14 kind 7\n",
        ),
        (15, "value 393215", Status::No, "no value 0 action 0\n"),
        (
            18,
            "end\nend",
            Status::CertRefused,
            "certificate refused: line 19 kind 8\n",
        ),
    ];
    for (number, line, status, text) in answers {
        let input = joined(
            alloc,
            &game,
            &changed(alloc, &THREE_CERTIFICATE, number, line)?,
        )?;
        assert!(rt;
            answered(alloc, &["check"], input.as_bytes(), text)? == (status, true),
            "{line}"
        );
    }
    let cut = joined(alloc, &game, &text_of(alloc, &THREE_CERTIFICATE[..17])?)?;
    assert!(rt;
        answered(
            alloc,
            &["check"],
            cut.as_bytes(),
            "certificate refused: line 18 kind 10\n"
        )? == (Status::CertRefused, true)
    );
    Ok(())
}

#[test]
fn the_first_failing_node_and_split_are_named(rt: HostRuntime) -> Result<(), Fail> {
    let alloc = rt.alloc();
    let node =
        "osposg 1\nsize 1 1 2 1\ntotal 1\ndiscount 1 2\nfirst 1\nstep 0 0 0 3\nout 0 0 1\nstep 0 0 1 4\nout 0 0 1\nend\n\
        certificate 1\noutcome closed\ngap 1/100\nlower 393217/65536\nupper 393216/65536\ntail 524288/65536\nsizes 1 1\nstart 0 0\n\
        node 0\nvector 393217\nmix 65536\nnext 0 0 0 65536\npoint 0\nbelief 1\nvalue 393216\nmix 0 65536 0\nsplit 0 0 0 65536\nend\n";
    assert!(rt;
        answered(
            alloc,
            &["check"],
            node.as_bytes(),
            "no node 0 state 0 action 0\n"
        )? == (Status::No, true)
    );
    let split =
        "osposg 1\nsize 2 2 1 1\ntotal 1\ndiscount 0 1\nfirst 1 1\nstep 0 0 0 1\nout 0 0 1\nstep 0 1 0 0\nout 0 0 1\n\
        step 1 0 0 0\nout 0 1 1\nstep 1 1 0 1\nout 0 1 1\nend\n\
        certificate 1\noutcome closed\ngap 1/100\nlower 65536/131072\nupper 65536/131072\ntail 65536/65536\nsizes 1 3\nstart 0 2\n\
        node 0\nvector 65536 0\nmix 65536 0\nnext 0 0 0 65536\n\
        point 0\nbelief 1 0\nvalue 65536\nmix 0 65536\nmix 1 65536\nsplit 0 0 0 65536\nsplit 1 0 0 65536\n\
        point 1\nbelief 0 1\nvalue 65536\nmix 0 65536\nmix 1 65536\nsplit 0 0 1 65536\nsplit 1 0 1 65536\n\
        point 2\nbelief 1 1\nvalue 65536\nmix 0 65536\nmix 1 65536\nsplit 0 0 0 65535\nsplit 0 0 1 65536\nsplit 1 0 0 65536\nsplit 1 0 1 65536\nend\n";
    assert!(rt;
        answered(
            alloc,
            &["check"],
            split.as_bytes(),
            "no split 2 action 0 seen 0 state 0\n"
        )? == (Status::No, true)
    );
    Ok(())
}

#[test]
fn a_full_set_of_nodes_stands(rt: HostRuntime) -> Result<(), Fail> {
    let alloc = rt.alloc();
    let mut input = joined(
        alloc,
        &text_of(alloc, &THREE_HALVED)?,
        &text_of(alloc, &THREE_CERTIFICATE[..6])?,
    )?;
    input.push_str("sizes 1024 1\nstart 0 0\n")?;
    for i in 0..1024 {
        input.push_str(&format!(in alloc;
            "node {i}\nvector 393216\nmix 65536\nnext 0 0 {i} 65536\n"
        )?)?;
    }
    input.push_str(&text_of(alloc, &THREE_CERTIFICATE[12..])?)?;
    assert!(rt; answered(alloc, &["check"], input.as_bytes(), THREE_YES)? == (Status::Done, true));
    Ok(())
}

#[test]
fn a_text_in_front_ends_behind_its_end_line_and_a_belief_is_divided(
    rt: HostRuntime,
) -> Result<(), Fail> {
    let alloc = rt.alloc();
    let text =
        "osposg 1\nsize 2 1 1 1\ntotal 1\ndiscount 0 1\nfirst 6 3\nstep 0 0 0 1\nout 0 0 1\nstep 1 0 0 -1\nout 0 1 1\nend\n";
    let input = joined(alloc, text, "certificate 1")?;
    assert!(rt; input.len() < 1000);
    let (game, place) = game_text::read(alloc, input.as_bytes())?;
    assert!(rt; place == text.len());
    assert!(rt; game.first() == [2, 1].as_slice());
    Ok(())
}

#[test]
fn a_certificate_is_printed_as_the_text_that_it_was_read_from(rt: HostRuntime) -> Result<(), Fail> {
    let alloc = rt.alloc();
    let game = text_of(alloc, &THREE_HALVED)?;
    let text = text_of(alloc, &THREE_CERTIFICATE)?;
    assert!(rt; game.len() < 1000 && text.len() < 1000);
    let game = game_text::read_alone(alloc, game.as_bytes())?;
    let certificate = cert_text::read(alloc, &game, text.as_bytes())?;
    assert!(rt; cert_text::print(alloc, &game, &certificate)?.as_slice() == text.as_bytes());
    Ok(())
}

//! Worked runs of `check` for a certificate that starts from two nodes and two points.
use crate::Status;
use crate::tests::{answered, changed, joined, text_of};
use std::alloc::Global;
use std::test::Fail;

/// Two states, one of which player one guesses each time.
pub const GUESS_THE_STATE: [&str; 14] = [
    "osposg 1",
    "size 2 2 1 1",
    "total 1",
    "discount 0 1",
    "first 1 1",
    "step 0 0 0 1",
    "out 0 0 1",
    "step 0 1 0 0",
    "out 0 0 1",
    "step 1 0 0 0",
    "out 0 1 1",
    "step 1 1 0 1",
    "out 0 1 1",
    "end",
];

/// A certificate that guarantees 1/2 from each state alone, by both guesses with equal weights.
const TWO_STARTS: [&str; 35] = [
    "certificate 2",
    "outcome trials",
    "gap 1/100",
    "lower 131072/262144",
    "upper 131072/131072",
    "tail 65536/65536",
    "sizes 2 2",
    "multiple 1",
    "from 0 1",
    "from 1 1",
    "over 0 1",
    "over 1 1",
    "node 0",
    "vector 65536 0",
    "mix 65536 0",
    "next 0 0 0 65536",
    "node 1",
    "vector 0 65536",
    "mix 0 65536",
    "next 1 0 1 65536",
    "point 0",
    "belief 1 0",
    "value 65536",
    "mix 0 65536",
    "mix 1 65536",
    "split 0 0 0 65536",
    "split 1 0 0 65536",
    "point 1",
    "belief 0 1",
    "value 65536",
    "mix 0 65536",
    "mix 1 65536",
    "split 0 0 1 65536",
    "split 1 0 1 65536",
    "end",
];

/// What `check` writes for it.
const TWO_YES: &str =
    "yes\nlower 131072/262144 0.500000\nupper 131072/131072 1.000000\ntail 65536/65536 1.000000\n";

/// The text of these lines without those of the listed numbers, counted from 1.
fn without(alloc: Global, lines: &[&str], numbers: &[usize]) -> Result<String, Fail> {
    let mut text = String::new(alloc);
    for (index, line) in lines.iter().enumerate() {
        if !numbers.contains(&(index + 1)) {
            text.push_str(line)?;
            text.push('\n')?;
        }
    }
    Ok(text)
}

#[test]
fn a_certificate_of_two_starts_stands(rt: HostRuntime) -> Result<(), Fail> {
    let alloc = rt.alloc();
    let game = text_of(alloc, &GUESS_THE_STATE)?;
    let input = joined(alloc, &game, &text_of(alloc, &TWO_STARTS)?)?;
    assert!(rt; answered(alloc, &["check"], input.as_bytes(), TWO_YES)? == (Status::Done, true));
    Ok(())
}

#[test]
fn changed_starts_are_refused_at_their_line(rt: HostRuntime) -> Result<(), Fail> {
    let alloc = rt.alloc();
    let game = text_of(alloc, &GUESS_THE_STATE)?;
    let refused = [
        (1, "certificate 1", "certificate refused: line 8 kind 2\n"),
        (1, "certificate 3", "certificate refused: line 1 kind 1\n"),
        (8, "multiple 65537", "certificate refused: line 8 kind 4\n"),
        (9, "from 0 65536", "certificate refused: line 10 kind 7\n"),
        (10, "from 0 1", "certificate refused: line 10 kind 5\n"),
        (10, "from 2 1", "certificate refused: line 10 kind 6\n"),
        (10, "from 1 0", "certificate refused: line 10 kind 4\n"),
        (11, "over -1 1", "certificate refused: line 11 kind 4\n"),
        (12, "over 0 1", "certificate refused: line 12 kind 5\n"),
        (
            12,
            "over 1 68719476737",
            "certificate refused: line 12 kind 4\n",
        ),
    ];
    for (number, line, refusal) in refused {
        let input = joined(alloc, &game, &changed(alloc, &TWO_STARTS, number, line)?)?;
        assert!(rt;
            answered(alloc, &["check"], input.as_bytes(), refusal)? == (Status::CertRefused, true)
        );
    }
    Ok(())
}

#[test]
fn starts_of_other_numbers_of_lines(rt: HostRuntime) -> Result<(), Fail> {
    let alloc = rt.alloc();
    let game = text_of(alloc, &GUESS_THE_STATE)?;
    let mut doubled = TWO_STARTS;
    doubled[8] = "from 0 2";
    doubled[9] = "from 1 2";
    let input = joined(alloc, &game, &text_of(alloc, &doubled)?)?;
    assert!(rt;
        answered(
            alloc,
            &["check"],
            input.as_bytes(),
            "certificate refused: line 11 kind 7\n"
        )? == (Status::CertRefused, true)
    );
    let input = joined(alloc, &game, &without(alloc, &TWO_STARTS, &[12])?)?;
    assert!(rt; answered(alloc, &["check"], input.as_bytes(), "no start\n")? == (Status::No, true));
    let input = joined(alloc, &game, &without(alloc, &TWO_STARTS, &[10, 12])?)?;
    assert!(rt;
        answered(
            alloc,
            &["check"],
            input.as_bytes(),
            "certificate refused: line 11 kind 7\n"
        )? == (Status::CertRefused, true)
    );
    Ok(())
}

#[test]
fn two_starts_are_printed_as_they_were_read(rt: HostRuntime) -> Result<(), Fail> {
    let alloc = rt.alloc();
    let game = text_of(alloc, &GUESS_THE_STATE)?;
    let text = text_of(alloc, &TWO_STARTS)?;
    assert!(rt; game.len() < 1000 && text.len() < 1000);
    let game = game_text::read_alone(alloc, game.as_bytes())?;
    let certificate = cert_text::read(alloc, &game, text.as_bytes())?;
    assert!(rt; certificate.start_nodes.as_slice() == [(0, 1), (1, 1)].as_slice());
    assert!(rt; certificate.start_points.as_slice() == [(0, 1), (1, 1)].as_slice());
    assert!(rt; certificate.multiple == 1);
    assert!(rt; cert_text::print(alloc, &game, &certificate)?.as_slice() == text.as_bytes());
    Ok(())
}

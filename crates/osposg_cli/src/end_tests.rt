//! Runs over ends that fail or give little, and over inputs that are cut, doubled or as long as may be.
use crate::Status;
use crate::gen_tests::SMALL;
use crate::solve_tests::FIVE_CERTIFICATE;
use crate::tests::{
    FIVE_BOUND, FIVE_EACH_TIME, PENNIES, PENNIES_CERTIFICATE, THREE_CERTIFICATE, THREE_HALVED,
    THREE_YES, answered, joined, over, text_of,
};
use std::alloc::Global;
use std::test::Fail;

/// More calls than any of these runs makes.
const MANY_CALLS: u32 = 64;

/// Whether a run fails at each call of a source of 20 bytes a call, and then writes nothing.
fn fails_to_read(alloc: Global, command: &[&str], input: &str) -> Result<bool, Fail> {
    for call in 0..MANY_CALLS {
        if 20 * (call as usize) >= input.len() + 20 {
            break;
        }
        let (status, text) = over(alloc, command, input.as_bytes(), (20, &[call]), (10, &[]))?;
        if status != Status::ReadFault || !text.is_empty() {
            return Ok(false);
        }
    }
    Ok(true)
}

/// Whether a run fails at each call of a sink of 10 bytes a call, and has then written what earlier calls took of its
/// text.
fn fails_to_write(alloc: Global, command: &[&str], input: &str, text: &str) -> Result<bool, Fail> {
    for call in 0..MANY_CALLS {
        let taken = 10 * (call as usize);
        if taken >= text.len() {
            break;
        }
        let (status, front) = over(alloc, command, input.as_bytes(), (1, &[]), (10, &[call]))?;
        let is_front = front.len() == taken && text.as_bytes().starts_with(&front);
        if status != Status::WriteFault || !is_front {
            return Ok(false);
        }
    }
    Ok(true)
}

#[test]
fn faults_at_each_call_end_a_run(rt: HostRuntime) -> Result<(), Fail> {
    let alloc = rt.alloc();
    let five = text_of(alloc, &FIVE_EACH_TIME)?;
    let solved = text_of(alloc, &FIVE_CERTIFICATE)?;
    let three = text_of(alloc, &THREE_HALVED)?;
    let both = joined(alloc, &three, &text_of(alloc, &THREE_CERTIFICATE)?)?;
    let small = text_of(alloc, &SMALL)?;
    let cases = [
        (["floor"].as_slice(), five.as_str(), FIVE_BOUND),
        (&["check"], &both, THREE_YES),
        (&["solve"], &five, &solved),
        (&["show"], &five, &five),
        (&["gen", "--number=1", "--size=2"], "", &small),
    ];
    for (command, input, text) in cases {
        assert!(rt; input.is_empty() || fails_to_read(alloc, command, input)?);
        assert!(rt; fails_to_write(alloc, command, input, text)?);
    }
    Ok(())
}

#[test]
fn a_source_may_give_one_byte_a_call(rt: HostRuntime) -> Result<(), Fail> {
    let alloc = rt.alloc();
    let game = text_of(alloc, &PENNIES)?;
    let certificate = text_of(alloc, &PENNIES_CERTIFICATE)?;
    let (status, text) = over(alloc, &["solve"], game.as_bytes(), (1, &[]), (1000, &[]))?;
    assert!(rt; status == Status::Done);
    assert!(rt; text.as_slice() == certificate.as_bytes());
    Ok(())
}

/// Whether `check` refuses a game with each proper front of its certificate, at the line in which the front ends.
fn refuses_fronts(alloc: Global, game: &str, certificate: &str) -> Result<bool, Fail> {
    let mut input = Vec::from_slice(alloc, game.as_bytes())?;
    let mut line: u32 = 1;
    for byte in certificate.as_bytes() {
        let refusal = format!(in alloc; "certificate refused: line {line} kind 10\n")?;
        if answered(alloc, &["check"], &input, &refusal)? != (Status::CertRefused, true) {
            return Ok(false);
        }
        input.push(*byte)?;
        if *byte == b'\n' {
            line = line.saturating_add(1);
        }
    }
    Ok(true)
}

#[test]
fn each_front_of_a_certificate_is_refused_and_so_is_more_than_it(
    rt: HostRuntime,
) -> Result<(), Fail> {
    let alloc = rt.alloc();
    let game = text_of(alloc, &THREE_HALVED)?;
    let certificate = text_of(alloc, &THREE_CERTIFICATE)?;
    assert!(rt; refuses_fronts(alloc, &game, &certificate)?);
    let twice = joined(alloc, &joined(alloc, &game, &certificate)?, &certificate)?;
    let refusal = "certificate refused: line 19 kind 8\n";
    assert!(rt;
        answered(alloc, &["check"], twice.as_bytes(), refusal)? == (Status::CertRefused, true)
    );
    Ok(())
}

#[test]
fn the_longest_input_is_read(rt: HostRuntime) -> Result<(), Fail> {
    let alloc = rt.alloc();
    let input = vec![in alloc; b'x'; 1 << 26]?;
    let refusal = "game refused: line 1 kind 9\n";
    assert!(rt; answered(alloc, &["floor"], &input, refusal)? == (Status::GameRefused, true));
    Ok(())
}

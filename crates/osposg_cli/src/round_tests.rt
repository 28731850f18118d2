//! Games that close within some rounds of `close`, from what twenty trials of `solve` leave.
use crate::Status;
use crate::tests::{over, text_of};
use std::alloc::Global;
use std::test::Fail;

/// A guard of two places, and a thief who sees him (games/patrol.game).
const PATROL: [&str; 48] = [
    "osposg 1",
    "size 3 2 3 2",
    "total 10",
    "discount 9 10",
    "first 1 0 0",
    "step 0 0 0 0",
    "out 0 0 10",
    "step 0 0 1 0",
    "out 0 1 10",
    "step 0 0 2 0",
    "out 0 2 10",
    "step 0 1 0 0",
    "out 0 0 10",
    "step 0 1 1 0",
    "out 0 1 10",
    "step 0 1 2 0",
    "out 0 2 10",
    "step 1 0 0 6",
    "out 0 0 2",
    "out 1 0 8",
    "step 1 0 1 6",
    "out 0 1 2",
    "out 1 0 8",
    "step 1 0 2 6",
    "out 0 2 2",
    "out 1 0 8",
    "step 1 1 0 -2",
    "out 0 0 10",
    "step 1 1 1 -2",
    "out 0 1 10",
    "step 1 1 2 -2",
    "out 0 2 10",
    "step 2 0 0 -5",
    "out 0 0 10",
    "step 2 0 1 -5",
    "out 0 1 10",
    "step 2 0 2 -5",
    "out 0 2 10",
    "step 2 1 0 6",
    "out 0 0 2",
    "out 1 0 8",
    "step 2 1 1 6",
    "out 0 1 2",
    "out 1 0 8",
    "step 2 1 2 6",
    "out 0 2 2",
    "out 1 0 8",
    "end",
];

/// A tiger behind one of two doors (games/tiger-alone.game).
const TIGER_ALONE: [&str; 24] = [
    "osposg 1",
    "size 2 3 1 2",
    "total 100",
    "discount 9 10",
    "first 1 1",
    "step 0 0 0 -1",
    "out 0 0 85",
    "out 1 0 15",
    "step 0 1 0 -100",
    "out 0 0 50",
    "out 0 1 50",
    "step 0 2 0 10",
    "out 0 0 50",
    "out 0 1 50",
    "step 1 0 0 -1",
    "out 0 1 15",
    "out 1 1 85",
    "step 1 1 0 10",
    "out 0 0 50",
    "out 0 1 50",
    "step 1 2 0 -100",
    "out 0 0 50",
    "out 0 1 50",
    "end",
];

/// Whether these rounds close a game that twenty trials leave open.
fn closes(alloc: Global, game: &[u8], rounds: &str) -> Result<bool, Fail> {
    let solve = ["solve", "--trials=20"].as_slice();
    let (left, open) = over(alloc, solve, game, (4096, &[]), (4096, &[]))?;
    let mut input = Vec::from_slice(alloc, game)?;
    input.extend_from_slice(&open)?;
    let close = ["close", rounds];
    let (status, closed) = over(alloc, &close, &input, (4096, &[]), (4096, &[]))?;
    let said = closed
        .as_slice()
        .starts_with(b"certificate 1\noutcome closed\n");
    Ok(left == Status::Open && status == Status::Done && said)
}

#[test]
fn games_close_in_few_rounds(rt: HostRuntime) -> Result<(), Fail> {
    let alloc = rt.alloc();
    let patrol = text_of(alloc, &PATROL)?;
    assert!(rt; closes(alloc, patrol.as_bytes(), "--rounds=3")?);
    let tiger = text_of(alloc, &TIGER_ALONE)?;
    assert!(rt; closes(alloc, tiger.as_bytes(), "--rounds=5")?);
    Ok(())
}

#[test]
fn generated_games_close(rt: HostRuntime) -> Result<(), Fail> {
    let alloc = rt.alloc();
    for (number, size) in [("3", "3"), ("4", "4")] {
        let made = ["gen", "--number", number, "--size", size];
        let (status, game) = over(alloc, &made, b"", (4096, &[]), (4096, &[]))?;
        assert!(rt; status == Status::Done);
        assert!(rt; closes(alloc, &game, "--rounds=100")?);
    }
    Ok(())
}

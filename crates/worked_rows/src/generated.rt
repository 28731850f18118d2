//! Draws from a seed, and games from a number and a size.
//!
//! `bench/generated/make-game.py` made the wanted numbers and texts.

use game_gen::make;
use game_text::print;
use hsvi_draw::Draw;
use std::test::Fail;

/// The checksum of no text.
const NO_TEXT: u64 = 0xcbf2_9ce4_8422_2325;

/// The checksum of some bytes, and of a text after them (FNV-1a of 64 bits).
fn summed(before: u64, text: &[u8]) -> u64 {
    let mut sum = before;
    for byte in text {
        sum = (sum ^ u64::from(*byte)).wrapping_mul(0x100_0000_01b3);
    }
    sum
}

/// The checksum of a text.
pub fn checksum(text: &[u8]) -> u64 {
    summed(NO_TEXT, text)
}

#[test]
fn draws_take_two_words_each(rt: HostRuntime) {
    let mut draw = Draw::new(1);
    assert_eq!(rt;
        draw.below(u128::MAX),
        0xd701_f5c8_2406_2d47_046d_af9b_8aba_af57
    );
    assert_eq!(rt; draw.below(19), 18);
    assert_eq!(rt; draw.below(1), 0);
    assert_eq!(rt; draw.below(1 << 64), 0x6364_e190_5715_4771);
    assert_eq!(rt; Draw::new(u64::MAX).below(19), 11);
}

#[test]
fn sizes_of_generated_games(rt: HostRuntime) -> Result<(), Fail> {
    let six = make(rt.alloc(), 1, 6)?;
    assert_eq!(rt; (six.states(), six.own_actions()), (6, 3));
    assert_eq!(rt; (six.informed_actions(), six.observations()), (3, 2));
    let four = make(rt.alloc(), 1, 4)?;
    assert_eq!(rt; (four.states(), four.own_actions()), (4, 2));
    assert_eq!(rt; (four.informed_actions(), four.observations()), (2, 2));
    let most = make(rt.alloc(), 1, 16)?;
    assert_eq!(rt; (most.states(), most.own_actions()), (16, 4));
    assert_eq!(rt; (most.informed_actions(), most.observations()), (4, 3));
    Ok(())
}

#[test]
fn a_generated_game_has_its_text(rt: HostRuntime) -> Result<(), Fail> {
    let game = make(rt.alloc(), 1, 2)?;
    let text = print(rt.alloc(), &game)?;
    let head = b"osposg 1\nsize 2 1 1 1\ntotal 100\ndiscount 19 20\nfirst 1 1\n";
    let rows =
        b"step 0 0 0 -7\nout 0 0 75\nout 0 1 25\nstep 1 0 0 -6\nout 0 0 75\nout 0 1 25\nend\n";
    assert!(rt; text.as_slice().starts_with(head));
    assert!(rt; text.as_slice().ends_with(rows));
    assert_eq!(rt; text.len(), head.len() + rows.len());
    Ok(())
}

#[test]
fn generated_games_have_the_texts_of_an_independent_generator(rt: HostRuntime) -> Result<(), Fail> {
    let mut sum = NO_TEXT;
    for number in 1..21 {
        for size in 3..9 {
            let game = make(rt.alloc(), number, size)?;
            let text = print(rt.alloc(), &game)?;
            sum = summed(sum, &text);
        }
    }
    assert_eq!(rt; sum, 4_635_163_748_062_023_463);
    Ok(())
}

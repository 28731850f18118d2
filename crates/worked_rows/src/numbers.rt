//! Worked quotients, divisors, sums, fractions and shares.

ghost use Rattle.std.specs.Prelude.{pos, ◌<ℤ◌};

use scaled_num::{
    Fraction, ceil_div, common_divisor, decimals_down, decimals_up, floor_div, gcd, print, sum,
    take_share,
};
use std::test::Fail;

#[test]
fn quotients_round_down_and_up(rt: HostRuntime) {
    for (a, b, down, up) in [(7, 2, 3, 4), (-7, 2, -4, -3), (-6, 2, -3, -3), (0, 5, 0, 0)] {
        assert!(rt; b > 0);
        assert_eq!(rt; floor_div(a, b), down);
        assert_eq!(rt; ceil_div(a, b), up);
    }
}

#[test]
fn divisors_of_short_and_long_numbers(rt: HostRuntime) {
    assert_eq!(rt; gcd(0, 0), 0);
    assert_eq!(rt; gcd(12, 18), 6);
    assert_eq!(rt; gcd(0, 1 << 100), 1 << 100);
    assert_eq!(rt; gcd(1 << 100, 3 << 70), 1 << 70);
    assert_eq!(rt; gcd(1_000_003, 1 << 100), 1);
}

#[test]
fn lists_have_a_sum_and_a_divisor(rt: HostRuntime) {
    assert_eq!(rt; sum(&[4, 0, 5]), 9);
    assert_eq!(rt; common_divisor(&[12, -18, 0]), 6);
    assert_eq!(rt; common_divisor(&[0, 0]), 0);
}

#[test]
fn fractions_are_printed_exactly_and_in_six_places(rt: HostRuntime) -> Result<(), Fail> {
    let alloc = rt.alloc();
    let third = Fraction { num: -1, den: 3 };
    assert_eq!(rt; print(alloc, &third)?.as_str(), "-1/3");
    assert_eq!(rt; decimals_down(alloc, &third)?.as_str(), "-0.333334");
    assert_eq!(rt; decimals_up(alloc, &third)?.as_str(), "-0.333333");
    let tiny = Fraction {
        num: -1,
        den: 10_000_000,
    };
    assert_eq!(rt; decimals_up(alloc, &tiny)?.as_str(), "0.000000");
    Ok(())
}

#[test]
fn a_total_is_shared_by_weights(rt: HostRuntime) {
    let mut thirds = [0; 3];
    take_share(&[1, 1, 1], 10, &mut thirds);
    assert_eq!(rt; thirds, [4, 3, 3]);
    let mut quarters = [0; 2];
    take_share(&[1, 3], 10, &mut quarters);
    assert_eq!(rt; quarters, [2, 8]);
    let mut nothing = [7; 2];
    take_share(&[0, 0], 5, &mut nothing);
    assert_eq!(rt; nothing, [5, 0]);
}

//! Numbers with 40 bits behind the point, for advice alone: they stay at the end of their range rather than pass it.

use crate::sums::ratio;

/// How many bits stand behind the point.
pub const BITS: u32 = 40;

/// One.
pub const ONE: i128 = 1 << 40;

/// The greatest magnitude.
const MOST: i128 = 1 << 62;

/// A number brought into -2^62 to 2^62.
fn bounded(number: i128) -> i128 {
    number.clamp(-MOST, MOST)
}

/// A number brought into -2^62 to 2^62, in 64 bits.
pub fn word(number: i128) -> i64 {
    number.clamp(-MOST, MOST) as i64
}

/// The greatest height of a plane.
const MOST_HEIGHT: i128 = (1 << 36) - 1;

/// A number brought within 2^36, in 64 bits.
pub fn narrow(number: i128) -> i64 {
    number.clamp(-MOST_HEIGHT, MOST_HEIGHT) as i64
}

/// The product of two such numbers.
pub fn fixed_product(first: i128, second: i128) -> i128 {
    bounded(first.wrapping_mul(second) >> BITS)
}

/// One over a number, and 0 where that is 0.
pub fn inverse_of(number: i128) -> i128 {
    let whole = ONE.wrapping_mul(ONE);
    if number > 0 {
        ratio(whole, number)
    } else if number < 0 {
        0i128.wrapping_sub(ratio(whole, 0i128.wrapping_sub(number)))
    } else {
        0
    }
}

/// A number less the product of two others.
pub fn fixed_less(number: i128, first: i128, second: i128) -> i128 {
    bounded(number.wrapping_sub(first.wrapping_mul(second) >> BITS))
}

/// The sum of the products of two lists, place by place, over so many places.
pub fn fixed_sum(first: &[i128], second: &[i128], count: usize) -> i128 {
    let mut sum: i128 = 0;
    for (one, other) in first.iter().zip(second).take(count) {
        sum = sum.wrapping_add(one.wrapping_mul(*other));
    }
    sum >> BITS
}

/// A part of a total, out of one.
pub fn normal_part(part: i128, total: i128) -> i128 {
    ratio(part.saturating_mul(ONE), total).clamp(0, ONE)
}

//! Sums of products that stay at the end of their range rather than pass it.

use scaled_num::floor_div;

/// The quotient rounded down, where a divisor below 1 counts as 1.
pub fn ratio(num: i128, den: i128) -> i128 {
    floor_div(num, den.max(1))
}

/// The sum of the products of two lists, place by place.
pub fn product(first: &[i128], second: &[i128]) -> i128 {
    let mut sum: i128 = 0;
    for (one, other) in first.iter().zip(second) {
        sum = sum.saturating_add(one.saturating_mul(*other));
    }
    sum
}

/// The total of a mass, which stays at the end of its range rather than pass it.
pub fn total_of(mass: &[i128]) -> i128 {
    let mut sum: i128 = 0;
    for weight in mass {
        sum = sum.saturating_add(*weight);
    }
    sum
}

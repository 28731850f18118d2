ghost use Rattle.std.specs.Prelude.{◌≡◌, ◌^◌, ◌≤◌, pos, ◌<ℤ◌, ◌≤ℤ◌, unsigned_abs, IfOk, string_bytes};
ghost use Rattle.scaled_num.specs.Printed.{fraction_text, six_places, IsDownText, IsUpText};

use crate::{ceil_div, floor_div};
use std::alloc::{AllocError, Global};

/// The number `num / den`, not reduced.
#[derive(Clone, Copy, Debug, PartialEq, Eq)]
pub struct Fraction {
    pub num: i128,
    pub den: i128,
    pub ghost positive: { pos 0 <ℤ den },
}

/// Millionths in one.
const MILLION: i128 = 1_000_000;

/// The fraction as `num/den` in plain decimal digits.
pub fn print(alloc: Global, value: &Fraction) -> Result<String, AllocError>
    ensures { IfOk result (λ text. string_bytes text ≡ fraction_text value.now.num value.now.den) }
{
    format!(in alloc; "{}/{}", value.num, value.den)
}

/// The value rounded down to six decimal places.
pub fn decimals_down(alloc: Global, value: &Fraction) -> Result<String, AllocError>
    requires { unsigned_abs value.now.num ≤ 2 ^ 104 }
    ensures { IfOk result (λ text. IsDownText value.now.num value.now.den (string_bytes text)) }
{
    print_millionths(alloc, floor_div(value.num * MILLION, value.den))
}

/// The value rounded up to six decimal places.
pub fn decimals_up(alloc: Global, value: &Fraction) -> Result<String, AllocError>
    requires { unsigned_abs value.now.num ≤ 2 ^ 104 }
    ensures { IfOk result (λ text. IsUpText value.now.num value.now.den (string_bytes text)) }
{
    print_millionths(alloc, ceil_div(value.num * MILLION, value.den))
}

/// So many millionths with six digits after the point.
fn print_millionths(alloc: Global, count: i128) -> Result<String, AllocError>
    ensures { IfOk result (λ text. string_bytes text ≡ six_places count) }
{
    let negative = count < 0;
    let sign = if negative { "-" } else { "" };
    let whole = count.unsigned_abs() / MILLION.unsigned_abs();
    let rest = (count.unsigned_abs() % MILLION.unsigned_abs()) as u32;
    format!(in alloc; "{sign}{whole}.{rest:06}")
}

//! Fractions compared by their whole parts first, and only then by their remainders over a common denominator.

ghost use Rattle.controller.specs.Quotients.{IsAtMostSum, IsNarrow, IsQuotient, most_under};
ghost use Rattle.game_model.specs.Game.{IsWithin};
ghost use Rattle.std.specs.Bool.{IsTrue};
ghost use Rattle.std.specs.Prelude.{pos, unsigned_abs, ◌*ℤ◌, ◌^◌, ◌↔◌, ◌≡◌, ◌≤ℤ◌, ◌≤◌};

use scaled_num::floor_div;

/// A quotient rounded down, what remains, and the divisor.
#[derive(Clone, Copy)]
pub struct Quotient {
    pub whole: i128,
    pub rest: i128,
    pub under: i128,
}

/// The quotient of a number by a divisor of at most 2^20.
pub fn divided(over: i128, under: i128) -> Quotient
    requires over { unsigned_abs over ≤ 2 ^ 120 }
    requires under { IsWithin (pos 1) most_under under }
    ensures { IsQuotient over under result }
{
    let whole = floor_div(over, under);
    Quotient {
        whole,
        rest: over - whole * under,
        under,
    }
}

/// Whether `upper` is at most `lower` and `gap` together: by the whole parts, or where they leave a room of 0 or -1, by
/// the remainders.
pub fn is_at_most_sum(upper: &Quotient, lower: &Quotient, gap: &Quotient) -> bool
    requires upper { IsNarrow upper.now }
    requires lower { IsNarrow lower.now }
    requires gap { IsNarrow gap.now }
    ensures { IsTrue result ↔ IsAtMostSum upper.now lower.now gap.now }
{
    let room = lower.whole + gap.whole - upper.whole;
    if room > 0 {
        return true;
    }
    if room < -1 {
        return false;
    }
    let used = product(upper.rest, lower.under, gap.under);
    let first = product(lower.rest, upper.under, gap.under);
    let second = product(gap.rest, upper.under, lower.under);
    if room > -1 {
        return used <= first + second;
    }
    used + product(upper.under, lower.under, gap.under) <= first + second
}

/// The product of three numbers, each of 0 to 2^20.
fn product(a: i128, b: i128, c: i128) -> i128
    requires a { IsWithin (pos 0) most_under a }
    requires b { IsWithin (pos 0) most_under b }
    requires c { IsWithin (pos 0) most_under c }
    ensures exact { result ≡ a *ℤ (b *ℤ c) }
    ensures small { IsWithin (pos 0) (pos (2 ^ 60)) result }
{
    a * (b * c)
}

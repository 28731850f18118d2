//! Greatest common divisors, and lists divided by one.

ghost use Rattle.belief.specs.Quotients.{quotients};
ghost use Rattle.std.specs.List.{AllByRecursion};
ghost use Rattle.std.specs.Prelude.{pos, unsigned_abs, ◌/◌, ◌<◌, ◌≡◌, ◌≤ℤ◌};

/// The greatest number of a machine word.
const WORD: u128 = 0xFFFF_FFFF_FFFF_FFFF;

/// Divides numbers that are not negative, and rounds down.
pub fn divide(numbers: &mut [i128], divisor: u128)
    requires each { AllByRecursion (λ x. pos 0 ≤ℤ x) numbers.old }
    requires some { 0 < divisor }
    ensures { numbers.new ≡ quotients divisor numbers.old }
{
    if divisor == 1 {
        return;
    }
    for number in numbers.iter_mut() {
        *number = quotient(*number, divisor);
    }
}

/// The quotient rounded down, by a short division where both numbers fit a machine word.
fn quotient(number: i128, divisor: u128) -> i128
    requires number { pos 0 ≤ℤ number }
    requires some { 0 < divisor }
    ensures { result ≡ pos (unsigned_abs number / divisor) }
{
    let number = number as u128;
    if number <= WORD && divisor <= WORD {
        return i128::from(number as u64 / divisor as u64);
    }
    (number / divisor) as i128
}

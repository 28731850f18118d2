ghost use Rattle.std.specs.Prelude.{◌≡◌, ◌^◌, ℕ, pos, ◌≤ℤ◌, unsigned_abs};
ghost use Rattle.std.specs.Int.{◌∣◌};
ghost use Rattle.std.specs.List.{AllByRecursion};
ghost use Rattle.scaled_num.specs.Sums.{sum_of};

use crate::gcd;

/// The sum of numbers that are not negative.
pub fn sum(numbers: &[i128]) -> i128
    requires each { AllByRecursion (λ x. pos 0 ≤ℤ x) numbers.now }
    requires most { sum_of numbers.now ≤ℤ pos (2 ^ 126) }
    ensures { result ≡ sum_of numbers.now }
{
    let mut sum = 0;
    for number in numbers {
        sum += *number;
    }
    sum
}

/// The greatest common divisor of numbers of any sign; 0 where all are 0.
pub fn common_divisor(numbers: &[i128]) -> u128
    ensures divides { AllByRecursion (λ x. result ∣ unsigned_abs x) numbers.now }
    ensures greatest { (d : ℕ) → AllByRecursion (λ x. d ∣ unsigned_abs x) numbers.now → d ∣ result }
{
    let mut divisor = 0;
    for number in numbers {
        divisor = gcd(divisor, number.unsigned_abs());
    }
    divisor
}

//! Places in a list, and fractions in lowest terms.

ghost use Rattle.std.specs.Prelude.{◌≡◌, ◌≢◌, ℕ, ◌<◌, pos, ◌*ℤ◌, ◌<ℤ◌, length, slice_index, IfNone, IfSome};
ghost use Rattle.simplex.specs.Program.{IsNarrow};
ghost use Rattle.simplex.specs.Reading.{IsLowest};

use scaled_num::gcd;

/// The first place of a number in a list.
pub fn place_of(list: &[u32], number: u32) -> Option<usize>
    ensures none { IfNone result ((k : ℕ) → k < length list.now → slice_index list.now k ≢ number) }
    ensures inside { IfSome result (λ place. place < length list.now) }
    ensures there { IfSome result (λ place. slice_index list.now place ≡ number) }
    ensures first { IfSome result (λ place. (k : ℕ) → k < place → slice_index list.now k ≢ number) }
{
    for place in 0..list.len() {
        if list[place] == number {
            return Some(place);
        }
    }
    None
}

/// The fraction in lowest terms.
pub fn lowest(num: i128, den: i128) -> (i128, i128)
    requires positive { pos 0 <ℤ den }
    requires num { IsNarrow num }
    requires den { IsNarrow den }
    ensures lowest { IsLowest result.0 result.1 }
    ensures same { result.0 *ℤ den ≡ num *ℤ result.1 }
{
    let common = gcd(den.unsigned_abs(), num.unsigned_abs()) as i128;
    (num / common, den / common)
}

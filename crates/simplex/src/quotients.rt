//! The row that a pivot leaves, by exact quotients.
//!
//! A quotient is guessed in a word of 64 bits, by the inverse of the divisor modulo 2^64, and tested by a product, so
//! nothing is proved of the inverse. A guess that misses makes the divisor smaller.

ghost use Rattle.std.specs.Prelude.{◌≡◌, ℕ, ◌+◌, ◌*◌, ◌<◌, ◌≤◌, ◌^◌, pos, ◌-ℤ◌, ◌*ℤ◌, ◌<ℤ◌, unsigned_abs, length, IsTrue, IfSome};
ghost use Rattle.simplex.specs.Program.{at, entry_limit, IsNarrow, AllNarrow};
ghost use Rattle.simplex.specs.Elimination.{left_of, ArePivotWords, AreQuotients, IsMade};

use crate::row::{is_wide, product};
use scaled_num::gcd;

/// The greatest magnitude of a narrow number.
const GREATEST: i64 = (1 << 62) - 1;

/// The inverse of an odd number modulo 2^64. Each step doubles how many of its low bits are right, 3 of them at first.
fn inverse(odd: u64) -> u64 {
    let mut found = odd;
    for _ in 0..5 {
        found = found.wrapping_mul(2u64.wrapping_sub(odd.wrapping_mul(found)));
    }
    found
}

/// What the quotient is where nothing is left: `inverse` is that of the divisor without its lowest `shift` bits.
#[inline(always)]
fn guess(value: i128, shift: u32, inverse: u64) -> i64
    requires { shift < 64 }
{
    let low = (value >> shift).cast_unsigned() & u128::from(u64::MAX);
    (low as u64).wrapping_mul(inverse).cast_signed()
}

/// The quotient, where it is narrow and nothing is left. It may miss one that is there.
#[inline(always)]
fn quotient(value: i128, by: i64, shift: u32, inverse: u64) -> Option<i64>
    requires { shift < 64 }
    ensures exact { IfSome result (λ found. by *ℤ found ≡ value) }
    ensures narrow { IfSome result (λ found. IsNarrow found) }
{
    let found = guess(value, shift, inverse);
    if found > GREATEST || found < -GREATEST || word_product(found, by) != value {
        return None;
    }
    Some(found)
}

/// The product of a narrow number and a word.
#[inline(always)]
#[tactic(auto, using(crate::proofs::Short::word_product_small))]
fn word_product(narrow: i64, word: i64) -> i128
    requires { IsNarrow narrow }
    ensures value { result ≡ narrow *ℤ word }
    ensures small { unsigned_abs result < 2 ^ 126 }
{
    i128::from(narrow) * i128::from(word)
}

/// `lead * own - part * word`.
#[inline(always)]
fn difference(lead: i64, own: i64, part: i64, word: i64) -> i128
    requires lead { IsNarrow lead }
    requires part { IsNarrow part }
    ensures { result ≡ lead *ℤ own -ℤ part *ℤ word }
{
    word_product(lead, own) - word_product(part, word)
}

/// The magnitude of what the elimination leaves at a column.
fn size_at(row: &[i128], words: &[i64], lead: i64, part: i64, column: usize) -> u128
    requires column { column < length row.now }
    requires same { length words.now ≡ length row.now }
    requires width { length row.now < 2 ^ 32 }
    requires row { AllNarrow row.now }
    requires lead { IsNarrow lead }
    requires part { IsNarrow part }
    ensures { result ≡ unsigned_abs (left_of lead part row.now words.now column) }
{
    difference(lead, row[column] as i64, part, words[column]).unsigned_abs()
}

/// The greatest magnitude of what has a narrow product with the factor.
#[tactic(auto, using(crate::proofs::Short::beside_narrow))]
fn most_beside(factor: i64) -> i64
    requires { IsNarrow factor }
    ensures narrow { unsigned_abs factor * unsigned_abs result < entry_limit }
    ensures small { IsNarrow result }
{
    (GREATEST.unsigned_abs() / factor.unsigned_abs().max(1)) as i64
}

/// Whether the number is at most this in magnitude.
#[inline(always)]
fn is_within(number: i64, most: i64) -> bool
    requires { IsNarrow most }
    ensures { IsTrue result → unsigned_abs number ≤ unsigned_abs most }
{
    number <= most && -most <= number
}

/// `lead * own - part * word`, where both products are narrow.
#[inline(always)]
#[tactic(auto, using(crate::proofs::Short::narrow_word, crate::proofs::Short::narrow_difference))]
fn short_difference(lead: i64, own: i64, part: i64, word: i64) -> i64
    requires own { IsNarrow (lead *ℤ own) }
    requires word { IsNarrow (part *ℤ word) }
    ensures { result ≡ lead *ℤ own -ℤ part *ℤ word }
{
    lead * own - part * word
}

/// The quotient, where it is at most this in magnitude and nothing is left. It may miss one that is there.
#[inline(always)]
#[tactic(auto, using(crate::proofs::Short::product_word))]
fn short_quotient(value: i64, by: i64, most: i64, shift: u32, inverse: u64) -> Option<i64>
    requires shift { shift < 64 }
    requires small { IsNarrow most }
    requires narrow { unsigned_abs by * unsigned_abs most < entry_limit }
    ensures exact { IfSome result (λ found. by *ℤ found ≡ value) }
    ensures most { IfSome result (λ found. unsigned_abs found ≤ unsigned_abs most) }
{
    let found = (value >> shift)
        .cast_unsigned()
        .wrapping_mul(inverse)
        .cast_signed();
    if !is_within(found, most) || by * found != value {
        return None;
    }
    Some(found)
}

/// Writes the quotients of what the elimination leaves from a column on, while all products on the way are narrow: the
/// column that it comes to.
#[inline(never)]
#[tactic(auto, using(crate::proofs::Short::narrow_beside))]
fn divide_short(
    row: &[i128],
    words: &[i64],
    lead: i64,
    part: i64,
    by: i64,
    from: usize,
    new: &mut [i128],
) -> usize
    requires same { length words.now ≡ length row.now }
    requires room { length new.old ≡ length row.now }
    requires width { length row.now < 2 ^ 32 }
    requires row { AllNarrow row.now }
    requires lead { IsNarrow lead }
    requires part { IsNarrow part }
    requires positive { pos 0 <ℤ by }
    requires narrow { IsNarrow by }
    requires from { from ≤ length row.now }
    requires before { AreQuotients lead part row.now words.now by from new.old }
    ensures inside { result ≤ length row.now }
    ensures done { AreQuotients lead part row.now words.now by result new.new }
{
    let shift = by.trailing_zeros() % 64;
    let inverse = inverse(by.unsigned_abs() >> shift);
    let own_most = most_beside(lead);
    let word_most = most_beside(part);
    let most = most_beside(by);
    for column in from..row.len() {
        let own = row[column] as i64;
        let word = words[column];
        if !is_within(own, own_most) || !is_within(word, word_most) {
            return column;
        }
        let left = short_difference(lead, own, part, word);
        let Some(found) = short_quotient(left, by, most, shift, inverse) else {
            return column;
        };
        new[column] = i128::from(found);
    }
    row.len()
}

/// Writes the quotients of what the elimination leaves from a column on, until one is missed: its column, or the width.
#[inline(never)]
fn divide_long(
    row: &[i128],
    words: &[i64],
    lead: i64,
    part: i64,
    by: i64,
    from: usize,
    new: &mut [i128],
) -> usize
    requires same { length words.now ≡ length row.now }
    requires room { length new.old ≡ length row.now }
    requires width { length row.now < 2 ^ 32 }
    requires row { AllNarrow row.now }
    requires lead { IsNarrow lead }
    requires part { IsNarrow part }
    requires positive { pos 0 <ℤ by }
    requires narrow { IsNarrow by }
    requires from { from ≤ length row.now }
    requires before { AreQuotients lead part row.now words.now by from new.old }
    ensures inside { result ≤ length row.now }
    ensures done { AreQuotients lead part row.now words.now by result new.new }
{
    let shift = by.trailing_zeros() % 64;
    let inverse = inverse(by.unsigned_abs() >> shift);
    for column in from..row.len() {
        let left = difference(lead, row[column] as i64, part, words[column]);
        let Some(found) = quotient(left, by, shift, inverse) else {
            return column;
        };
        new[column] = i128::from(found);
    }
    row.len()
}

/// Writes the quotients of what the elimination leaves from a column on, until one is missed: its column, or the width.
fn divide(
    row: &[i128],
    words: &[i64],
    lead: i64,
    part: i64,
    by: i64,
    from: usize,
    new: &mut [i128],
) -> usize
    requires same { length words.now ≡ length row.now }
    requires room { length new.old ≡ length row.now }
    requires width { length row.now < 2 ^ 32 }
    requires row { AllNarrow row.now }
    requires lead { IsNarrow lead }
    requires part { IsNarrow part }
    requires positive { pos 0 <ℤ by }
    requires narrow { IsNarrow by }
    requires from { from ≤ length row.now }
    requires before { AreQuotients lead part row.now words.now by from new.old }
    ensures inside { result ≤ length row.now }
    ensures done { AreQuotients lead part row.now words.now by result new.new }
{
    let column = divide_short(row, words, lead, part, by, from, new);
    divide_long(row, words, lead, part, by, column, new)
}

/// Multiplies the first numbers, where the products are narrow. It gives up at one that is not.
fn scale(numbers: &mut [i128], count: usize, factor: i128) -> bool
    requires count { count ≤ length numbers.old }
    requires width { length numbers.old < 2 ^ 32 }
    requires factor { IsNarrow factor }
    requires narrow { (k : ℕ) → k < count → IsNarrow (at numbers.old k) }
    ensures done { IsTrue result → (k : ℕ) → k < count → at numbers.new k ≡ factor *ℤ at numbers.old k }
    ensures narrow { IsTrue result → (k : ℕ) → k < count → IsNarrow (at numbers.new k) }
{
    for place in 0..count {
        let value = product(factor, numbers[place]);
        if is_wide(value) {
            return false;
        }
        numbers[place] = value;
    }
    true
}

/// Writes the pivot row in words, as it is taken from the other rows: nothing stands at the lead, and the lead is added
/// at the entering column, where a row's own part falls away.
pub fn fill_words(pivot: &[i128], place: usize, words: &mut [i64])
    requires place { place + 2 < length pivot.now }
    requires room { length words.old ≡ length pivot.now }
    requires width { length pivot.now < 2 ^ 32 }
    requires pivot { AllNarrow pivot.now }
    ensures { ArePivotWords pivot.now place words.new }
{
    for column in 0..pivot.len() {
        words[column] = pivot[column] as i64;
    }
    words[place + 2] = pivot[place + 2] as i64 + pivot[0] as i64;
    words[0] = 0;
}

/// Writes the row that the pivot leaves, where its numbers are narrow. It may give up.
pub fn quick_row(
    row: &[i128],
    pivot: &[i128],
    words: &[i64],
    place: usize,
    new: &mut [i128],
) -> bool
    requires place { place + 2 < length row.now }
    requires same { length pivot.now ≡ length row.now }
    requires room { length new.old ≡ length row.now }
    requires width { length row.now < 2 ^ 32 }
    requires row { AllNarrow row.now }
    requires pivot { AllNarrow pivot.now }
    requires words { ArePivotWords pivot.now place words.now }
    requires lead { pos 0 <ℤ (at row.now 0) }
    requires pivot_lead { pos 0 <ℤ (at pivot.now (place + 2)) }
    ensures { IsTrue result → IsMade row.now pivot.now place new.new }
{
    let lead = pivot[place + 2] as i64;
    let part = row[place + 2] as i64;
    let ends = size_at(row, words, lead, part, place + 2);
    let mut common = gcd(size_at(row, words, lead, part, 0), ends);
    let mut column = 0;
    for _ in 0..64 {
        if common >= 1 << 62 {
            return false;
        }
        column = divide(row, words, lead, part, common as i64, column, new);
        if column == row.len() {
            return true;
        }
        let less = gcd(common, size_at(row, words, lead, part, column));
        if less == common || !scale(new, column, (common / less) as i128) {
            return false;
        }
        common = less;
    }
    false
}

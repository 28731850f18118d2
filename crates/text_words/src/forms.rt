//! Lines of a word and numbers, and the limits of numbers.
ghost use Rattle.std.specs.Prelude.{◌≡◌, ◌==◌, ◌<◌, length, IfOk, OnOk, All, pos, ◌≤ℤ◌};
ghost use Rattle.text_words.specs.Fault.{Fills, Gives};
ghost use Rattle.text_words.specs.Forms.{begins, numbers_said, numbers_after, is_within, limited, below_limit, each_within};
ghost use Rattle.text_words.specs.Lines.{words_behind, words_of};

use crate::fault::LineFault;
use crate::lines::{are_behind, first_word};
use crate::numbers::number;
use std::alloc::Global;

/// Reads the numbers of the words behind the first one of a line, just as many words as there is room for. A word that
/// is no number word is refused for the kind that is given.
#[tactic(auto, unfolding(crate::specs::Forms::numbers_said))]
fn fill<K: Copy>(other: K, behind: Option<&[u8]>, numbers: &mut [i128]) -> Result<(), K>
    requires { length (words_behind behind) ≡ length numbers.old }
    ensures said { Fills result numbers.new (numbers_said other (words_behind behind.entry)) }
    ensures count { length numbers.new ≡ length numbers.old }
{
    let mut rest = behind;
    let mut i = 0;
    while let Some(line) = rest {
        let (word, after) = first_word(line);
        let Some(number) = number(word) else {
            return Err(other);
        };
        numbers[i] = number;
        i += 1;
        rest = after;
    }
    Ok(())
}

/// Reads the numbers of a line that is this word and as many numbers as there is room for. Another line is refused for
/// the kind `shape`, and a word that is no number for the kind `other`; then any numbers may stand in the room.
#[tactic(auto, unfolding(crate::specs::Forms::numbers_after))]
pub fn read_numbers<K: Copy>(
    shape: K,
    other: K,
    line: &[u8],
    name: &[u8],
    numbers: &mut [i128],
) -> Result<(), K>
    ensures said { Fills result numbers.new
        (numbers_after shape other name.now (length numbers.old) (words_of line.now)) }
    ensures count { length numbers.new ≡ length numbers.old }
{
    let (first, behind) = first_word(line);
    if first != name || !are_behind(behind, numbers.len()) {
        return Err(shape);
    }
    fill(other, behind, numbers)
}

/// The numbers of a line that is this word and so many numbers. Another line is refused for the kind `shape`, and a
/// word that is no number for the kind `other`.
pub fn numbers_after<K: Copy>(
    alloc: Global,
    shape: K,
    other: K,
    line: &[u8],
    name: &[u8],
    count: usize,
) -> Result<Vec<i128>, LineFault<K>>
    ensures gives { Gives (λ numbers. numbers.items) result
        (numbers_after shape other name.now count (words_of line.now)) }
    ensures count { IfOk result (λ numbers. length numbers.items ≡ count) }
{
    let mut numbers = vec![in alloc; 0; count]?;
    match read_numbers(shape, other, line, name, &mut numbers) {
        Ok(()) => Ok(numbers),
        Err(kind) => Err(LineFault::Refused(kind)),
    }
}

/// Whether the line begins with this word.
pub fn begins(name: &[u8], line: &[u8]) -> bool
    ensures { result ≡ begins name.now (words_of line.now) }
{
    let (first, _) = first_word(line);
    first == name
}

/// Whether a number is at least `low` and at most `high`.
pub fn is_within(low: i128, high: i128, number: i128) -> bool
    ensures { result ≡ is_within low high number }
{
    low <= number && number <= high
}

/// A number in its limits, else the fault that is given.
#[tactic(auto, unfolding(crate::specs::Forms::limited))]
pub fn limited<K: Copy>(range: K, low: i128, high: i128, number: i128) -> Result<i128, K>
    ensures value { result ≡ limited range low high number }
    ensures least { IfOk result (λ n. low ≤ℤ n) }
    ensures most { IfOk result (λ n. n ≤ℤ high) }
{
    if !is_within(low, high, number) {
        return Err(range);
    }
    Ok(number)
}

/// A number from 0 that is below a limit, else the fault that is given.
#[tactic(auto, unfolding(crate::specs::Forms::below_limit))]
pub fn below_limit<K: Copy>(range: K, limit: u32, number: i128) -> Result<u32, K>
    ensures value { result ≡ below_limit range limit number }
    ensures less { IfOk result (λ n. n < limit) }
{
    if number < 0 || number >= i128::from(limit) {
        return Err(range);
    }
    Ok(number as u32)
}

/// Each number is in its limits, else the fault that is given.
#[tactic(auto, unfolding(crate::specs::Forms::each_within))]
pub fn each_within<K: Copy>(range: K, low: i128, high: i128, numbers: &[i128]) -> Result<(), K>
    ensures kind { result ≡ each_within range low high numbers.now }
    ensures small { OnOk result (All (λ n. (low ≤ℤ n) × (n ≤ℤ high)) numbers.now) }
{
    if !numbers.iter().all(|number| is_within(low, high, *number)) {
        return Err(range);
    }
    Ok(())
}

//! Lines written into a text: a first word, and numbers.
ghost use Rattle.std.specs.Fmt.{signed_decimal};
ghost use Rattle.std.specs.Prelude.{OnOk, flat_map, ◌++◌, ◌∷◌, ◌≡◌};
ghost use Rattle.std.specs.String.{string_bytes};
ghost use Rattle.text_words.specs.Spelled.{line_of};

use std::alloc::AllocError;

/// Writes numbers, a space before each.
fn numbers(text: &mut String, numbers: &[i128]) -> Result<(), AllocError>
    ensures { OnOk result
        (string_bytes text.new ≡ string_bytes text.old ++ flat_map (λ z. 32 ∷ signed_decimal z) numbers.now) }
{
    for number in numbers {
        write!(text, " {number}")?;
    }
    Ok(())
}

/// Writes a line: its first word, and its numbers.
///
/// # Errors
///
/// Where no memory is to be had. A front of the line may then stand in the text.
pub fn write_line(text: &mut String, name: &str, members: &[i128]) -> Result<(), AllocError>
    ensures { OnOk result (string_bytes text.new ≡ string_bytes text.old ++ line_of name.now members.now) }
{
    text.push_str(name)?;
    numbers(text, members)?;
    text.push('\n')
}

//! What is wrong with a line or a text of a game.
ghost use Rattle.std.specs.Prelude.{◌≡◌, Ok, Err, MatchResult};
ghost use Rattle.text_words.specs.declared.fault.LineFault.TheVariants.{Refused};
ghost use Rattle.game_text.specs.declared.fault.TextFault.TheVariants as texts;
ghost use Rattle.game_text.specs.Fault.{at_line, number_of_kind};

use std::alloc::{AllocError, AllocFailed};
use text_words::LineFault;
use thiserror::Error;

/// What is wrong with a line. The least kind that applies is reported.
#[derive(Clone, Copy, Debug, PartialEq, Eq)]
pub enum Kind {
    /// The first line is not `osposg 1`.
    Version,
    /// The first word or the number of words is of no form that is due.
    Shape,
    /// A word is no number where a number is due.
    Number,
    /// A number is outside its limits.
    Range,
    /// A `step` line's triple is not the next one, or an `out` line's pair is not greater than the one before.
    Order,
    /// A row's sum goes above the row total, or ends below it.
    Total,
    /// The total of the first belief is outside its limits.
    Belief,
    /// A reward breaks the width rule.
    Wide,
    /// A line that is due is not there, or not whole.
    Missing,
    /// Bytes follow the `end` line of a text that is read alone.
    Trailing,
}

impl Kind {
    /// The number of the kind, 1 to 10.
    pub fn number(self) -> u32
        ensures { result ≡ number_of_kind self }
    {
        match self {
            Kind::Version => 1,
            Kind::Shape => 2,
            Kind::Number => 3,
            Kind::Range => 4,
            Kind::Order => 5,
            Kind::Total => 6,
            Kind::Belief => 7,
            Kind::Wide => 8,
            Kind::Missing => 9,
            Kind::Trailing => 10,
        }
    }
}

impl From<Kind> for LineFault<Kind> {
    ghost from_gives = { λ kind fault. fault ≡ Refused kind };

    fn from(kind: Kind) -> Self {
        LineFault::Refused(kind)
    }
}

/// Why a text could not be read.
#[derive(Clone, Copy, Debug, Drop, Error, PartialEq, Eq)]
pub enum TextFault {
    /// The first refused line, counted from 1, and its least kind.
    #[error("line {line}: {kind:?}")]
    Line { line: u32, kind: Kind },
    /// There was not enough memory.
    #[error("out of memory")]
    OutOfMemory,
}

impl From<AllocError> for TextFault {
    ghost from_gives = { λ _ fault. fault ≡ texts.OutOfMemory };

    fn from(_: AllocError) -> Self {
        TextFault::OutOfMemory
    }
}

impl<T: Drop> From<AllocFailed<T>> for TextFault {
    ghost from_gives = { λ _ fault. fault ≡ texts.OutOfMemory };

    fn from(_: AllocFailed<T>) -> Self {
        TextFault::OutOfMemory
    }
}

/// What was read of a line of this number.
pub fn numbered<T>(read: Result<T, LineFault<Kind>>, line: u32) -> Result<T, TextFault>
    ensures { MatchResult read (λ value. result ≡ Ok value) (λ fault. result ≡ Err (at_line fault line)) }
{
    match read {
        Ok(value) => Ok(value),
        Err(LineFault::Refused(kind)) => Err(TextFault::Line { line, kind }),
        Err(LineFault::OutOfMemory) => Err(TextFault::OutOfMemory),
    }
}

//! What is wrong with a line or a text of a certificate.
ghost use Rattle.std.specs.Prelude.{◌≡◌, Ok, Err, MatchResult};
ghost use Rattle.text_words.specs.declared.fault.LineFault.TheVariants.{Refused};
ghost use Rattle.cert_text.specs.declared.fault.CertFault.TheVariants as certs;
ghost use Rattle.cert_text.specs.Fault.{at_line, number_of_kind};

use std::alloc::{AllocError, AllocFailed};
use text_words::LineFault;
use thiserror::Error;

/// What is wrong with a line. The least kind that applies is reported.
#[derive(Clone, Copy, Debug, PartialEq, Eq)]
pub enum CertKind {
    /// The first line is neither `certificate 1` nor `certificate 2`.
    Version,
    /// The first word, the number of words or the outcome is of no form that is due.
    Shape,
    /// A word is no number, or no fraction, where one is due.
    Number,
    /// A number is outside its limits.
    Range,
    /// A node, a point or a state is not the next one, or a branch or a start is not greater than the one before.
    Order,
    /// A node or a point is named that is not there.
    Index,
    /// Weights do not sum to what they must reach, or those of a belief or of starts are not coprime, or a text of
    /// version 2 has one start node and one start point.
    Total,
    /// Bytes follow the `end` line.
    Trailing,
    /// There are more than 1,024 nodes or points.
    Full,
    /// A line that is due is not there, or not whole.
    Missing,
}

impl CertKind {
    /// The number of the kind, 1 to 10.
    pub fn number(self) -> u32
        ensures { result ≡ number_of_kind self }
    {
        match self {
            CertKind::Version => 1,
            CertKind::Shape => 2,
            CertKind::Number => 3,
            CertKind::Range => 4,
            CertKind::Order => 5,
            CertKind::Index => 6,
            CertKind::Total => 7,
            CertKind::Trailing => 8,
            CertKind::Full => 9,
            CertKind::Missing => 10,
        }
    }
}

impl From<CertKind> for LineFault<CertKind> {
    ghost from_gives = { λ kind fault. fault ≡ Refused kind };

    fn from(kind: CertKind) -> Self {
        LineFault::Refused(kind)
    }
}

/// Why a certificate text could not be read.
#[derive(Clone, Copy, Debug, Drop, Error, PartialEq, Eq)]
pub enum CertFault {
    /// The first refused line, counted from 1, and its least kind.
    #[error("line {line}: {kind:?}")]
    Line { line: u32, kind: CertKind },
    /// There was not enough memory.
    #[error("out of memory")]
    OutOfMemory,
}

impl From<AllocError> for CertFault {
    ghost from_gives = { λ _ fault. fault ≡ certs.OutOfMemory };

    fn from(_: AllocError) -> Self {
        CertFault::OutOfMemory
    }
}

impl<T: Drop> From<AllocFailed<T>> for CertFault {
    ghost from_gives = { λ _ fault. fault ≡ certs.OutOfMemory };

    fn from(_: AllocFailed<T>) -> Self {
        CertFault::OutOfMemory
    }
}

/// What was read of a line of this number.
pub fn numbered<T>(read: Result<T, LineFault<CertKind>>, line: u32) -> Result<T, CertFault>
    ensures { MatchResult read (λ value. result ≡ Ok value) (λ fault. result ≡ Err (at_line fault line)) }
{
    match read {
        Ok(value) => Ok(value),
        Err(LineFault::Refused(kind)) => Err(CertFault::Line { line, kind }),
        Err(LineFault::OutOfMemory) => Err(CertFault::OutOfMemory),
    }
}

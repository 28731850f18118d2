//! Why a line could not be read, by the kinds of fault of its reader.
ghost use Rattle.std.specs.Prelude.{◌≡◌};
ghost use Rattle.text_words.specs.declared.fault.LineFault.TheVariants.{OutOfMemory};

use std::alloc::{AllocError, AllocFailed};

/// Why a line could not be read. `K` is the reader's own kind of fault.
#[derive(Clone, Copy, Debug, PartialEq, Eq)]
pub enum LineFault<K> {
    /// This is wrong with it.
    Refused(K),
    /// There was not enough memory.
    OutOfMemory,
}

impl<K> From<AllocError> for LineFault<K> {
    ghost from_gives = { λ _ fault. fault ≡ OutOfMemory };

    fn from(_: AllocError) -> Self {
        LineFault::OutOfMemory
    }
}

impl<K, T: Drop> From<AllocFailed<T>> for LineFault<K> {
    ghost from_gives = { λ _ fault. fault ≡ OutOfMemory };

    fn from(_: AllocFailed<T>) -> Self {
        LineFault::OutOfMemory
    }
}

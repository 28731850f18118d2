//! What a command answers.
use crate::status::Status;

/// A status with the text that is to be written.
#[derive(Drop)]
pub struct Answer {
    /// How the run ends, where the text is written whole.
    pub status: Status,
    /// The whole text.
    pub text: Vec<u8>,
}

/// A part of the input as the value that it spells, or the answer that refuses it.
pub type Given<T> = Result<T, Answer>;

//! How a run ends.
ghost use Rattle.osposg_cli.specs.Codes.{code_of};
ghost use Rattle.std.specs.Prelude.{◌≡◌};

/// How a run ended.
#[derive(Clone, Copy, Debug, PartialEq, Eq)]
pub enum Status {
    /// The answer was written.
    Done,
    /// The certificate does not stand; the first place that fails was written.
    No,
    /// The certificate that a search made was written, and its bounds are not within the tolerance.
    Open,
    /// The game text is refused; the line and the kind were written.
    GameRefused,
    /// The certificate text is refused; the line and the kind were written.
    CertRefused,
    /// The words name no command.
    WordsRefused,
    /// The source failed; nothing was written.
    ReadFault,
    /// The sink failed; a front of the text was written.
    WriteFault,
    /// No memory was to be had; nothing was written.
    OutOfMemory,
    /// The input has more than 2^26 bytes; nothing was written.
    TooLong,
}

impl Status {
    /// The program's exit code.
    pub fn code(self) -> u8
        ensures { result ≡ code_of self }
    {
        match self {
            Status::Done => 0,
            Status::No => 1,
            Status::Open => 2,
            Status::GameRefused => 3,
            Status::CertRefused => 4,
            Status::WordsRefused => 5,
            Status::ReadFault => 6,
            Status::WriteFault => 7,
            Status::OutOfMemory => 8,
            Status::TooLong => 9,
        }
    }
}

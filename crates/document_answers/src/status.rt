ghost use Rattle.std.specs.Prelude.{◌≡◌};
ghost use Rattle.document_answers.specs.Answers.{status_number};

use text_tokens::Refusal;

/// How a command ended.
#[derive(Clone, Copy, Debug, PartialEq, Eq)]
pub enum Status {
    /// The whole text was written.
    Done,
    /// The words are no command.
    Words,
    /// The document has a fault.
    Refused(Refusal),
    /// A read failed.
    ReadFault,
    /// A write failed.
    WriteFault,
    /// There was not enough memory.
    NoMemory,
    /// The journal differs from a run at this place, counted from 0.
    Differs(u32),
}

impl Status {
    /// The number with which the program ends.
    pub fn number(self) -> u8
        ensures { result ≡ status_number self }
    {
        match self {
            Status::Done => 0,
            Status::Words => 2,
            Status::Refused(_) => 3,
            Status::ReadFault => 4,
            Status::WriteFault => 5,
            Status::NoMemory => 6,
            Status::Differs(_) => 7,
        }
    }
}

//! Why a text is refused.

ghost use Rattle.std.specs.Prelude.{◌≡◌};
ghost use Rattle.text_tokens.specs.declared.refusal.ReadRefusal.TheVariants.{NoMemory, Refused};
ghost use Rattle.text_tokens.specs.Kinds as kinds;

use std::alloc::{AllocError, AllocFailed};

/// What is wrong with a text.
#[derive(Clone, Copy, Debug, PartialEq, Eq)]
pub enum RefusalKind {
    /// A byte that is no blank and begins no token.
    BadByte,
    /// A word of more than 24 bytes, or a number of more than 9 digits.
    WordTooLong,
    /// A token that the grammar does not have there.
    Unexpected,
    /// A word or sign that opens a level past the deepest one.
    TooDeep,
    /// A token with which a limit on counts or sums is passed.
    TooMany,
    /// The text ends where a token is needed.
    Truncated,
    /// A name that is used and neither declared nor bound there.
    UnknownName,
    /// A name that is declared or bound a second time.
    TwiceNamed,
    /// A variable where a bound name is needed, or the reverse.
    WrongType,
    /// A number out of its range.
    BadRange,
    /// A number that names no amoebot, or no caller with a list.
    BadId,
    /// A part of an amoebot that lies outside the area.
    OutOfBox,
    /// Two amoebots on one node.
    Overlap,
    /// An amoebot whose head and tail are not adjacent.
    NotAdjacent,
    /// A value above the largest of its variable.
    BadValue,
    /// A token behind a complete document.
    Trailing,
    /// The word of a section that may not stand there.
    WrongSection,
    /// An entry that names a caller, turn, amoebot or action that there is not.
    BadEntry,
    /// An entry whose place is not the number of entries before it.
    BadPlace,
    /// More bytes than are read.
    TooLong,
    /// A wall outside the area, or one that stands there already.
    BadWall,
    /// An amoebot with its head or its tail on a wall.
    OnWall,
    /// A program that is not the erosion program.
    NotErosion,
    /// A shape from which erosion may not start.
    BadStart,
}

impl RefusalKind {
    /// The number of the kind.
    #[tactic(auto, unfolding(crate::specs::Kinds::kind_number))]
    pub fn number(self) -> u8
        ensures { result ≡ kinds.kind_number self }
    {
        match self {
            RefusalKind::BadByte => 1,
            RefusalKind::WordTooLong => 2,
            RefusalKind::Unexpected => 3,
            RefusalKind::TooDeep => 4,
            RefusalKind::TooMany => 5,
            RefusalKind::Truncated => 6,
            RefusalKind::UnknownName => 7,
            RefusalKind::TwiceNamed => 8,
            RefusalKind::WrongType => 9,
            RefusalKind::BadRange => 10,
            RefusalKind::BadId => 11,
            RefusalKind::OutOfBox => 12,
            RefusalKind::Overlap => 13,
            RefusalKind::NotAdjacent => 14,
            RefusalKind::BadValue => 15,
            RefusalKind::Trailing => 16,
            RefusalKind::WrongSection => 17,
            RefusalKind::BadEntry => 18,
            RefusalKind::BadPlace => 19,
            RefusalKind::TooLong => 20,
            RefusalKind::BadWall => 22,
            RefusalKind::OnWall => 23,
            RefusalKind::NotErosion => 24,
            RefusalKind::BadStart => 25,
        }
    }

    /// The name of the kind, as a refusal is printed.
    #[tactic(auto, unfolding(crate::specs::Kinds::name))]
    pub fn name(self) -> &'static str
        ensures { result.now ≡ kinds.name self }
    {
        match self {
            RefusalKind::BadByte => "BadByte",
            RefusalKind::WordTooLong => "WordTooLong",
            RefusalKind::Unexpected => "Unexpected",
            RefusalKind::TooDeep => "TooDeep",
            RefusalKind::TooMany => "TooMany",
            RefusalKind::Truncated => "Truncated",
            RefusalKind::UnknownName => "UnknownName",
            RefusalKind::TwiceNamed => "TwiceNamed",
            RefusalKind::WrongType => "WrongType",
            RefusalKind::BadRange => "BadRange",
            RefusalKind::BadId => "BadId",
            RefusalKind::OutOfBox => "OutOfBox",
            RefusalKind::Overlap => "Overlap",
            RefusalKind::NotAdjacent => "NotAdjacent",
            RefusalKind::BadValue => "BadValue",
            RefusalKind::Trailing => "Trailing",
            RefusalKind::WrongSection => "WrongSection",
            RefusalKind::BadEntry => "BadEntry",
            RefusalKind::BadPlace => "BadPlace",
            RefusalKind::TooLong => "TooLong",
            RefusalKind::BadWall => "BadWall",
            RefusalKind::OnWall => "OnWall",
            RefusalKind::NotErosion => "NotErosion",
            RefusalKind::BadStart => "BadStart",
        }
    }
}

/// What is wrong with a text, and on which line. Lines count from 1; line 0 is the text as a whole.
#[derive(Clone, Copy, Debug, PartialEq, Eq)]
pub struct Refusal {
    pub line: u32,
    pub kind: RefusalKind,
}

/// Why a text was not read.
#[derive(Clone, Copy, Debug, PartialEq, Eq)]
pub enum ReadRefusal {
    /// This is wrong with the text.
    Refused(Refusal),
    /// Memory ran out before the answer was there.
    NoMemory,
}

impl From<Refusal> for ReadRefusal {
    ghost from_gives = { λ r e. e ≡ Refused r };

    fn from(refusal: Refusal) -> ReadRefusal {
        ReadRefusal::Refused(refusal)
    }
}

impl From<AllocError> for ReadRefusal {
    ghost from_gives = { λ _ e. e ≡ NoMemory };

    fn from(_error: AllocError) -> ReadRefusal {
        ReadRefusal::NoMemory
    }
}

impl<T: Drop> From<AllocFailed<T>> for ReadRefusal {
    ghost from_gives = { λ _ e. e ≡ NoMemory };

    fn from(_error: AllocFailed<T>) -> ReadRefusal {
        ReadRefusal::NoMemory
    }
}

//! Names and numbers, each with the line that it stands on.

ghost use Rattle.std.specs.Prelude.{◌≡◌, true};
ghost use Rattle.action_tree.specs.{Views.{name_of}, Words.{is_word}};

use arrayvec::ArrayString;

/// The bytes of a word.
pub type NameText = ArrayString<24>;

/// The most names in force at once.
pub const MOST_NAMES: usize = 4;

/// What a word has in place of its place, until a program gives it one.
pub const NO_PLACE: u8 = 255;

/// A word, and the line that it stands on.
/// Lines count from 1; a word that no text has may have line 0.
/// In a program each name that is used has its place: how many names come before it,
/// of the variables or of the names in force.
#[derive(Clone, Copy)]
pub struct Word {
    pub text: NameText,
    pub line: u32,
    pub place: u8,
}

impl Word {
    /// The word with these bytes, on this line.
    pub fn new(text: &[u8], line: u32) -> Word
        requires { is_word text.now ≡ true }
        ensures { name_of result ≡ record { text = text.now; line = line } }
    {
        let mut copy = ArrayString::new();
        if let Ok(text) = std::str::from_utf8(text) {
            if copy.try_push_str(text).is_err() {
                unreachable!();
            }
        } else {
            unreachable!();
        }
        Word {
            text: copy,
            line,
            place: NO_PLACE,
        }
    }
}

/// A number, and the line that it stands on.
#[derive(Clone, Copy)]
pub struct Lit {
    pub value: u32,
    pub line: u32,
}

ghost use Rattle.std.specs.{Prelude.{◌≡◌, ◌∷◌, ◌++◌, [], codes, decimal, OnOk}, Fmt.{signed_decimal}};
ghost use Rattle.text_tokens.specs.Lines.{line_text, LineIsItsTokens, SectionIsItsLines, SmallSections};
ghost use Rattle.text_tokens.specs.Lines.{TextsAddUp};

use crate::room::{put, put_digits};
use itoa::{Buffer, Integer};
use std::alloc::{AllocError, Global};
use std::marker::Model;

/// A text that was made whole. It is seen as its bytes.
#[derive(Drop)]
pub struct Text {
    bytes: Vec<u8>,
}

impl Model for Text {
    ghost use Rattle.std.specs.Prelude.{ℕ, List};

    ghost Value = { List ℕ };

    ghost view = { λ text. text.bytes.items };
}

impl Text {
    /// The bytes of the whole text.
    pub fn bytes(&self) -> &[u8]
        ensures { result.now ≡ self.now }
    {
        self.bytes.as_slice()
    }
}

/// How many bytes of room are made at once.
const ROOM: usize = 1024;

/// A text as it is made, line by line and token by token. It is seen as the bytes so far.
///
/// A line is `begin`, a `word` or a `number` for each further token, and `end`.
/// Where a call finds no memory, the text may end anywhere.
/// A line is put together in the room behind the text, where it stays.
#[derive(Drop)]
pub struct Lines {
    /// The text so far, and room behind it.
    bytes: Vec<u8>,
    /// Where the text so far ends.
    end: usize,
}

impl Model for Lines {
    ghost use Rattle.std.specs.Prelude.{ℕ, List, ◌≤◌, length, take};

    ghost Value = { List ℕ };

    ghost view = { λ lines. take lines.end lines.bytes.items };

    ghost invariant = { λ lines. lines.end ≤ length lines.bytes.items };
}

impl Lines {
    /// No line yet. It takes no memory.
    pub fn new(alloc: Global) -> Lines
        ensures { result ≡ [] }
    {
        Lines {
            bytes: Vec::new(alloc),
            end: 0,
        }
    }

    /// The text of the lines.
    pub fn text(self) -> Text
        ensures { result ≡ self }
    {
        let Lines { mut bytes, end } = self;
        bytes.truncate(end);
        Text { bytes }
    }

    /// The first token of a line.
    pub fn begin(&mut self, word: &str) -> Result<(), AllocError>
        ensures { OnOk result (self.new ≡ self.old ++ word.now) }
    {
        self.add(word.as_bytes())
    }

    /// A further token of a line.
    pub fn word(&mut self, word: &str) -> Result<(), AllocError>
        ensures { OnOk result (self.new ≡ self.old ++ 32 ∷ word.now) }
    {
        self.add(b" ")?;
        self.add(word.as_bytes())
    }

    /// A further token that is a decimal number.
    /// A negative one has a `-` directly before its digits.
    pub fn number<I: Integer + Drop>(&mut self, number: I) -> Result<(), AllocError>
        ensures { OnOk result (self.new ≡ self.old ++ 32 ∷ I.text number) }
    {
        let mut buffer = Buffer::new();
        self.word(buffer.format(number))
    }

    /// The same of a number of at most 64 bits. At most five digits are written where they stay.
    pub fn unsigned(&mut self, number: u64) -> Result<(), AllocError>
        ensures { OnOk result (self.new ≡ self.old ++ 32 ∷ decimal number) }
    {
        let room = self.bytes.len() - self.end;
        if number >= 100_000 || room < 6 {
            return self.copied(number);
        }
        let at = put(self.bytes.as_mut_slice(), self.end, b" ");
        self.end = put_digits(self.bytes.as_mut_slice(), at, number);
        Ok(())
    }

    /// The same of a number that may be negative.
    pub fn signed(&mut self, number: i64) -> Result<(), AllocError>
        ensures { OnOk result (self.new ≡ self.old ++ 32 ∷ signed_decimal number) }
    {
        let size = number.unsigned_abs();
        let room = self.bytes.len() - self.end;
        if size >= 100_000 || room < 7 {
            return self.copied(number);
        }
        let mut at = put(self.bytes.as_mut_slice(), self.end, b" ");
        if number < 0 {
            at = put(self.bytes.as_mut_slice(), at, b"-");
        }
        self.end = put_digits(self.bytes.as_mut_slice(), at, size);
        Ok(())
    }

    /// A number as `number` adds it.
    #[cold]
    fn copied<I: Integer + Drop>(&mut self, number: I) -> Result<(), AllocError>
        ensures { OnOk result (self.new ≡ self.old ++ 32 ∷ I.text number) }
    {
        self.number(number)
    }

    /// The end of a line.
    pub fn end(&mut self) -> Result<(), AllocError>
        ensures { OnOk result (self.new ≡ self.old ++ codes "\n") }
    {
        self.add(b"\n")
    }

    /// The first line of a section, which is its word.
    pub fn open_section(&mut self, word: &str) -> Result<(), AllocError>
        ensures { OnOk result (self.new ≡ self.old ++ line_text (word.now ∷ [])) }
    {
        self.begin(word)?;
        self.end()
    }

    /// The last line of a section.
    pub fn close_section(&mut self) -> Result<(), AllocError>
        ensures { OnOk result (self.new ≡ self.old ++ line_text (codes "end" ∷ [])) }
    {
        self.begin("end")?;
        self.end()
    }

    /// Bytes join the text. They are put into the room, if they fit.
    #[inline(always)]
    fn add(&mut self, bytes: &[u8]) -> Result<(), AllocError>
        ensures { OnOk result (self.new ≡ self.old ++ bytes.now) }
    {
        if self.bytes.len() - self.end < bytes.len() {
            return self.append(bytes);
        }
        self.end = put(self.bytes.as_mut_slice(), self.end, bytes);
        Ok(())
    }

    /// Bytes join the text, however little room there is, and new room is made behind them.
    #[cold]
    fn append(&mut self, bytes: &[u8]) -> Result<(), AllocError>
        ensures { OnOk result (self.new ≡ self.old ++ bytes.now) }
    {
        self.bytes.truncate(self.end);
        self.bytes.extend_from_slice(bytes)?;
        self.end = self.bytes.len();
        self.bytes.extend_from_slice(&[0; ROOM])
    }
}

/// How the texts of tokens, lines and sections add up.
pub fn lines_add_up()
    ensures line { LineIsItsTokens }
    ensures section { SectionIsItsLines }
    ensures both { TextsAddUp }
    ensures examples { SmallSections }
{}

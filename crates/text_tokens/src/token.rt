//! What a token is.

/// What kind of token it is.
#[derive(Clone, Copy, Debug, PartialEq, Eq)]
pub enum TokenKind {
    /// A letter or `_`, and then letters, digits and `_`.
    Word,
    /// Digits.
    Number,
    /// One of `( ) . ; = != < <= > >= + - :=`.
    Sign,
}

/// A token of a text: the bytes `from..to`, which begin on `line`. Lines count from 1.
#[derive(Clone, Copy, Debug, PartialEq, Eq)]
pub struct Token {
    pub kind: TokenKind,
    pub from: u32,
    pub to: u32,
    pub line: u32,
}

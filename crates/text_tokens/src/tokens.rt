//! A cursor over the tokens of a text, which cuts each as it is reached.

ghost use Rattle.std.specs.Prelude.{◌≡◌, ◌<◌, ◌≤◌, ◌+◌, ◌^◌, ℕ, get_or, length, take, drop, IfOk, IfSome};
ghost use Rattle.std.specs.{Prelude.{OnOk, OnErr, List, Ok, Err, true, false}, List.{list_all, prefix_len}};
ghost use Rattle.std.specs.Str.{bytes_eq};
ghost use Rattle.text_tokens.specs.declared.token.TokenKind.TheVariants.{Number, Word};
ghost use Rattle.text_tokens.specs.{declared.token.Token.{Token}, Inside.{HasItsNumber, piece_of}};
ghost use Rattle.text_tokens.specs.Cursor.{AreCut, IsAtFront, IsDigits, IsShort, IsSlice, Spells};
ghost use Rattle.text_tokens.specs.Cursor.{number_value, next_passes, is_the, is_kind, expect};
ghost use Rattle.text_tokens.specs.Text as text;
ghost use Rattle.text_tokens.specs.Scan as scan;
ghost use Rattle.text_tokens.specs.Cursor as cursor;

use crate::refusal::{Refusal, RefusalKind};
use crate::token::{Token, TokenKind};
use std::marker::Model;

/// What stands at the front of a text: the kind of a token, how many bytes it has,
/// and what it stands for if it is a number; or what is wrong there.
#[derive(Clone, Copy)]
struct Lead {
    kind: Result<TokenKind, RefusalKind>,
    value: u32,
    len: usize,
}

impl Lead {
    fn fault(kind: RefusalKind) -> Lead
        ensures is { piece_of result ≡ Err kind }
        ensures stands { (bytes : List ℕ) → HasItsNumber bytes result }
    {
        Lead {
            kind: Err(kind),
            len: 0,
            value: 0,
        }
    }
}

/// The tokens of a text, from left to right.
/// Contracts see the source, the tokens that are ahead,
/// and what is wrong behind the last of them where one more is needed.
#[derive(Drop)]
pub struct Tokens<'a> {
    source: &'a [u8],
    at: usize,
    line: u32,
    /// What stands at `at`. Where the text ends there, it is `Truncated`.
    front: Lead,
}

impl<'a> Model for Tokens<'a> {
    ghost use Rattle.text_tokens.specs.Cursor.{Cursor};

    ghost Value = { Cursor };

    ghost use Rattle.text_tokens.specs.Inside.{cursor_of, IsReady};

    ghost view = { cursor_of };

    ghost invariant = { IsReady };
}

fn is_letter(b: u8) -> bool
    ensures { result ≡ text.is_letter b }
{
    b.is_ascii_alphabetic() || b == b'_'
}

fn is_digit(b: u8) -> bool
    ensures { result ≡ text.is_digit b }
{
    b.is_ascii_digit()
}

fn is_word_byte(b: u8) -> bool
    ensures { result ≡ text.is_word_byte b }
{
    if b.is_ascii_lowercase() {
        true
    } else if b >= b'A' {
        b <= b'Z' || b == b'_'
    } else {
        is_digit(b)
    }
}

/// How many bytes of a word stand at the front.
fn word_len(bytes: &[u8]) -> usize
    ensures { result ≡ prefix_len text.is_word_byte bytes.now }
{
    let mut len = 0;
    while len < bytes.len() && is_word_byte(bytes[len]) {
        len += 1;
    }
    len
}

/// The length of the longest sign at the front, or 0.
#[tactic(auto, unfolding(crate::specs::Scan::sign_len))]
fn sign_len(bytes: &[u8]) -> usize
    ensures { result ≡ scan.sign_len bytes.now }
{
    match bytes {
        [b'!' | b'<' | b'>' | b':', b'=', ..] => 2,
        [
            b'(' | b')' | b'.' | b';' | b'=' | b'<' | b'>' | b'+' | b'-',
            ..
        ] => 1,
        _ => 0,
    }
}

/// How many bytes a token may have.
fn most_bytes(kind: TokenKind) -> usize
    ensures { result ≡ text.most_bytes kind }
{
    match kind {
        TokenKind::Word => 24,
        TokenKind::Number => 9,
        TokenKind::Sign => 2,
    }
}

/// A word of so many bytes, if it may have so many.
fn word(len: usize) -> Lead
    ensures is { piece_of result ≡ scan.sized Word len }
    ensures stands { (bytes : List ℕ) → HasItsNumber bytes result }
{
    if len > most_bytes(TokenKind::Word) {
        return Lead::fault(RefusalKind::WordTooLong);
    }
    Lead {
        kind: Ok(TokenKind::Word),
        len,
        value: 0,
    }
}

/// The number at the front, with what it stands for.
#[inline(always)]
fn leading_number(bytes: &[u8]) -> Lead
    ensures is { piece_of result ≡ scan.sized Number (prefix_len text.is_digit bytes.now) }
    ensures stands { HasItsNumber bytes.now result }
{
    let mut len = 0;
    let mut value: u32 = 0;
    while len < bytes.len() && is_digit(bytes[len]) {
        if len == most_bytes(TokenKind::Number) {
            return Lead::fault(RefusalKind::WordTooLong);
        }
        value = 10 * value + (bytes[len] - b'0') as u32;
        len += 1;
    }
    Lead {
        kind: Ok(TokenKind::Number),
        len,
        value,
    }
}

fn sign(len: usize) -> Lead
    ensures is { piece_of result ≡ scan.sign_of len }
    ensures stands { (bytes : List ℕ) → HasItsNumber bytes result }
{
    if len == 0 {
        return Lead::fault(RefusalKind::BadByte);
    }
    Lead {
        kind: Ok(TokenKind::Sign),
        len,
        value: 0,
    }
}

/// The token at the front, or what is wrong there.
#[tactic(auto, unfolding(crate::specs::Scan::front))]
#[inline(always)]
fn front(bytes: &[u8]) -> Lead
    ensures is { piece_of result ≡ scan.front bytes.now }
    ensures stands { HasItsNumber bytes.now result }
{
    match bytes {
        [] => Lead::fault(RefusalKind::Truncated),
        [b, ..] => {
            if is_letter(*b) {
                word(word_len(bytes))
            } else if is_digit(*b) {
                leading_number(bytes)
            } else {
                sign(sign_len(bytes))
            }
        }
    }
}

/// Where a comment ends, from a place inside it on: at its line feed, or with the text.
fn comment_end(bytes: &[u8], from: usize) -> usize
    requires { from ≤ length bytes.now }
    ensures skipped { (at line : ℕ) → scan.skip true (at + from) line (drop from bytes.now)
        ≡ scan.skip false (at + result) line (drop result bytes.now) }
    ensures behind { from ≤ result }
    ensures within { result ≤ length bytes.now }
{
    let mut at = from;
    while at < bytes.len() && bytes[at] != b'\n' {
        at += 1;
    }
    at
}

/// How many bytes of blanks and comments stand at the front, and the line behind them.
#[inline(always)]
fn skip(bytes: &[u8], line: u32) -> (usize, u32)
    requires { line + length bytes.now < 2 ^ 32 }
    ensures skipped { (at : ℕ) → scan.skip false at line bytes.now
        ≡ record { text = drop result.0 bytes.now; at = at + result.0; line = result.1 } }
    ensures within { result.0 ≤ length bytes.now }
    ensures line { result.1 ≤ line + result.0 }
{
    let mut line_now = line;
    let mut at = 0;
    while at < bytes.len() {
        let b = bytes[at];
        if b == b' ' {
            at += 1;
        } else if b > b'#' {
            return (at, line_now);
        } else {
            match b {
                b'\t' | b'\r' => at += 1,
                b'\n' => {
                    line_now += 1;
                    at += 1;
                }
                b'#' => at = comment_end(bytes, at + 1),
                _ => return (at, line_now),
            }
        }
    }
    (at, line_now)
}

/// Whether one blank stands at this place, and a digit behind it.
#[inline(always)]
fn has_number_behind_blank(source: &[u8], at: usize) -> bool
    requires { at < 2 ^ 32 }
    ensures within { result ≡ true → at + 1 < length source.now }
    ensures blank { result ≡ true → get_or source.now at 0 ≡ 32 }
    ensures digit { result ≡ true → text.is_digit (get_or source.now (at + 1) 0) ≡ true }
{
    at + 1 < source.len() && source[at] == b' ' && is_digit(source[at + 1])
}

/// What digits stand for.
fn decimal(digits: &[u8]) -> u32
    requires digits { list_all text.is_digit digits.now ≡ true }
    requires few { length digits.now ≤ text.most_bytes Number }
    ensures value { result ≡ number_value digits.now }
    ensures small { IsShort result }
{
    let mut value: u32 = 0;
    for digit in digits {
        value = 10 * value + (*digit - b'0') as u32;
    }
    value
}

fn bytes_at(source: &[u8], from: usize, len: usize) -> &[u8]
    requires { from + len ≤ length source.now }
    ensures { result.now ≡ take len (drop from source.now) }
{
    &source[from..from + len]
}

/// A token of this kind and with so many bytes, where it stands.
fn token_at(kind: TokenKind, at: usize, len: usize, line: u32) -> Token
    requires { at + len < 2 ^ 32 }
    ensures { result ≡ record { kind = kind; «from» = at; to = at + len; line = line } }
{
    Token {
        kind,
        from: at as u32,
        to: (at + len) as u32,
        line,
    }
}

/// Whether two texts are the same. Most are short, and differ soon.
#[inline(always)]
pub fn is_same(text: &[u8], other: &[u8]) -> bool
    ensures { result ≡ bytes_eq text.now other.now }
{
    if text.len() != other.len() {
        return false;
    }
    let mut at = 0;
    while at < other.len() {
        if text[at] != other[at] {
            return false;
        }
        at += 1;
    }
    true
}

/// What stands behind the last token: the end, or else a fault.
fn end_or(line: u32, kind: RefusalKind) -> Result<Option<Token>, Refusal>
    ensures { result ≡ cursor.end_or (record { line = line; kind = kind }) kind }
{
    match kind {
        RefusalKind::Truncated => Ok(None),
        _ => Err(Refusal { line, kind }),
    }
}

impl<'a> Tokens<'a> {
    /// The tokens of a text of fewer than 2^32 - 1 bytes.
    pub fn new(bytes: &'a [u8]) -> Tokens<'a>
        requires { text.IsCountable bytes.now }
        ensures { IsAtFront bytes.now result }
    {
        Tokens::at_next(bytes, 0, 1)
    }

    /// Stands at the first token or fault from a place on, which lies on this line.
    #[inline(always)]
    fn at_next(source: &'a [u8], at: usize, line: u32) -> Tokens<'a>
        requires within { at ≤ length source.now }
        requires line { line ≤ at + 1 }
        requires small { text.IsCountable source.now }
        ensures { result ≡ cursor.at_place source.now at line }
    {
        let (blanks, line) = skip(&source[at..], line);
        let at = at + blanks;
        Tokens {
            source,
            at,
            line,
            front: front(&source[at..]),
        }
    }

    /// What `next` answers: it stays the same until a token is taken.
    #[inline(always)]
    pub fn peek(&self) -> Result<Option<Token>, Refusal>
        ensures answer { result ≡ cursor.answer self.now }
        ensures spells { IfOk result (λ found. IfSome found (Spells self.now)) }
    {
        match self.front.kind {
            Ok(kind) => Ok(Some(token_at(kind, self.at, self.front.len, self.line))),
            Err(kind) => end_or(self.line, kind),
        }
    }

    /// The next token, and `None` exactly where the text ends.
    /// A refusal, as `None`, changes nothing, so it comes again.
    #[inline(always)]
    pub fn next(&mut self) -> Result<Option<Token>, Refusal>
        ensures answer { result ≡ cursor.answer self.old }
        ensures moves { self.new ≡ cursor.past_token self.old }
        ensures again { OnErr result (self.new ≡ self.old) }
        ensures spells { IfOk result (λ found. IfSome found (Spells self.old)) }
    {
        let found = self.peek()?;
        if found.is_some() {
            self.skip_token();
        }
        Ok(found)
    }

    /// Moves behind the next token, if there is one.
    /// Most tokens have one blank and a number behind them.
    #[inline(never)]
    fn skip_token(&mut self)
        ensures { self.new ≡ cursor.past_token self.old }
    {
        if let Ok(_kind) = self.front.kind {
            let at = self.at + self.front.len;
            let line = self.line;
            if has_number_behind_blank(self.source, at) {
                self.at = at + 1;
                self.front = leading_number(&self.source[at + 1..]);
            } else {
                self.move_to(at, line);
            }
        }
    }

    /// Moves to the first token or fault from a place on, which lies on this line.
    #[inline(never)]
    fn move_to(&mut self, at: usize, line: u32)
        requires within { at ≤ length self.old.source }
        requires line { line ≤ at + 1 }
        requires small { text.IsCountable self.old.source }
        ensures { self.new ≡ cursor.at_place self.old.source at line }
    {
        *self = Tokens::at_next(self.source, at, line);
    }

    /// The line of the next token, or else the line of the fault or of the end,
    /// where the text ends or goes on with a fault.
    pub fn line(&self) -> u32
        ensures { result ≡ cursor.line_of self.now.ahead self.now.last }
    {
        self.line
    }

    /// The bytes of a token of this text.
    pub fn text(&self, token: &Token) -> &'a [u8]
        requires { IsSlice self.now.source token.now }
        ensures { result.now ≡ cursor.slice self.now.source token.now }
    {
        &self.source[token.from as usize..token.to as usize]
    }

    /// What a number of this text stands for, below 10^9.
    pub fn number(&self, token: &Token) -> u32
        requires { IsDigits self.now.source token.now }
        ensures value { result ≡ number_value (cursor.slice self.now.source token.now) }
        ensures small { IsShort result }
    {
        decimal(self.text(token))
    }

    /// What the next token stands for, if it is a number.
    pub(crate) fn value(&self) -> u32
        ensures value { (t : Token) → expect (is_kind Number) self.now ≡ Ok t
            → result ≡ number_value (cursor.slice self.now.source t) }
        ensures small { IsShort result }
    {
        self.front.value
    }

    /// A refusal of this kind on the line of the next token; where there is none,
    /// what is wrong there, which is `Truncated` where the text ends.
    pub fn refusal(&self, kind: RefusalKind) -> Refusal
        ensures { result ≡ cursor.refusal_at self.now.last kind self.now.ahead }
    {
        match self.front.kind {
            Ok(_) => Refusal {
                line: self.line,
                kind,
            },
            Err(fault) => Refusal {
                line: self.line,
                kind: fault,
            },
        }
    }

    /// The tokens ahead are such as a text can have. It does nothing.
    pub fn are_cut(&self)
        ensures { AreCut self.now.ahead }
    {
        let _ = &self.source;
    }

    /// Nothing where the text ends.
    /// A token is refused for this kind, and a byte that begins none or a word that is too
    /// long for what is wrong with it.
    pub fn end(&self, kind: RefusalKind) -> Result<(), Refusal>
        ensures { result ≡ cursor.at_end kind self.now.last self.now.ahead }
    {
        match self.peek()? {
            Some(_) => Err(self.refusal(kind)),
            None => Ok(()),
        }
    }

    /// Whether the next token is this one, by its kind and its bytes.
    pub fn is_next(&self, kind: TokenKind, text: &[u8]) -> bool
        ensures { result ≡ next_passes (is_the kind text.now) self.now.ahead }
    {
        match self.front.kind {
            Ok(found) => {
                found == kind && is_same(bytes_at(self.source, self.at, self.front.len), text)
            }
            Err(_) => false,
        }
    }

    /// Whether the next token is of this kind.
    pub fn is_next_kind(&self, kind: TokenKind) -> bool
        ensures { result ≡ next_passes (is_kind kind) self.now.ahead }
    {
        match self.front.kind {
            Ok(found) => found == kind,
            Err(_) => false,
        }
    }

    /// The next token, if it is this one, by its kind and its bytes.
    /// Else it is `Unexpected`, or what `refusal` says.
    /// An `Err` changes nothing.
    #[inline(always)]
    pub fn take(&mut self, kind: TokenKind, text: &[u8]) -> Result<Token, Refusal>
        ensures answer { result ≡ expect (is_the kind text.now) self.old }
        ensures moves { OnOk result (self.new ≡ cursor.past_token self.old) }
        ensures again { OnErr result (self.new ≡ self.old) }
        ensures spells { IfOk result (Spells self.old) }
    {
        if !self.is_next(kind, text) {
            return Err(self.refusal(RefusalKind::Unexpected));
        }
        self.take_any()
    }

    /// The next token, if it is of this kind.
    /// Else it is `Unexpected`, or what `refusal` says.
    /// An `Err` changes nothing.
    /// A number that was taken is one for `number`.
    #[inline(always)]
    pub fn take_kind(&mut self, kind: TokenKind) -> Result<Token, Refusal>
        ensures answer { result ≡ expect (is_kind kind) self.old }
        ensures moves { OnOk result (self.new ≡ cursor.past_token self.old) }
        ensures again { OnErr result (self.new ≡ self.old) }
        ensures spells { IfOk result (Spells self.old) }
        ensures number { IfOk result (λ token. kind ≡ Number → IsDigits self.new.source token) }
    {
        if !self.is_next_kind(kind) {
            return Err(self.refusal(RefusalKind::Unexpected));
        }
        self.take_any()
    }

    /// The next token, whichever it is. Where there is none, it is refused as `refusal` says.
    #[inline(always)]
    pub fn take_any(&mut self) -> Result<Token, Refusal>
        ensures answer { result ≡ expect (λ _. true) self.old }
        ensures moves { OnOk result (self.new ≡ cursor.past_token self.old) }
        ensures again { OnErr result (self.new ≡ self.old) }
        ensures spells { IfOk result (Spells self.old) }
    {
        match self.next()? {
            Some(token) => Ok(token),
            None => Err(self.refusal(RefusalKind::Truncated)),
        }
    }
}

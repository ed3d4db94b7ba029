//! What several sections have: numbers, nodes, ends, ports and amoebots.
//! No reader here takes memory, so none answers out of memory.

ghost use Rattle.std.specs.Prelude.{◌≡◌, ◌≢◌, ◌<◌, ◌≤◌, ◌≤ℤ◌, ◌-ℤ◌, pos, length, IfErr, IfOk};
ghost use Rattle.tri_lattice.specs.Lattice.{IsNear};
ghost use Rattle.amoebot_state.specs.{Limits.{most_vars}, Refusals.{IsBotInRange}};
ghost use Rattle.text_tokens.specs.{Steps.{Gives}, declared.refusal.ReadRefusal.TheVariants.{NoMemory}};
ghost use Rattle.shape_text.specs.Parts as spec;
ghost use Rattle.shape_text.specs.PartReaders as reader;

use amoebot_state::{Bot, Chir, End, Port};
use arrayvec::ArrayVec;
use text_tokens::{ReadRefusal, RefusalKind, TokenKind, Tokens, number_up_to, refused, the_line};
use tri_lattice::Node;

/// What a function that reads answers.
pub type Reading<T> = Result<T, ReadRefusal>;

/// How many values an amoebot has room for.
const VALUES: usize = 8;

/// The word that has to stand here, for its line.
pub fn read_word(tokens: &mut Tokens<'_>, text: &[u8]) -> Reading<u32>
    ensures reads { Gives (λ line. line) (reader.a_word text.now) tokens.old result tokens.new }
    ensures sure { IfErr result (λ e. e ≢ NoMemory) }
{
    the_line(tokens, TokenKind::Word, text)
}

/// The word that has to stand here, for its line, where fewer than `most` stand before it.
/// One too many is `TooMany`.
pub fn read_word_within(
    tokens: &mut Tokens<'_>,
    text: &[u8],
    most: u32,
    before: u32,
) -> Reading<u32>
    ensures reads { Gives (λ line. line)
        (reader.word_within text.now most before) tokens.old result tokens.new }
    ensures room { IfOk result (λ _. before < most) }
    ensures sure { IfErr result (λ e. e ≢ NoMemory) }
{
    let token = tokens.take(TokenKind::Word, text)?;
    if before >= most {
        return Err(refused(token.line, RefusalKind::TooMany));
    }
    Ok(token.line)
}

/// A number up to this one. One above is `BadRange`.
pub fn read_up_to(tokens: &mut Tokens<'_>, most: u32) -> Reading<u32>
    ensures reads { Gives (λ n. n) (reader.up_to most) tokens.old result tokens.new }
    ensures within { IfOk result (λ n. n ≤ most) }
    ensures sure { IfErr result (λ e. e ≢ NoMemory) }
{
    number_up_to(tokens, most, RefusalKind::BadRange)
}

/// A whole number, no farther from 0 than `most`. Blanks may stand behind its sign.
pub fn read_int(tokens: &mut Tokens<'_>, most: u16) -> Reading<i16>
    requires { most < 32768 }
    ensures reads { Gives (λ z. z) (reader.an_int most) tokens.old result tokens.new }
    ensures low { IfOk result (λ z. (pos 0 -ℤ pos most) ≤ℤ z) }
    ensures high { IfOk result (λ z. z ≤ℤ pos most) }
    ensures sure { IfErr result (λ e. e ≢ NoMemory) }
{
    if tokens.is_next(TokenKind::Sign, b"-") {
        the_line(tokens, TokenKind::Sign, b"-")?;
        Ok(-(read_up_to(tokens, u32::from(most))? as i16))
    } else {
        Ok(read_up_to(tokens, u32::from(most))? as i16)
    }
}

/// A node by its coordinates, which are no farther than 9,999 from 0.
#[tactic(auto, unfolding(crate::specs::PartReaders::a_node))]
pub fn read_node(tokens: &mut Tokens<'_>) -> Reading<Node>
    ensures reads { Gives (λ v. v) reader.a_node tokens.old result tokens.new }
    ensures near { IfOk result IsNear }
    ensures sure { IfErr result (λ e. e ≢ NoMemory) }
{
    let x = read_int(tokens, 9999)?;
    let y = read_int(tokens, 9999)?;
    Ok(Node { x, y })
}

/// An end of an amoebot.
pub fn read_end(tokens: &mut Tokens<'_>) -> Reading<End>
    ensures reads { Gives (λ e. e) reader.an_end tokens.old result tokens.new }
    ensures sure { IfErr result (λ e. e ≢ NoMemory) }
{
    if tokens.is_next(TokenKind::Word, b"head") {
        read_word(tokens, b"head")?;
        Ok(End::Head)
    } else {
        read_word(tokens, b"tail")?;
        Ok(End::Tail)
    }
}

/// A chirality.
pub fn read_chirality(tokens: &mut Tokens<'_>) -> Reading<Chir>
    ensures reads { Gives (λ c. c) reader.a_chirality tokens.old result tokens.new }
    ensures sure { IfErr result (λ e. e ≢ NoMemory) }
{
    if tokens.is_next(TokenKind::Sign, b"+") {
        the_line(tokens, TokenKind::Sign, b"+")?;
        Ok(Chir::Plus)
    } else {
        the_line(tokens, TokenKind::Sign, b"-")?;
        Ok(Chir::Minus)
    }
}

/// A port, whose direction is 0 to 5.
#[tactic(auto, unfolding(crate::specs::PartReaders::a_port_text))]
pub fn read_port(tokens: &mut Tokens<'_>) -> Reading<Port>
    ensures reads { Gives (λ p. p) reader.a_port_text tokens.old result tokens.new }
    ensures sure { IfErr result (λ e. e ≢ NoMemory) }
{
    let end = read_end(tokens)?;
    let dir = read_up_to(tokens, 5)? as u8;
    Ok(Port { end, dir })
}

/// A value for each variable, of which there are at most 8.
fn read_values(tokens: &mut Tokens<'_>, vars: u8) -> Reading<ArrayVec<u8, VALUES>>
    requires { vars ≤ most_vars }
    ensures reads { Gives (λ values. values.items) (reader.values vars) tokens.old result tokens.new }
    ensures sure { IfErr result (λ e. e ≢ NoMemory) }
{
    let mut values = ArrayVec::new();
    for _variable in 0..vars {
        values.push(read_up_to(tokens, 255)? as u8);
    }
    Ok(values)
}

/// The memory that begins with these values, at most 8, and has 0 past them.
fn memory(values: &[u8]) -> [u8; VALUES]
    requires { length values.now ≤ most_vars }
    ensures { result ≡ spec.memory values.now }
{
    let mut mem = [0; VALUES];
    for (place, value) in values.iter().enumerate() {
        mem[place] = *value;
    }
    mem
}

/// An amoebot with a value for each variable, of which there are at most 8.
#[tactic(auto, unfolding(crate::specs::PartReaders::a_bot))]
pub fn read_bot(tokens: &mut Tokens<'_>, vars: u8) -> Reading<Bot>
    requires { vars ≤ most_vars }
    ensures reads { Gives (λ b. b) (reader.a_bot vars) tokens.old result tokens.new }
    ensures in_range { IfOk result IsBotInRange }
    ensures sure { IfErr result (λ e. e ≢ NoMemory) }
{
    let head = read_node(tokens)?;
    let tail = read_node(tokens)?;
    let rot = read_up_to(tokens, 5)? as u8;
    let chir = read_chirality(tokens)?;
    let values = read_values(tokens, vars)?;
    Ok(Bot {
        head,
        tail,
        rot,
        chir,
        mem: memory(values.as_slice()),
    })
}

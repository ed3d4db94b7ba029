//! Names, numbers, and words of which there are several of one role.

ghost use Rattle.std.specs.Prelude.{◌≡◌, ◌<◌, OnOk};
ghost use Rattle.text_tokens.specs.{Reading.{one}, Steps.{Gives}, Cursor.{next_passes}};
ghost use Rattle.action_tree.specs.Views.{name_of, literal_of, dirterm_of, guard_of, port_of, move_of};
ghost use Rattle.action_tree.specs.Views.{term_of};
ghost use Rattle.action_tree.specs.Roles.{is_a, is_test, is_plus_or_minus, switch_by, end_of_word, atom_by};
ghost use Rattle.action_tree.specs.Roles.{test_by, side_by, port_move_by, cmp_by};
ghost use Rattle.action_tree.specs.Trees as tree;
ghost use Rattle.action_tree.specs.ExpressionReaders as spec;
ghost use Rattle.action_parser.specs.Readings as reading;

use crate::roles::{is_next, token};
use action_tree::{Cmp, DirTerm, Guard, Lit, Move, PortExpr, PortSet, Role, Term, Word};
use amoebot_state::End;
use text_tokens::{ReadRefusal, RefusalKind, Tokens, refused};

/// A token of this role, as its bytes.
pub fn text<'a>(tokens: &mut Tokens<'a>, role: Role) -> Result<&'a [u8], ReadRefusal>
    ensures { Gives (λ w. w.now) (reading.made (one (is_a role)) (λ t. t.text)) tokens.old result tokens.new }
{
    let found = token(tokens, role)?;
    Ok(tokens.text(&found))
}

/// A name.
pub fn name(tokens: &mut Tokens<'_>) -> Result<Word, ReadRefusal>
    ensures { Gives name_of reading.a_name tokens.old result tokens.new }
{
    let found = token(tokens, Role::AName)?;
    Ok(Word::new(tokens.text(&found), found.line))
}

/// A name that is bound, where so many more may be. Without one it is `TooMany`.
pub fn bound_name(tokens: &mut Tokens<'_>, names: u32) -> Result<Word, ReadRefusal>
    ensures reads { Gives name_of (reading.a_bound_name names) tokens.old result tokens.new }
    ensures some { OnOk result (0 < names) }
{
    let found = token(tokens, Role::AName)?;
    if names == 0 {
        return Err(refused(found.line, RefusalKind::TooMany));
    }
    Ok(Word::new(tokens.text(&found), found.line))
}

/// A number.
pub fn literal(tokens: &mut Tokens<'_>) -> Result<Lit, ReadRefusal>
    ensures { Gives literal_of reading.a_literal tokens.old result tokens.new }
{
    let found = token(tokens, Role::ANumber)?;
    Ok(Lit {
        value: tokens.number(&found),
        line: found.line,
    })
}

/// A number, or a name whose value is one, as a direction.
pub fn dirterm(tokens: &mut Tokens<'_>) -> Result<DirTerm, ReadRefusal>
    ensures { Gives dirterm_of reading.a_dirterm tokens.old result tokens.new }
{
    if is_next(tokens, Role::ANumber) {
        Ok(DirTerm::Number(literal(tokens)?))
    } else {
        Ok(DirTerm::Own(name(tokens)?))
    }
}

/// `ports` or `free`.
pub fn port_set(tokens: &mut Tokens<'_>) -> Result<PortSet, ReadRefusal>
    ensures { Gives (λ s. s) reading.a_set tokens.old result tokens.new }
{
    if is_next(tokens, Role::PortsWord) {
        token(tokens, Role::PortsWord)?;
        Ok(PortSet::Ports)
    } else {
        token(tokens, Role::FreeWord)?;
        Ok(PortSet::Free)
    }
}

/// Whether `-` joins, or else `+`.
pub fn joint(tokens: &mut Tokens<'_>) -> Result<bool, ReadRefusal>
    ensures { Gives (λ b. b) reading.a_joint tokens.old result tokens.new }
{
    if is_next(tokens, Role::PlusSign) {
        token(tokens, Role::PlusSign)?;
        Ok(false)
    } else {
        token(tokens, Role::MinusSign)?;
        Ok(true)
    }
}

/// A word with which a test of a port begins.
pub fn test<'a>(tokens: &mut Tokens<'a>) -> Result<&'a [u8], ReadRefusal>
    ensures { Gives (λ w. w.now) (reading.made (one is_test) (λ t. t.text)) tokens.old result tokens.new }
{
    if is_next(tokens, Role::TestWord) {
        text(tokens, Role::TestWord)
    } else {
        text(tokens, Role::FreeWord)
    }
}

/// `head` or `tail`.
pub fn end(tokens: &mut Tokens<'_>) -> Result<End, ReadRefusal>
    ensures { Gives (λ e. e) reading.an_end_word tokens.old result tokens.new }
{
    Ok(end_of(text(tokens, Role::EndWord)?))
}

/// A sign that compares.
pub fn comparison(tokens: &mut Tokens<'_>) -> Result<Cmp, ReadRefusal>
    ensures { Gives (λ c. c) reading.a_cmp tokens.old result tokens.new }
{
    Ok(cmp_of(text(tokens, Role::CompareSign)?))
}

/// Whether movements are guarded: `on` or `off`.
pub fn switch(tokens: &mut Tokens<'_>) -> Result<bool, ReadRefusal>
    ensures { Gives (λ b. b) reading.a_switch tokens.old result tokens.new }
{
    Ok(is_on(text(tokens, Role::SwitchWord)?))
}

fn end_of(word: &[u8]) -> End
    ensures { result ≡ end_of_word word.now }
{
    if word == b"tail".as_slice() {
        End::Tail
    } else {
        End::Head
    }
}

fn cmp_of(sign: &[u8]) -> Cmp
    ensures { result ≡ cmp_by sign.now }
{
    if sign == b"!=".as_slice() {
        Cmp::Ne
    } else if sign == b"<".as_slice() {
        Cmp::Lt
    } else if sign == b"<=".as_slice() {
        Cmp::Le
    } else if sign == b">".as_slice() {
        Cmp::Gt
    } else if sign == b">=".as_slice() {
        Cmp::Ge
    } else {
        Cmp::Eq
    }
}

fn is_on(word: &[u8]) -> bool
    ensures { result ≡ switch_by word.now }
{
    word == b"on".as_slice()
}

/// The guard that this word is.
pub fn atom(word: &[u8]) -> Guard
    ensures { guard_of result ≡ tree.atom (atom_by word.now) }
{
    if word == b"false".as_slice() {
        Guard::False
    } else if word == b"contracted".as_slice() {
        Guard::Contracted
    } else if word == b"expanded".as_slice() {
        Guard::Expanded
    } else {
        Guard::True
    }
}

/// What this word asks of a port.
pub fn tested(word: &[u8], port: PortExpr) -> Guard
    ensures { guard_of result ≡ tree.tested (test_by word.now) (port_of port) }
{
    if word == b"free".as_slice() {
        Guard::Free(port)
    } else if word == b"at_head".as_slice() {
        Guard::AtHead(port)
    } else if word == b"peer_expanded".as_slice() {
        Guard::PeerExpanded(port)
    } else if word == b"peer_head".as_slice() {
        Guard::PeerHead(port)
    } else {
        Guard::Linked(port)
    }
}

/// The direction at a port that this word means.
pub fn direction(word: &[u8], port: PortExpr) -> Term
    ensures { term_of result ≡ tree.direction (side_by word.now) (port_of port) }
{
    if word == b"peer_dir".as_slice() {
        Term::PeerDir(port)
    } else {
        Term::Dir(port)
    }
}

/// The movement through a port that this word means.
pub fn moved_through(word: &[u8], port: PortExpr) -> Move
    ensures { move_of result ≡ tree.through (port_move_by word.now) (port_of port) }
{
    if word == b"push".as_slice() {
        Move::Push(port)
    } else if word == b"pull".as_slice() {
        Move::Pull(port)
    } else {
        Move::Expand(port)
    }
}

/// Whether a minus comes, which is then taken.
#[tactic(auto, unfolding(action_tree::specs::ExpressionReaders::a_minus))]
pub fn minus(tokens: &mut Tokens<'_>) -> Result<bool, ReadRefusal>
    ensures { Gives (λ b. b) spec.a_minus tokens.old result tokens.new }
{
    if !is_next(tokens, Role::MinusSign) {
        return Ok(false);
    }
    token(tokens, Role::MinusSign)?;
    Ok(true)
}

/// Whether a sign comes that joins terms.
pub fn is_joint(tokens: &Tokens<'_>) -> bool
    ensures { result ≡ next_passes is_plus_or_minus tokens.now.ahead }
{
    is_next(tokens, Role::PlusSign) || is_next(tokens, Role::MinusSign)
}

/// The variable behind a port and a dot.
pub fn member(tokens: &mut Tokens<'_>, port: PortExpr) -> Result<Term, ReadRefusal>
    ensures { Gives term_of (spec.member (port_of port)) tokens.old result tokens.new }
{
    token(tokens, Role::DotSign)?;
    let name = name(tokens)?;
    Ok(Term::Of(port, name))
}

/// A variable, or that of the neighbour behind a bound name where a dot comes behind it.
pub fn own_or_member(tokens: &mut Tokens<'_>) -> Result<Term, ReadRefusal>
    ensures { Gives term_of reading.own_or_member tokens.old result tokens.new }
{
    let name = name(tokens)?;
    if is_next(tokens, Role::DotSign) {
        return member(tokens, PortExpr::Name(name));
    }
    Ok(Term::Own(name))
}

//! The words with which the program is called, and what they ask for.

ghost use Rattle.std.specs.Prelude.{◌≡◌, map, codes, option_and_then, true, IfOk, MatchResult, Ok, Some};
ghost use Rattle.std.specs.{Prelude.{None, ◌≢◌}, Char.{is_ascii_digit}, List.{list_all, list_any}};
ghost use Rattle.std.specs.String.{string_bytes};
ghost use Rattle.commands.specs.Words.{are_few_digits, command_of, document_in, documents, number_of};
ghost use Rattle.commands.specs.Words.{rewind_to, shipped, show_in};
ghost use Rattle.commands.specs.Syntax.{begins_with_dash, of_subcommand};
ghost use Rattle.commands.specs.WordLaws.{CommandIsItsWords, SmallWords};
ghost use Rattle.clap.specs.Words.{first_of, found_of, kind_of, rows_of, subcommand_rows_of};

use crate::syntax::words_syntax;
use crate::table::{DOCUMENTS, row_of};
use amoebot_state::NoMemory;
use clap::error::ErrorKind;
use clap::{ArgMatches, Error};
use shipped_programs::Shipped;
use std::alloc::Global;

/// What the program is to do.
#[derive(Clone, Copy, Debug, PartialEq, Eq)]
pub enum Command {
    /// Reads a document, and does something with it.
    Document(DocumentCommand),
    /// Writes a shipped program.
    Show(Shipped),
    /// Runs the sample of a number.
    Sample(u32),
}

/// What is to be done with a document.
#[derive(Clone, Copy, Debug, PartialEq, Eq)]
pub enum DocumentCommand {
    /// Runs its lists.
    Run,
    /// Makes the steps of its schedule, and then rounds.
    Interleave,
    /// Compares its journal and its final shape with a run.
    Replay,
    /// Writes its program in its canonical form.
    Check,
    /// Writes the measures of its last shape.
    Measure,
    /// Writes its journal anew, with the old values of each cell.
    Renew,
    /// Goes back from its final shape to this place of its journal, counted from 0,
    /// and writes the shape there.
    Rewind(u32),
    /// Counts the rounds of its journal.
    Rounds,
    /// Counts the candidates at the end of an election, and tells the leader.
    Elect,
    /// Runs its lists, and no commit waits for another.
    Tickets,
}

/// The most digits of a number.
const MOST_DIGITS: usize = 10;

/// The command that the words are, if they are one: the word of a command that reads a document;
/// `show` and the name of a program; or `sample` or `rewind` and a number,
/// 1 to 10 digits that write a number below 2^32.
/// `NoMemory` may come in place of it, except where a word begins with `-`:
/// such words are no command, and that takes no memory.
pub fn command_of(alloc: Global, words: &[String]) -> Result<Option<Command>, NoMemory>
    ensures command { IfOk result (λ c. c ≡ command_of (map string_bytes words.now)) }
    ensures dash { list_any (λ word. begins_with_dash (string_bytes word)) words.now ≡ true
        → result ≡ Ok None }
{
    if any_begins_with_dash(words) {
        return Ok(None);
    }
    match words_syntax(alloc)?.try_get_matches_from(words) {
        Ok(matches) => Ok(of_matches(&matches)),
        Err(error) => of_fault(&error),
    }
}

/// Whether one of the words begins with `-`.
fn any_begins_with_dash(words: &[String]) -> bool
    ensures { result ≡ list_any (λ word. begins_with_dash (string_bytes word)) words.now }
{
    words.iter().any(|word| begins_with_dash(word.as_str()))
}

fn begins_with_dash(word: &str) -> bool
    ensures { result ≡ begins_with_dash word.now }
{
    word.starts_with('-')
}

/// What comes of words that are not read: no command, unless it was out of memory.
fn of_fault(error: &Error) -> Result<Option<Command>, NoMemory>
    ensures { MatchResult result
        (λ c. (c ≡ None) × (kind_of error.now ≢ ErrorKind.OutOfMemory))
        (λ _. kind_of error.now ≡ ErrorKind.OutOfMemory) }
{
    match error.kind() {
        ErrorKind::OutOfMemory => Err(NoMemory),
        _ => Ok(None),
    }
}

/// The command of the subcommand that was read.
fn of_matches(matches: &ArgMatches<'_>) -> Option<Command>
    ensures { result ≡ of_subcommand (subcommand_rows_of matches.now) }
{
    let (word, arguments) = matches.subcommand()?;
    of_subcommand(word, arguments)
}

fn of_subcommand(word: &str, arguments: &ArgMatches<'_>) -> Option<Command>
    ensures { result ≡ of_subcommand (Some (word.now, rows_of (found_of arguments.now))) }
{
    match word {
        "show" => of_name_in(arguments),
        "sample" => Some(Command::Sample(number_in(arguments)?)),
        "rewind" => Some(rewind_to(number_in(arguments)?)),
        _ => of_word(word),
    }
}

fn of_name_in(arguments: &ArgMatches<'_>) -> Option<Command>
    ensures { result ≡ option_and_then (show_in shipped)
        (first_of (codes "NAME") (rows_of (found_of arguments.now))) }
{
    of_name(arguments.get_str("NAME")?)
}

fn number_in(arguments: &ArgMatches<'_>) -> Option<u32>
    ensures { result ≡ option_and_then number_of
        (first_of (codes "NUMBER") (rows_of (found_of arguments.now))) }
{
    number_of(arguments.get_str("NUMBER")?)
}

fn rewind_to(place: u32) -> Command
    ensures { result ≡ rewind_to place }
{
    Command::Document(DocumentCommand::Rewind(place))
}

fn of_word(word: &str) -> Option<Command>
    ensures { result ≡ document_in documents word.now }
{
    for command in DOCUMENTS {
        if row_of(command).word == word {
            return Some(Command::Document(command));
        }
    }
    None
}

fn of_name(name: &str) -> Option<Command>
    ensures { result ≡ show_in shipped name.now }
{
    match Shipped::named(name) {
        Some(program) => Some(Command::Show(program)),
        None => None,
    }
}

fn number_of(digits: &str) -> Option<u32>
    ensures { result ≡ number_of digits.now }
{
    if !are_few_digits(digits.as_bytes()) {
        return None;
    }
    match digits.parse::<u32>() {
        Ok(number) => Some(number),
        Err(_) => None,
    }
}

fn are_few_digits(bytes: &[u8]) -> bool
    ensures { result ≡ are_few_digits bytes.now }
{
    bytes.len() <= MOST_DIGITS && are_digits(bytes)
}

fn are_digits(bytes: &[u8]) -> bool
    ensures { result ≡ list_all is_ascii_digit bytes.now }
{
    bytes.iter().all(|byte| byte.is_ascii_digit())
}

/// The words are a command exactly where they are its words.
pub fn command_is_its_words()
    ensures { CommandIsItsWords }
{}

/// Words that are commands, and words that are none.
pub fn small_words()
    ensures { SmallWords }
{}

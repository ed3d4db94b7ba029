//! The command `elect`: the candidates and the leader at the end of an election.

ghost use Rattle.std.specs.Prelude.{◌≡◌, ◌≢◌, ◌<◌, length, IfOk, IfErr, IfSome, MatchResult, OnOk, ◌∷◌, ◌++◌};
ghost use Rattle.std.specs.{Prelude.{[], codes, None}, List.{All}};
ghost use Rattle.serial_model.specs.Replays.{AreCountable};
ghost use Rattle.shape_checks.specs.Values.{value_count};
ghost use Rattle.action_meaning.specs.Verdicts.{verdict_shown};
ghost use Rattle.election_law.specs.Elections.{cand_var, leader_of};
ghost use Rattle.shape_files.specs.{Fitting.{Fits}, Views.{contents}};
ghost use Rattle.document_answers.specs.Journals.{AgreesIn, DiffersAt, EntriesOutcome, differs_line};
ghost use Rattle.document_answers.specs.Answers.{refusal_line, IsAnswerOf, with_text};
ghost use Rattle.commands.specs.{Commands.{form_of}, Lines.{bad_start}};
ghost use Rattle.commands.specs.Elect.{election_text, leader_word, ElectOutcome, elected_text};
ghost use Rattle.commands.specs.ElectLaws.{ElectEndsAsReplay, ElectionsAreWon};
ghost use Rattle.text_tokens.specs.Lines.{line_text};

use crate::words::DocumentCommand;
use amoebot_state::{NoMemory, World};
use document_answers::{
    Answer, Journal, Status, differ, done, put_number, put_word, recorded_in, refuse,
};
use election_law::{ElectRefusal, Election, erosion_elects, is_erosion, start_laws};
use serial_model::{Differs, EntryForm};
use shape_files::{Parts, documents_are_sound, least_versions_are_kept};
use std::alloc::{AllocError, Global};
use text_tokens::{Lines, Refusal, RefusalKind, Text};

/// The program is judged, then the shape at the start.
/// Then the journal is compared as for `replay`, and its last world is told.
pub(crate) fn answer_elect(alloc: Global, parts: Parts) -> Result<Answer, NoMemory>
    requires { Fits (form_of DocumentCommand.Elect) (contents parts) }
    ensures { IfOk result (IsAnswerOf (ElectOutcome (contents parts))) }
{
    start_laws();
    let (runner, start, last, journal) = recorded_in(parts);
    if !is_erosion(runner.checked().program()) {
        return refuse(alloc, whole_document(RefusalKind::NotErosion));
    }
    match Election::open(alloc, runner, start) {
        Ok(election) => match journal {
            Journal::Full(full) => elect(alloc, election, full.entries(), &last),
            Journal::Plain(plain) => elect(alloc, election, plain.entries(), &last),
        },
        Err(refusal) => refuse_start(alloc, refusal),
    }
}

/// The answer to entries in a form, of an election that begins,
/// whose amoebots are those of its world.
fn elect<E: EntryForm>(
    alloc: Global,
    mut election: Election,
    entries: &[E],
    last: &World,
) -> Result<Answer, NoMemory>
    requires there { All (λ e. E.bot e < length election.world.bots) entries.now }
    requires few { AreCountable entries.now }
    requires begun { election.steps ≡ 0 }
    ensures { IfOk result (
        IsAnswerOf (EntriesOutcome E.form (verdict_shown election.program) election.world entries.now last.now
        (λ _ text. text ≡ elected_text last.now))) }
{
    let made = make_steps(&mut election, entries, last);
    tell_election(alloc, &election, made)
}

/// The refusal of a document as a whole, which names no line.
fn whole_document(kind: RefusalKind) -> Refusal
    ensures { result ≡ record { line = 0; kind = kind } }
{
    Refusal { line: 0, kind }
}

/// The answer to a start that is refused, except where there was not enough memory to judge it.
fn refuse_start(alloc: Global, refusal: ElectRefusal) -> Result<Answer, NoMemory>
    ensures { IfOk result (λ answer. (refusal ≢ ElectRefusal.NoMemory)
        × (answer ≡ with_text (Status.Refused bad_start) (refusal_line bad_start))) }
{
    match start_fault(refusal) {
        Some(fault) => refuse(alloc, fault),
        None => Err(NoMemory),
    }
}

/// What the document is refused for; None where there was not enough memory.
fn start_fault(refusal: ElectRefusal) -> Option<Refusal>
    ensures { IfSome result (λ fault. (refusal ≢ ElectRefusal.NoMemory) × (fault ≡ bad_start)) }
{
    match refusal {
        ElectRefusal::NoMemory => None,
        ElectRefusal::Empty
        | ElectRefusal::NotContracted(_)
        | ElectRefusal::NotReady(_)
        | ElectRefusal::NotConnected => Some(whole_document(RefusalKind::BadStart)),
    }
}

/// The answer that is the candidates and the leader of an election whose steps are made,
/// or that its journal differs.
fn tell_election(
    alloc: Global,
    election: &Election,
    made: Result<(), Differs>,
) -> Result<Answer, NoMemory>
    ensures { let world = election.now.world in
        IfOk result (λ answer. MatchResult made
        (λ _. answer ≡ with_text Status.Done (elected_text world))
        (λ e. answer ≡ with_text (Status.Differs e.place) (differs_line e.place))) }
{
    match made {
        Ok(()) => {
            let text = print_election(alloc, election.candidates(), election.leader())?;
            Ok(done(text))
        }
        Err(differs) => differ(alloc, differs.place),
    }
}

/// Makes the steps of entries in a form, which lead to the last world.
/// Otherwise it returns the first place that is no step; or the number of entries,
/// where they lead to another world.
fn make_steps<E: EntryForm>(
    election: &mut Election,
    entries: &[E],
    last: &World,
) -> Result<(), Differs>
    requires there { All (λ e. E.bot e < length election.old.world.bots) entries.now }
    requires few { AreCountable entries.now }
    requires begun { election.old.steps ≡ 0 }
    ensures agrees { OnOk result (
        AgreesIn E.form (verdict_shown election.old.program) election.old.world entries.now last.now) }
    ensures reached { OnOk result (election.new.world ≡ last.now) }
    ensures differs { IfErr result (λ e.
        DiffersAt E.form
        (verdict_shown election.old.program) election.old.world entries.now last.now e.place) }
{
    for told in entries {
        election.step_in(told)?;
    }
    if election.world().same(last) {
        Ok(())
    } else {
        Err(Differs {
            place: entries.len() as u32,
        })
    }
}

/// How many candidates are left, and the leader's id, or that there is none: a line for each.
pub fn print_election(alloc: Global, candidates: u32, leader: Option<u16>) -> Result<Text, NoMemory>
    ensures { IfOk result (λ text. text ≡ election_text candidates leader) }
{
    let mut lines = Lines::new(alloc);
    put_number(&mut lines, "candidates", candidates)?;
    put_leader(&mut lines, leader)?;
    Ok(lines.text())
}

fn put_leader(lines: &mut Lines, leader: Option<u16>) -> Result<(), AllocError>
    ensures { OnOk result (lines.new ≡ lines.old ++ line_text (codes "leader" ∷ leader_word leader ∷ [])) }
{
    match leader {
        Some(id) => put_number(lines, "leader", id),
        None => put_word(lines, "leader", "none"),
    }
}

/// Where `elect` is done, the journal is a run in each world of which at most one amoebot leads,
/// and the text tells its last world.
/// For a document that is not refused, `elect` is done exactly where `replay` is,
/// and ends as `replay` with each other status.
pub fn elections_are_won()
    ensures won { ElectionsAreWon }
    ensures ends { ElectEndsAsReplay }
{
    least_versions_are_kept();
    documents_are_sound();
    erosion_elects();
}

//! Programs from their texts, shapes from their amoebots, and what a turn does.

ghost use Rattle.amoebot_state.specs.Refusals.{IsBotInRange};
ghost use Rattle.tri_lattice.specs.Lattice.{IsNear};

use action_check::check;
use action_eval::Runner;
use action_parser::parse_program;
use amoebot_state::{Bot, Chir, Entry, Failure, World};
use journal_text::print_plain;
use serial_model::{Serial, Turned};
use std::alloc::Global;
use std::process::Abort;
use std::test::Fail;
use text_tokens::Tokens;
use tri_lattice::{Area, Node};

/// An amoebot by its head, its tail, its rotation, its chirality,
/// and the values of its first three variables.
pub type Body = ((u8, u8), (u8, u8), u8, Chir, [u8; 3]);

/// What a turn does. Of a change it is what the journal's entry says behind the amoebot's number.
#[derive(Clone, Copy)]
pub enum Told {
    Idle,
    Failed(Failure),
    Done(&'static str),
}

/// A turn of an amoebot, and what it does.
pub type Turn = (u16, Told);

/// The decider of a program's text.
pub fn runner_of(alloc: Global, text: &str) -> Result<Runner, Fail> {
    if text.len() > 1_000_000 {
        Err("a long text")?;
    }
    let mut tokens = Tokens::new(text.as_bytes());
    let program = parse_program(alloc, &mut tokens).ok().ok_or("no program")?;
    let checked = check(alloc, program).ok().ok_or("a fault")?;
    Ok(Runner::new(checked))
}

/// The world of these amoebots in the area 0 0 8 8.
pub fn world_of(alloc: Global, maxes: [u8; 8], bodies: &[Body]) -> Result<World, Fail> {
    let area = Area::new(0, 0, 8, 8).ok_or("an area")?;
    let mut bots = Vec::new(alloc);
    for body in bodies {
        bots.push(bot_of(body))?;
    }
    if bots.len() > 4096 {
        Err("too many amoebots")?;
    }
    Ok(World::new(alloc, area, maxes, &bots)?)
}

fn bot_of(body: &Body) -> Bot
    ensures { IsBotInRange result }
{
    let (head, tail, rot, chir, values) = *body;
    Bot {
        head: node(head),
        tail: node(tail),
        rot: rot % 6,
        chir,
        mem: [values[0], values[1], values[2], 0, 0, 0, 0, 0],
    }
}

fn node(at: (u8, u8)) -> Node
    ensures { IsNear result }
{
    Node {
        x: i16::from(at.0),
        y: i16::from(at.1),
    }
}

/// A run of a program from a shape: each turn does what is told, and nothing else is changed.
pub fn runs(
    rt: &impl Abort,
    alloc: Global,
    text: &str,
    bodies: &[Body],
    turns: &[Turn],
) -> Result<World, Fail> {
    let runner = runner_of(alloc, text)?;
    let mut serial = Serial::new(world_of(alloc, runner.checked().maxes(), bodies)?);
    for (number, (bot, told)) in turns.iter().enumerate() {
        let world = serial.world();
        assert!(rt; *bot < world.bots());
        assert!(rt; number < 1_000_000);
        match (serial.activate(&runner, 0, number as u32, *bot), told) {
            (Turned::Idle, Told::Idle) => {}
            (Turned::Failed(failure), Told::Failed(wanted)) => {
                assert!(rt; failure == *wanted, "turn {number} of {text}");
            }
            (Turned::Done(entry), Told::Done(wanted)) => {
                is_entry(rt, alloc, &runner, entry, wanted)?;
            }
            _ => panic!(rt; "turn {number} of {text}"),
        }
    }
    Ok(serial.into_world())
}

/// Compares an entry with what it says behind the amoebot's number.
fn is_entry(
    rt: &impl Abort,
    alloc: Global,
    runner: &Runner,
    entry: Entry,
    wanted: &str,
) -> Result<(), Fail> {
    let vars = runner.checked().vars();
    assert!(rt; vars <= 8);
    let text = format!(in alloc;
        "journal\nentry 0 {} {} {} {wanted}\nend\n",
        entry.caller, entry.turn, entry.bot
    )?;
    let mut entries = Vec::new(alloc);
    entries.push(entry)?;
    let printed = print_plain(alloc, &entries, vars).ok().ok_or("no text")?;
    assert!(rt; printed.bytes() == text.as_bytes(), "{text}");
    Ok(())
}

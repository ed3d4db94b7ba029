//! Variables, actions and whole programs.

ghost use Rattle.std.specs.Prelude.{◌<◌, IfOk, IfSome, map, option_map};
ghost use Rattle.text_tokens.specs.Steps.{Gives, TellsOf, ReadsOf, another};
ghost use Rattle.text_tokens.specs.Reading.{no_limit, limited, at_most};
ghost use Rattle.amoebot_state.specs.Limits.{most_vars};
ghost use Rattle.action_tree.specs.Limits.{most_levels, most_names, most_actions};
ghost use Rattle.action_tree.specs.{Views.{var_of, action_of}, Roles.{is_a}, Programs.{IsProgram}};
ghost use Rattle.action_tree.specs.declared.role.Role.TheVariants as role;
ghost use Rattle.action_tree.specs.ProgramReaders as spec;
ghost use Rattle.action_parser.specs.PartsOf.{parts_of};

use crate::expression::read_guard;
use crate::roles::{is_next, token};
use crate::statement::{read_body, read_moved};
use crate::words::{literal, name, switch};
use action_tree::{Action, Program, Role, Var};
use std::alloc::Global;
use text_tokens::{ReadRefusal, RefusalKind, Tokens};

const LEVELS: u32 = 32;

const NAMES: u32 = 4;

const VARS: u32 = 8;

const ACTIONS: u32 = 32;

/// The parts of a program.
#[derive(Drop)]
struct Parts {
    guard: bool,
    vars: Vec<Var>,
    actions: Vec<Action>,
}

/// Whether movements are guarded. Without `guard` they are not.
fn read_guarded(tokens: &mut Tokens<'_>) -> Result<bool, ReadRefusal>
    ensures { Gives (λ b. b) spec.a_guarded tokens.old result tokens.new }
{
    if !is_next(tokens, Role::GuardWord) {
        return Ok(false);
    }
    token(tokens, Role::GuardWord)?;
    switch(tokens)
}

fn read_var(tokens: &mut Tokens<'_>) -> Result<Var, ReadRefusal>
    ensures { Gives var_of spec.a_var tokens.old result tokens.new }
{
    token(tokens, Role::VarWord)?;
    let name = name(tokens)?;
    let max = literal(tokens)?;
    Ok(Var { name, max })
}

/// One more variable, if one comes, where so many more may come.
fn more_var(tokens: &mut Tokens<'_>, room: u32) -> Result<Option<Var>, ReadRefusal>
    ensures reads { Gives (λ o. option_map var_of o)
        (another (is_a role.VarWord) (limited (is_a role.VarWord) no_limit room spec.a_var))
        tokens.old result tokens.new }
    ensures room { IfOk result (λ o. IfSome o (λ _. 0 < room)) }
{
    if !is_next(tokens, Role::VarWord) {
        return Ok(None);
    }
    if room == 0 {
        return Err(tokens.refusal(RefusalKind::TooMany).into());
    }
    Ok(Some(read_var(tokens)?))
}

fn read_vars(alloc: Global, tokens: &mut Tokens<'_>) -> Result<Vec<Var>, ReadRefusal>
    ensures { Gives (λ v. map var_of v.items) (at_most (is_a role.VarWord) no_limit most_vars spec.a_var)
        tokens.old result tokens.new }
{
    let mut found = Vec::new(alloc);
    let mut room = VARS;
    while let Some(var) = more_var(tokens, room)? {
        found.push(var)?;
        room -= 1;
    }
    Ok(found)
}

fn read_action(alloc: Global, tokens: &mut Tokens<'_>) -> Result<Action, ReadRefusal>
    ensures { Gives action_of (spec.an_action most_levels most_names) tokens.old result tokens.new }
{
    token(tokens, Role::ActionWord)?;
    let name = name(tokens)?;
    token(tokens, Role::WhenWord)?;
    let guard = read_guard(alloc, tokens, LEVELS, NAMES)?;
    let body = read_body(alloc, tokens, LEVELS, NAMES)?;
    let moved = read_moved(alloc, tokens, LEVELS, NAMES, &body)?;
    Ok(Action {
        name,
        guard,
        body,
        moved,
    })
}

/// One more action, if one comes, where so many more may come.
fn more_action(
    alloc: Global,
    tokens: &mut Tokens<'_>,
    room: u32,
) -> Result<Option<Action>, ReadRefusal>
    ensures reads { Gives (λ o. option_map action_of o)
        (another (is_a role.ActionWord)
        (limited (is_a role.ActionWord) no_limit room (spec.an_action most_levels most_names)))
        tokens.old result tokens.new }
    ensures room { IfOk result (λ o. IfSome o (λ _. 0 < room)) }
{
    if !is_next(tokens, Role::ActionWord) {
        return Ok(None);
    }
    if room == 0 {
        return Err(tokens.refusal(RefusalKind::TooMany).into());
    }
    Ok(Some(read_action(alloc, tokens)?))
}

fn read_actions(alloc: Global, tokens: &mut Tokens<'_>) -> Result<Vec<Action>, ReadRefusal>
    ensures { Gives (λ v. map action_of v.items)
        (at_most (is_a role.ActionWord) no_limit most_actions (spec.an_action most_levels most_names))
        tokens.old result tokens.new }
{
    let mut found = Vec::new(alloc);
    let mut room = ACTIONS;
    while let Some(action) = more_action(alloc, tokens, room)? {
        found.push(action)?;
        room -= 1;
    }
    Ok(found)
}

fn read_parts(alloc: Global, tokens: &mut Tokens<'_>) -> Result<Parts, ReadRefusal>
    ensures { Gives parts_of spec.a_program tokens.old result tokens.new }
{
    token(tokens, Role::ProgramWord)?;
    let guard = read_guarded(tokens)?;
    let vars = read_vars(alloc, tokens)?;
    let actions = read_actions(alloc, tokens)?;
    token(tokens, Role::LastWord)?;
    Ok(Parts {
        guard,
        vars,
        actions,
    })
}

/// Reads a program up to its `end`.
pub fn parse_program(alloc: Global, tokens: &mut Tokens<'_>) -> Result<Program, ReadRefusal>
    // What is read is a text of the grammar that passes no limit,
    // and what is refused is the first fault.
    // Only out of memory is free.
    ensures tells { TellsOf IsProgram (λ p. p) tokens.old result tokens.new }
    // A text of the grammar, where the next token does not go on behind it, is read as its tree,
    // or refused at its first refusal.
    ensures reads { ReadsOf IsProgram (λ p. p) tokens.old result tokens.new }
{
    tokens.are_cut();
    let parts = read_parts(alloc, tokens)?;
    Ok(Program::make(parts.guard, parts.vars, parts.actions))
}

//! Variables, actions and whole programs, line by line.

ghost use Rattle.std.specs.{Prelude.{◌≡◌, ◌∷◌, ◌++◌, [], codes, map, IfOk, OnOk}, List.{flat_map}};
ghost use Rattle.text_tokens.specs.Lines.{line_text, lines_text};
ghost use Rattle.action_tree.specs.Views.{action_of, guard_of, move_of, name_of, stmts_of, var_of};
ghost use Rattle.action_print.specs.ReadsBack.{ReadsBack};
ghost use Rattle.action_print.specs.Canon.{action_lines, canon, do_lines, guard_line, guard_words};
ghost use Rattle.action_print.specs.Canon.{move_words, var_line};

use crate::expression::put_guard;
use crate::statement::{put_move, put_stmts};
use crate::token::{put_name, put_number};
use action_tree::{Action, Guard, Move, Program, Stmt, Var, Word};
use amoebot_state::NoMemory;
use std::alloc::{AllocError, Global};
use text_tokens::{Lines, Text};

/// The canonical text of a program, which is read back as that program, lines aside.
/// Want of memory alone leaves none.
pub fn print_program(alloc: Global, program: &Program) -> Result<Text, NoMemory>
    ensures text { IfOk result (λ text. text ≡ canon program.now) }
    ensures reads_back { IfOk result (λ text. ReadsBack program.now text) }
{
    let mut lines = Lines::new(alloc);
    put_program(&mut lines, program)?;
    Ok(lines.text())
}

/// Adds the canonical text of a program to a text.
pub fn put_program(lines: &mut Lines, program: &Program) -> Result<(), AllocError>
    ensures text { OnOk result (lines.new ≡ lines.old ++ canon program.now) }
    ensures reads_back { OnOk result (ReadsBack program.now (canon program.now)) }
{
    lines.open_section("program")?;
    put_guarded(lines, program.guard())?;
    put_vars(lines, program.vars())?;
    put_actions(lines, program.actions())?;
    lines.close_section()
}

/// Whether movements are guarded.
fn put_guarded(lines: &mut Lines, guarded: bool) -> Result<(), AllocError>
    ensures { OnOk result (lines.new ≡ lines.old ++ line_text (guard_line guarded)) }
{
    lines.begin("guard")?;
    lines.word(if guarded { "on" } else { "off" })?;
    lines.end()
}

fn put_vars(lines: &mut Lines, vars: &[Var]) -> Result<(), AllocError>
    ensures { OnOk result (lines.new ≡ lines.old ++ lines_text (map var_line (map var_of vars.now))) }
{
    for var in vars {
        put_var(lines, var)?;
    }
    Ok(())
}

fn put_var(lines: &mut Lines, var: &Var) -> Result<(), AllocError>
    ensures { OnOk result (lines.new ≡ lines.old ++ line_text (var_line (var_of var.now))) }
{
    lines.begin("var")?;
    put_name(lines, &var.name)?;
    put_number(lines, &var.max)?;
    lines.end()
}

fn put_actions(lines: &mut Lines, actions: &[Action]) -> Result<(), AllocError>
    ensures { OnOk result (
        lines.new ≡ lines.old ++ lines_text (flat_map action_lines (map action_of actions.now))) }
{
    for action in actions {
        put_action(lines, action)?;
    }
    Ok(())
}

/// The lines of an action.
fn put_action(lines: &mut Lines, action: &Action) -> Result<(), AllocError>
    ensures { OnOk result (lines.new ≡ lines.old ++ lines_text (action_lines (action_of action.now))) }
{
    put_heading(lines, &action.name)?;
    put_when(lines, &action.guard)?;
    put_body(lines, &action.body)?;
    put_moved(lines, &action.moved)
}

fn put_heading(lines: &mut Lines, name: &Word) -> Result<(), AllocError>
    ensures { OnOk result (
        lines.new ≡ lines.old ++ line_text (codes "action" ∷ (name_of name.now).text ∷ [])) }
{
    lines.begin("action")?;
    put_name(lines, name)?;
    lines.end()
}

fn put_when(lines: &mut Lines, guard: &Guard) -> Result<(), AllocError>
    ensures { OnOk result (
        lines.new ≡ lines.old ++ line_text (codes "when" ∷ guard_words (guard_of guard.now))) }
{
    lines.begin("when")?;
    put_guard(lines, guard)?;
    lines.end()
}

fn put_moved(lines: &mut Lines, moved: &Move) -> Result<(), AllocError>
    ensures { OnOk result (
        lines.new ≡ lines.old ++ line_text (codes "move" ∷ move_words (move_of moved.now))) }
{
    lines.begin("move")?;
    put_move(lines, moved)?;
    lines.end()
}

/// The line of the statements, where there are some.
fn put_body(lines: &mut Lines, stmts: &[Stmt]) -> Result<(), AllocError>
    ensures { OnOk result (lines.new ≡ lines.old ++ lines_text (do_lines (stmts_of stmts.now))) }
{
    if stmts.is_empty() {
        return Ok(());
    }
    lines.begin("do")?;
    put_stmts(lines, stmts)?;
    lines.end()
}

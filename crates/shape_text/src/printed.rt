//! The sections `shape` and `final` printed.

ghost use Rattle.std.specs.Prelude.{◌≡◌, ◌≤◌, ◌++◌, map, IfOk, OnOk};
ghost use Rattle.text_tokens.specs.Lines.{line_text, lines_text};
ghost use Rattle.amoebot_state.specs.Limits.{most_vars};
ghost use Rattle.shape_text.specs.Texts.{area_words, bot_line, present, shape_text, wall_lines};

use crate::{put_bot, put_node};
use amoebot_state::{NoMemory, World};
use std::alloc::{AllocError, Global};
use text_tokens::{Lines, Text};
use tri_lattice::Area;

/// The section of a shape under the given word: its area, its walls by rising number,
/// and its amoebots by rising id, with the values of so many variables, at most 8.
pub fn print_shape(alloc: Global, word: &str, world: &World, vars: u8) -> Result<Text, NoMemory>
    requires { vars ≤ most_vars }
    ensures { IfOk result (λ text. text ≡ shape_text word.now vars world.now) }
{
    let mut lines = Lines::new(alloc);
    put_shape(&mut lines, word, world, vars)?;
    Ok(lines.text())
}

/// Adds that section to a text.
pub fn put_shape(lines: &mut Lines, word: &str, world: &World, vars: u8) -> Result<(), AllocError>
    requires { vars ≤ most_vars }
    ensures { OnOk result (lines.new ≡ lines.old ++ shape_text word.now vars world.now) }
{
    lines.open_section(word)?;
    put_area(lines, world.area())?;
    put_walls(lines, world)?;
    put_bots(lines, world, vars)?;
    lines.close_section()
}

fn put_area(lines: &mut Lines, area: Area) -> Result<(), AllocError>
    ensures { OnOk result (lines.new ≡ lines.old ++ line_text (area_words area)) }
{
    lines.begin("area")?;
    lines.number(area.x0())?;
    lines.number(area.y0())?;
    lines.number(area.w())?;
    lines.number(area.h())?;
    lines.end()
}

/// The walls, each on a line, by rising number of their nodes.
fn put_walls(lines: &mut Lines, world: &World) -> Result<(), AllocError>
    ensures { OnOk result (lines.new ≡ lines.old ++ lines_text (wall_lines world.now.area world.now.walls)) }
{
    world.keeps();
    let area = world.area();
    for number in 0..area.size() {
        if world.is_wall_number(number) {
            lines.begin("wall")?;
            put_node(lines, area.node(number))?;
            lines.end()?;
        }
    }
    Ok(())
}

/// The amoebots, each on a line.
fn put_bots(lines: &mut Lines, world: &World, vars: u8) -> Result<(), AllocError>
    requires { vars ≤ most_vars }
    ensures { OnOk result (
        lines.new ≡ lines.old ++ lines_text (map (bot_line vars) (present world.now.bots))) }
{
    for id in 0..world.bots() {
        lines.begin("bot")?;
        put_bot(lines, world.bot(id), vars)?;
        lines.end()?;
    }
    Ok(())
}

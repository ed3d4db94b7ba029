//! Numbers, nodes, ports and amoebots printed.

ghost use Rattle.std.specs.Prelude.{◌≡◌, ◌≤◌, ◌++◌, decimal, map, OnOk};
ghost use Rattle.text_tokens.specs.Lines.{spaced};
ghost use Rattle.amoebot_state.specs.Limits.{most_vars};
ghost use Rattle.shape_text.specs.PartTexts.{bot_words, chir_word, node_words, port_words};

use amoebot_state::{Bot, Chir, Port};
use std::alloc::AllocError;
use text_tokens::Lines;
use tri_lattice::Node;

/// Adds the nodes, the rotation, the chirality and the first values of an amoebot to a line.
pub fn put_bot(lines: &mut Lines, bot: &Bot, vars: u8) -> Result<(), AllocError>
    requires { vars ≤ most_vars }
    ensures { OnOk result (lines.new ≡ lines.old ++ spaced (bot_words vars bot.now)) }
{
    put_node(lines, bot.head)?;
    put_node(lines, bot.tail)?;
    lines.unsigned(u64::from(bot.rot))?;
    lines.word(chir_word(bot.chir))?;
    put_values(lines, &bot.mem[..usize::from(vars)])
}

fn put_values(lines: &mut Lines, values: &[u8]) -> Result<(), AllocError>
    ensures { OnOk result (lines.new ≡ lines.old ++ spaced (map decimal values.now)) }
{
    for value in values {
        lines.unsigned(u64::from(*value))?;
    }
    Ok(())
}

/// Adds the end and the direction of a port to a line.
pub fn put_port(lines: &mut Lines, port: Port) -> Result<(), AllocError>
    ensures { OnOk result (lines.new ≡ lines.old ++ spaced (port_words port)) }
{
    lines.word(port.end.word())?;
    lines.unsigned(u64::from(port.dir))
}

/// Adds the coordinates of a node to a line.
pub fn put_node(lines: &mut Lines, node: Node) -> Result<(), AllocError>
    ensures { OnOk result (lines.new ≡ lines.old ++ spaced (node_words node)) }
{
    lines.signed(i64::from(node.x))?;
    lines.signed(i64::from(node.y))
}

fn chir_word(chir: Chir) -> &'static str
    ensures { result.now ≡ chir_word chir }
{
    match chir {
        Chir::Plus => "+",
        Chir::Minus => "-",
    }
}

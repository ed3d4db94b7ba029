use std::alloc::Global;
use std::test::Fail;

/// The name of a piece, and its text.
pub type Piece = (&'static str, &'static str);

/// The text of a template, in which `{NAME}` stands for a piece,
/// and `{NUMBER:TEXT}` for a text so many times.
/// Fails where there is no piece of that name, where a bracket is left open,
/// or where memory runs out.
pub fn text_of(alloc: Global, template: &str, pieces: &[Piece]) -> Result<String, Fail> {
    let mut text = String::new(alloc);
    let mut parts = template.split('{');
    text.push_str(parts.next().unwrap_or(""))?;
    for part in parts {
        let (hole, behind) = part.split_once('}').ok_or("an open bracket")?;
        fill(&mut text, hole, pieces)?;
        text.push_str(behind)?;
    }
    Ok(text)
}

/// Adds what stands for a hole of a template.
fn fill(text: &mut String, hole: &str, pieces: &[Piece]) -> Result<(), Fail> {
    match hole.split_once(':') {
        Some((number, repeated)) => {
            let number: u32 = number.parse().ok().ok_or("no number")?;
            for _time in 0..number {
                text.push_str(repeated)?;
            }
        }
        None => text.push_str(piece(hole, pieces).ok_or("no piece")?)?,
    }
    Ok(())
}

/// The text of the piece with this name.
fn piece(name: &str, pieces: &[Piece]) -> Option<&'static str> {
    for (own, text) in pieces {
        if *own == name {
            return Some(*text);
        }
    }
    None
}

//! A name for the ports of a set, with a guard, and what is made of it.

ghost use Rattle.std.specs.Prelude.{◌≡◌};
ghost use Rattle.action_tree.specs.{Views.{guard_of}, Roles.{quantifier_by}};
ghost use Rattle.action_tree.specs.Trees as tree;
ghost use Rattle.action_parser.specs.Selections.{selection_of};

use action_tree::{Guard, PortSet, Word};

/// A name, the set of ports that it goes through, and the guard in its parentheses.
#[derive(Drop)]
pub struct Selection {
    pub name: Word,
    pub set: PortSet,
    pub guard: Box<Guard>,
}

/// What a word says of a selection: that it is so for some port, or for all.
pub fn quantified(word: &[u8], selection: Selection) -> Guard
    ensures { guard_of result ≡ tree.quantified (quantifier_by word.now) (selection_of selection).name
        (selection_of selection).set (selection_of selection).guard }
{
    let Selection { name, set, guard } = selection;
    if word == b"all".as_slice() {
        Guard::All(name, set, guard)
    } else {
        Guard::Any(name, set, guard)
    }
}

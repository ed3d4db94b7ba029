//! The values of held cells once a patch is committed.
ghost use Rattle.std.specs.Prelude.{◌≡◌, map};
ghost use Rattle.claim_core.specs.{Cells.{given, name_eq}, Machine.{patched_pair}};

use amoebot_state::{Cell, CellName};

/// Gives the cells their values of a patch; the others keep theirs.
pub(crate) fn renew(held: &mut [(CellName, Cell)], patch: &[(CellName, Cell)])
    ensures { held.new ≡ map (patched_pair patch.now) held.old }
{
    for pair in held.iter_mut() {
        pair.1 = given(patch, pair.0).unwrap_or(pair.1);
    }
}

/// The value that a patch gives a cell, if it does.
fn given(patch: &[(CellName, Cell)], cell: CellName) -> Option<Cell>
    ensures { result ≡ given patch.now cell }
{
    for (name, value) in patch {
        if is_same(*name, cell) {
            return Some(*value);
        }
    }
    None
}

/// Whether two cells are one.
fn is_same(name: CellName, other: CellName) -> bool
    ensures { result ≡ name_eq name other }
{
    name == other
}

ghost use Rattle.std.specs.{Prelude.{◌≡◌, ◌<◌, ◌+◌, [], IsTrue, Some, nat_eq, nat_lt}, List.{position}};
ghost use Rattle.amoebot_state.specs.Zones.{IsShown};
ghost use Rattle.arrayvec.specs.ArrayVec.{array_vec_len};
ghost use Rattle.model_ops.specs.Members.{gathered, has_id, id_found_on, id_on, lower, with_member};

use amoebot_state::{Bot, Cell, CellName, Found};
use arrayvec::ArrayVec;
use tri_lattice::Node;

/// Room for the amoebots of a neighbourhood.
pub(crate) const ROOM: usize = 9;

/// An amoebot of a neighbourhood, as it was found and as it is now.
#[derive(Clone, Copy, Default, Drop)]
pub(crate) struct Member {
    pub(crate) id: u16,
    pub(crate) found: Bot,
    pub(crate) now: Bot,
}

/// The place of the member with an id, which is one of theirs.
pub(crate) fn place_of(members: &[Member], id: u16) -> usize
    requires { IsTrue (has_id members.now id) }
    ensures { position (λ m. nat_eq m.id id) members.now ≡ Some result }
{
    first_with(members, id).unwrap()
}

fn first_with(members: &[Member], id: u16) -> Option<usize>
    ensures { result ≡ position (λ m. nat_eq m.id id) members.now }
{
    members.iter().position(|member| member.id == id)
}

/// The lower of an id and another one, if there is another one.
fn lower(id: u16, other: Option<u16>) -> u16
    ensures { result ≡ lower id other }
{
    match other {
        Some(other) => id.min(other),
        None => id,
    }
}

/// The id on a node, as the members are now: the lowest of those that have the node.
pub(crate) fn id_on(members: &[Member], node: Node) -> Option<u16>
    ensures { result ≡ id_on members.now node }
{
    let mut lowest = None;
    for member in members {
        if member.now.is_own(node) {
            lowest = Some(lower(member.id, lowest));
        }
    }
    lowest
}

/// The id on a node, as the members were found.
pub(crate) fn id_found_on(members: &[Member], node: Node) -> Option<u16>
    ensures { result ≡ id_found_on members.now node }
{
    let mut lowest = None;
    for member in members {
        if member.found.is_own(node) {
            lowest = Some(lower(member.id, lowest));
        }
    }
    lowest
}

/// The place of the first member with a higher id.
fn place_above(members: &[Member], id: u16) -> Option<usize>
    ensures { result ≡ position (λ m. nat_lt id m.id) members.now }
{
    members.iter().position(|member| member.id > id)
}

/// Adds a member at its place in rising id.
pub(crate) fn add(members: &mut ArrayVec<Member, ROOM>, member: &Member)
    requires { array_vec_len members.old < ROOM }
    ensures value { members.new.items ≡ with_member members.old.items member.entry.now }
    ensures longer { array_vec_len members.new ≡ array_vec_len members.old + 1 }
{
    let place = place_above(members.as_slice(), member.id).unwrap_or(members.len());
    members.insert(place, *member);
}

/// Adds the amoebots of a neighbourhood, which are those of the bodies among its cells,
/// in the order of the cells.
pub(crate) fn gather(members: &mut ArrayVec<Member, ROOM>, found: &Found)
    requires { members.old.items ≡ [] }
    ensures value { members.new.items ≡ gathered found.now }
    ensures shown { IsShown found.now }
{
    for (name, cell) in found.cells() {
        match name {
            CellName::Body(id) => match cell {
                Cell::Body(bot) => members.push(Member {
                    id: *id,
                    found: *bot,
                    now: *bot,
                }),
                Cell::Spot(_) => {}
            },
            CellName::Spot(_) => {}
        }
    }
}

ghost use Rattle.std.specs.Prelude.{◌≡◌, ◌+◌, ◌<◌, ◌≤◌, ◌++◌, ◌∷◌, [], IfSome, Some, filter, if◌then◌else◌};
ghost use Rattle.std.specs.{Prelude.{length, map}, List.{find}};
ghost use Rattle.amoebot_state.specs.{Limits.{most_pairs}, Patches.{bot_eq}};
ghost use Rattle.model_ops.specs.Members.{body_change, changed_cells, changed_spot, has_changed, is_changed};
ghost use Rattle.model_ops.specs.Members.{is_crossed, most_members, nodes_of, ranked};

use crate::member::{Member, ROOM, add, id_found_on, id_on};
use amoebot_state::{Bot, Cell, CellName, Patch};
use arrayvec::ArrayVec;
use tri_lattice::Node;

/// Adds the cells that differ from what was found, of whose nodes at most one does,
/// which is one of the own ones: that node first, and then the bodies in rising id.
/// Mostly one amoebot alone has changed.
#[inline(always)]
pub(crate) fn push_changed(patch: &mut Patch, members: &[Member], own: &Member)
    requires none { patch.old ≡ [] }
    requires few { length members.now ≤ most_members }
    ensures { patch.new ≡ changed_cells members.now own.entry.now }
{
    match only_changed(members) {
        Some(only) => push_only(patch, members, own, only),
        None => push_several(patch, members, own),
    }
}

/// The member that alone has changed. None, where none has or several have.
fn only_changed(members: &[Member]) -> Option<&Member>
    ensures { IfSome result (λ m. filter is_changed members.now ≡ m.now ∷ []) }
{
    let mut only = None;
    for member in members {
        if is_changed(member) {
            if only.is_some() {
                return None;
            }
            only = Some(member);
        }
    }
    only
}

/// Adds what differs where this member alone has changed.
fn push_only(patch: &mut Patch, members: &[Member], own: &Member, only: &Member)
    requires none { patch.old ≡ [] }
    requires alone { filter is_changed members.now ≡ only.now ∷ [] }
    ensures { patch.new ≡ changed_cells members.now own.entry.now }
{
    push_crossed(patch, members, &nodes_of(own), only);
    push_body(patch, only);
}

/// Adds the first of some nodes whose occupant has changed, where this member alone has changed.
/// It is one that the member entered or left.
fn push_crossed(patch: &mut Patch, members: &[Member], nodes: &[Node], only: &Member)
    requires room { length patch.old < most_pairs }
    requires alone { filter is_changed members.now ≡ only.now ∷ [] }
    ensures value { patch.new ≡ patch.old
        ++ changed_spot members.now (find (has_changed members.now) nodes.now) }
    ensures few { length patch.new ≤ length patch.old + 1 }
{
    for node in nodes {
        if is_crossed(only, *node) {
            if push_changed_node(patch, members, *node) {
                return;
            }
        }
    }
}

/// Whether the member entered or left the node.
fn is_crossed(member: &Member, node: Node) -> bool
    ensures { result ≡ is_crossed member.entry.now node }
{
    let before = member.found.is_own(node);
    let after = member.now.is_own(node);
    (before && !after) || (after && !before)
}

/// Adds what differs, however many have changed.
#[inline(never)]
fn push_several(patch: &mut Patch, members: &[Member], own: &Member)
    requires none { patch.old ≡ [] }
    requires few { length members.now ≤ most_members }
    ensures { patch.new ≡ changed_cells members.now own.entry.now }
{
    push_node(patch, members, &nodes_of(own));
    let mut changed = ArrayVec::new();
    add_changed(&mut changed, members);
    push_bodies(patch, changed.as_slice());
}

/// Adds the first of some nodes whose occupant has changed.
fn push_node(patch: &mut Patch, members: &[Member], nodes: &[Node])
    requires { length patch.old < most_pairs }
    ensures value { patch.new ≡ patch.old
        ++ changed_spot members.now (find (has_changed members.now) nodes.now) }
    ensures few { length patch.new ≤ length patch.old + 1 }
{
    for node in nodes {
        if push_changed_node(patch, members, *node) {
            return;
        }
    }
}

/// The nodes of a member, as it is now and as it was found.
fn nodes_of(member: &Member) -> [Node; 4]
    ensures { result ≡ nodes_of member.entry.now }
{
    [
        member.now.head,
        member.found.tail,
        member.found.head,
        member.now.tail,
    ]
}

/// Adds a node if its occupant has changed, and tells whether it has.
fn push_changed_node(patch: &mut Patch, members: &[Member], node: Node) -> bool
    requires { length patch.old < most_pairs }
    ensures told { result ≡ has_changed members.now node }
    ensures value { patch.new ≡ patch.old ++ (if result then changed_spot members.now (Some node) else []) }
{
    let before = id_found_on(members, node);
    let after = id_on(members, node);
    if before == after {
        return false;
    }
    patch.push(CellName::Spot(node), Cell::Spot(before), Cell::Spot(after));
    true
}

/// Adds the members that have changed, in rising id.
fn add_changed(changed: &mut ArrayVec<Member, ROOM>, members: &[Member])
    requires none { changed.old.items ≡ [] }
    requires few { length members.now ≤ most_members }
    ensures value { changed.new.items ≡ ranked (filter is_changed members.now) }
    ensures few { length changed.new.items ≤ length members.now }
{
    for member in members {
        if is_changed(member) {
            add(changed, member);
        }
    }
}

fn is_changed(member: &Member) -> bool
    ensures { result ≡ is_changed member.entry.now }
{
    !is_same(&member.found, &member.now)
}

pub(crate) fn is_same(a: &Bot, b: &Bot) -> bool
    ensures { result ≡ bot_eq a.now b.now }
{
    a == b
}

/// Adds the bodies of members.
fn push_bodies(patch: &mut Patch, members: &[Member])
    requires { length patch.old + length members.now ≤ most_pairs }
    ensures { patch.new ≡ patch.old ++ map body_change members.now }
{
    for member in members {
        push_body(patch, member);
    }
}

fn push_body(patch: &mut Patch, member: &Member)
    requires { length patch.old < most_pairs }
    ensures { patch.new ≡ patch.old ++ body_change member.entry.now ∷ [] }
{
    patch.push(
        CellName::Body(member.id),
        Cell::Body(member.found),
        Cell::Body(member.now),
    );
}

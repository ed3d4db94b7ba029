ghost use Rattle.std.specs.{Prelude.{◌≡◌, Decides}, List.{All}, Option.{option_copied}};
ghost use Rattle.amoebot_state.specs.{declared.cell.CellName.{CellName}, declared.cell.Cell.{Cell}};
ghost use Rattle.amoebot_state.specs.Pairs.{cell_of, cell_value, plain_patch};
ghost use Rattle.amoebot_state.specs.{Configs.{bot_at, covers, value}, Patches.{HasPatched, bot_eq, id_eq}};
ghost use Rattle.amoebot_state.specs.Fitting.{all_fit, body_fits, body_after, cell_fits, has_bot, has_cell};
ghost use Rattle.amoebot_state.specs.Fitting.{have_cells, is_kept, is_left, is_owned, is_to_be, may_stand};
ghost use Rattle.amoebot_state.specs.Fitting.{occupant_after, spot_fits, takes_over};

use crate::bot::Bot;
use crate::cell::{Cell, CellName, Patch};
use crate::found::{body_in, spot_in};
use crate::grid::{has_values, is_close};
use crate::world::World;
use tri_lattice::Node;

impl World {
    /// Whether the cells of the patch have its values after.
    pub fn holds(&self, patch: &Patch) -> bool
        ensures { Decides result
            (All (λ (p : CellName × Cell). value self.now (cell_of p) ≡ Some (cell_value p))
            (plain_patch patch.now)) }
    {
        let plain = patch.plain();
        have_cells(self, plain.pairs())
    }

    /// Whether the values after of the patch lead to a valid world with the same ids.
    /// It takes no memory.
    pub fn can_apply(&self, patch: &Patch) -> bool
        ensures { Decides result (HasPatched self.now (plain_patch patch.now)) }
    {
        self.keeps();
        let plain = patch.plain();
        all_fit(self, plain.pairs())
    }
}

fn have_cells(world: &World, cells: &[(CellName, Cell)]) -> bool
    ensures { result ≡ have_cells world.now cells.now }
{
    for (name, cell) in cells {
        if !has_cell(world, name, cell) {
            return false;
        }
    }
    true
}

/// Whether the cell has this value.
fn has_cell(world: &World, name: &CellName, cell: &Cell) -> bool
    ensures { result ≡ has_cell world.now name.now cell.now }
{
    match name {
        CellName::Spot(node) => match cell {
            Cell::Spot(occupant) => same_id(world.occupant(*node), *occupant),
            Cell::Body(_) => false,
        },
        CellName::Body(id) => match cell {
            Cell::Spot(_) => false,
            Cell::Body(bot) => has_bot(bot_in(world, *id), bot),
        },
    }
}

/// The amoebot with an id, if there is one.
fn bot_in(world: &World, id: u16) -> Option<&Bot>
    ensures { option_copied result ≡ bot_at world.now id }
{
    if id < world.bots() {
        Some(world.bot(id))
    } else {
        None
    }
}

fn has_bot(found: Option<&Bot>, bot: &Bot) -> bool
    ensures { result ≡ has_bot (option_copied found.entry) bot.now }
{
    match found {
        None => false,
        Some(other) => same_bot(other, bot),
    }
}

fn same_bot(bot: &Bot, other: &Bot) -> bool
    ensures { result ≡ bot_eq bot.now other.now }
{
    *bot == *other
}

fn same_id(id: Option<u16>, other: Option<u16>) -> bool
    ensures { result ≡ id_eq id other }
{
    match id {
        None => match other {
            None => true,
            Some(_) => false,
        },
        Some(one) => match other {
            None => false,
            Some(two) => one == two,
        },
    }
}

/// Whether what the cells give each of them fits.
fn all_fit(world: &World, cells: &[(CellName, Cell)]) -> bool
    ensures { result ≡ all_fit world.now cells.now }
{
    for (name, cell) in cells {
        if !cell_fits(world, cells, name, cell) {
            return false;
        }
    }
    true
}

fn cell_fits(world: &World, cells: &[(CellName, Cell)], name: &CellName, cell: &Cell) -> bool
    ensures { result ≡ cell_fits world.now cells.now name.now cell.now }
{
    match name {
        CellName::Spot(node) => match cell {
            Cell::Spot(occupant) => spot_fits(world, cells, *node, *occupant),
            Cell::Body(_) => false,
        },
        CellName::Body(id) => match cell {
            Cell::Spot(_) => false,
            Cell::Body(bot) => body_fits(world, cells, *id, bot),
        },
    }
}

/// The occupant that a node is to have: the one that the cells give it,
/// or else the one that it has.
fn occupant_after(world: &World, cells: &[(CellName, Cell)], node: Node) -> Option<u16>
    ensures { result ≡ occupant_after world.now cells.now node }
{
    match spot_in(cells, node) {
        Some(occupant) => occupant,
        None => world.occupant(node),
    }
}

/// The amoebot that an id is to have.
fn body_after<'a>(world: &'a World, cells: &'a [(CellName, Cell)], id: u16) -> Option<&'a Bot>
    ensures { option_copied result ≡ body_after world.now cells.now id }
{
    match body_in(cells, id) {
        Some(bot) => Some(bot),
        None => bot_in(world, id),
    }
}

/// Whether the node is to be the id's.
fn is_to_be(world: &World, cells: &[(CellName, Cell)], id: u16, node: Node) -> bool
    ensures { result ≡ is_to_be world.now cells.now id node }
{
    same_id(occupant_after(world, cells, node), Some(id))
}

/// Whether an occupant that the cells give a node fits.
fn spot_fits(world: &World, cells: &[(CellName, Cell)], node: Node, occupant: Option<u16>) -> bool
    ensures { result ≡ spot_fits world.now cells.now node occupant }
{
    same_id(occupant_after(world, cells, node), occupant)
        && is_owned(world, cells, node, occupant)
        && is_left(cells, occupant, world.occupant(node))
}

/// Whether the amoebot of the id, if there is one, is to have the node.
fn is_owned(world: &World, cells: &[(CellName, Cell)], node: Node, occupant: Option<u16>) -> bool
    ensures { result ≡ is_owned world.now cells.now node occupant }
{
    match occupant {
        None => true,
        Some(id) => covers(body_after(world, cells, id), node),
    }
}

fn covers(bot: Option<&Bot>, node: Node) -> bool
    ensures { result ≡ covers (option_copied bot.entry) node }
{
    match bot {
        None => false,
        Some(bot) => bot.is_own(node),
    }
}

/// Whether the one who had the node is to have it, or the cells give it a body.
fn is_left(cells: &[(CellName, Cell)], occupant: Option<u16>, before: Option<u16>) -> bool
    ensures { result ≡ is_left cells.now occupant before }
{
    match before {
        None => true,
        Some(id) => same_id(occupant, Some(id)) || body_in(cells, id).is_some(),
    }
}

/// Whether an amoebot that the cells give an id fits.
fn body_fits(world: &World, cells: &[(CellName, Cell)], id: u16, bot: &Bot) -> bool
    ensures { result ≡ body_fits world.now cells.now id bot.now }
{
    may_stand(world, bot)
        && has_bot(body_in(cells, id), bot)
        && is_to_be(world, cells, id, bot.head)
        && is_to_be(world, cells, id, bot.tail)
        && takes_over(world, cells, id, bot, bot_in(world, id))
}

/// Whether there is an amoebot whose nodes the new one keeps, where they are to be the id's.
fn takes_over(
    world: &World,
    cells: &[(CellName, Cell)],
    id: u16,
    bot: &Bot,
    before: Option<&Bot>,
) -> bool
    ensures { result ≡ takes_over world.now cells.now id bot.now (option_copied before.entry) }
{
    match before {
        None => false,
        Some(old) => {
            is_kept(world, cells, id, bot, old.head) && is_kept(world, cells, id, bot, old.tail)
        }
    }
}

/// Whether the node, where it is to be the id's, is one of the amoebot.
fn is_kept(world: &World, cells: &[(CellName, Cell)], id: u16, bot: &Bot, node: Node) -> bool
    ensures { result ≡ is_kept world.now cells.now id bot.now node }
{
    !is_to_be(world, cells, id, node) || bot.is_own(node)
}

/// Whether the amoebot may stand in the frame of the world.
fn may_stand(world: &World, bot: &Bot) -> bool
    ensures { result ≡ may_stand world.now bot.now }
{
    world.keeps();
    let area = world.area();
    if area.index(bot.head).is_none() {
        return false;
    }
    if area.index(bot.tail).is_none() {
        return false;
    }
    is_close(bot.head, bot.tail)
        && !world.is_wall(bot.head)
        && !world.is_wall(bot.tail)
        && bot.rot < 6
        && has_values(&world.maxes(), &bot.mem)
}

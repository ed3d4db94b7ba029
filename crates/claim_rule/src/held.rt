ghost use Rattle.std.specs.Prelude.{◌≡◌, ◌<◌, ◌≤◌, length, Some, IfOk, IfErr};
ghost use Rattle.amoebot_state.specs.{declared.cell.Cell.{Cell}, Limits.{most_cells}};
ghost use Rattle.amoebot_state.specs.declared.cell.CellName.TheVariants as name;
ghost use Rattle.claim_core.specs.{declared.state.Phase.TheVariants.{Refusing}, Machine.{caller_with_cell}};
ghost use Rattle.claim_rule.specs.{Manners.{by_journal}, Plays.{IsOthers, about, bot_in}};
ghost use Rattle.claim_rule.specs.Tokens.{IsOf, number_in, doing, goes, next_in};

use crate::activation::Activation;
use crate::field::Field;
use crate::manner::{ByJournal, Manner};
use crate::node_steps::{look_at, try_at};
use crate::seat::Seat;
use crate::stopped::{Stopped, Tag};
use amoebot_state::{CellName, Decider};
use claim_core::cell_number;
use std::marker::Model;
use tri_lattice::Node;

/// A caller that claims the zone of its turn's amoebot, or that holds it whole.
#[derive(Drop)]
pub struct Held<D: Decider, W: Manner = ByJournal> {
    pub(crate) activation: Activation<D, W>,
}

impl<D: Decider, W: Manner> Model for Held<D, W> {
    ghost use Rattle.claim_rule.specs.Plays.{about};
    ghost use Rattle.claim_rule.specs.Tokens.{Token, IsClaiming, KeepsActivation, KnowsTurn, KnowsWalls};
    ghost use Rattle.claim_rule.specs.Tokens.{token_in, cells_in};

    ghost Value = { Token D };

    ghost view = { λ h. token_in h.activation };

    ghost invariant = { λ h. KeepsActivation D.verdict W.way h.activation
        × IsClaiming D.verdict h.activation.seat.me h.activation.room.value.turn h.activation.room.value.bot
        (cells_in h.activation)
        × KnowsTurn h.activation.room.value
        × KnowsWalls (about D.verdict h.activation.seat.me.0).world h.activation.room.value };
}

impl<D: Decider, W: Manner> Held<D, W> {
    /// The next cell of the zone by the values that were recorded;
    /// None exactly where the whole zone is held.
    /// A zone has at most 19 cells.
    pub fn next(&self, _field: &Field<'_, D, W>) -> Option<CellName>
        requires { IsOf _field.now self.now }
        ensures next { result ≡ next_in D.verdict self.now }
        ensures few { length (doing self.now).held ≤ most_cells }
    {
        let room = &*self.activation.room;
        room.zone.next(room.cells.len())
    }

    /// How many cells are held.
    pub fn count(&self) -> u8
        ensures { result ≡ length (doing self.now).held }
    {
        self.activation.room.cells.len() as u8
    }
}

/// The caller's next turn begins, on its list's amoebot.
pub fn begin<D: Decider, W: Manner>(seat: Seat<D, W>, turn: u32, bot: u16) -> Held<D, W>
    requires turn { (turn ≡ (doing seat).turn) × (turn < (about D.verdict seat.view).lists.turns) }
    requires bot { bot ≡ bot_in D.verdict seat.view }
    ensures same { result ≡ seat }
    ensures one { result ≡ goes seat (doing seat) }
{
    let Seat { seat, mut room, of } = seat;
    room.begin(turn, bot);
    Held {
        activation: Activation { seat, room, of },
    }
}

/// The claim of the next cell of the zone.
/// It is won with its value where nobody held it; else another caller's tag was found,
/// and the turn claims no more.
/// A slotted cell is claimed by one try.
/// The word of a node is looked at, and tried while it is found free and changed:
/// each such try finds a greater stamp.
pub fn win<D: Decider, W: Manner>(
    held: Held<D, W>,
    field: &Field<'_, D, W>,
    cell: CellName,
) -> Result<Held<D, W>, (Stopped<D, W>, Tag)>
    requires field { IsOf field.now held }
    requires next { next_in D.verdict held ≡ Some cell }
    ensures won { IfOk result (λ more. (x : Cell)
        × (more ≡ goes held
        (caller_with_cell (about D.verdict held.view) (number_in held) (doing held) cell x))) }
    ensures refused { IfErr result (λ by.
        (by.0 ≡ goes held (record (doing held) { phase = Refusing cell by.1 }))
        × IsOthers (about D.verdict held.view) (number_in held) by.1) }
{
    if !W::has_slot(cell) {
        let CellName::Spot(node) = cell else {
            unreachable!()
        };
        return win_node(held, field, node);
    }
    let Held { mut activation } = held;
    let room = &*activation.room;
    let Some(number) = cell_number(&room.area, cell) else {
        unreachable!()
    };
    let found = field.claim(&mut activation.seat, number, room.tag);
    if found != 0 {
        return Err((Stopped { activation }, Tag { number: found }));
    }
    let value = field.cell_there(&mut activation.seat, W::slot(cell, number));
    let wall = field.is_wall(cell, number);
    activation.room.hold(cell, value, wall);
    Ok(Held { activation })
}

/// The claim of a node, which is the next cell, by its word: a look at it,
/// and tries while it is found free.
fn win_node<D: Decider, W: Manner>(
    held: Held<D, W>,
    field: &Field<'_, D, W>,
    node: Node,
) -> Result<Held<D, W>, (Stopped<D, W>, Tag)>
    requires field { IsOf field.now held }
    requires next { next_in D.verdict held ≡ Some (name.Spot node) }
    requires words { W.way ≡ by_journal }
    ensures won { IfOk result (λ more. (x : Cell)
        × (more ≡ goes held
        (caller_with_cell (about D.verdict held.view) (number_in held) (doing held) (name.Spot node) x))) }
    ensures refused { IfErr result (λ by.
        (by.0 ≡ goes held (record (doing held) { phase = Refusing (name.Spot node) by.1 }))
        × IsOthers (about D.verdict held.view) (number_in held) by.1) }
{
    let mut noted = look_at(held, field, node)?;
    loop {
        match try_at(noted, field) {
            Ok(more) => return Ok(more),
            Err(again) => noted = again?,
        }
    }
}

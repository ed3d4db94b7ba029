ghost use Rattle.std.specs.Prelude.{◌≡◌, ℕ, ◌∷◌, ◌++◌, [], slice_get};
ghost use Rattle.tri_lattice.specs.Extent.{Extent};
ghost use Rattle.amoebot_state.specs.{Known.{AreReadInOrder}, Pairs.{Pairs}, Ways.{reading}};

use crate::cell::{Cell, CellName};
use crate::way::{FewNodes, Way, Ways, push_nodes};
use crate::zone::push_other;
use arrayvec::ArrayVec;
use std::marker::Model;
use tri_lattice::Area;

/// The most bodies of a zone.
const MOST_BODIES: usize = 9;

/// What is known of an amoebot's zone while its cells are read in zone order: its body,
/// the nodes and where its pairs lead, once the body was read,
/// and the other amoebots on the nodes that were read.
/// It grows at its end alone.
#[derive(Drop)]
pub struct KnownZone {
    bot: u16,
    nodes: FewNodes,
    ways: Ways,
    others: ArrayVec<u16, MOST_BODIES>,
}

impl Model for KnownZone {
    ghost use Rattle.std.specs.Prelude.{◌∷◌, ◌++◌, map};
    ghost use Rattle.amoebot_state.specs.Ways.{Reading};
    ghost use Rattle.amoebot_state.specs.declared.cell.CellName.TheVariants as name;

    ghost Value = { Reading };

    ghost view = { λ z. record {
      names = name.Body z.bot ∷ (map name.Spot z.nodes.items ++ map name.Body z.others.items);
      ways = z.ways;
    } };
}

impl KnownZone {
    /// What is known before a cell was read: the amoebot's body.
    pub fn new(bot: u16) -> KnownZone
        ensures { (a : Extent) → result ≡ reading a bot [] }
    {
        KnownZone {
            bot,
            nodes: ArrayVec::new(),
            ways: [Way::NoPort; 12],
            others: ArrayVec::new(),
        }
    }

    /// The same again, of the zone of this amoebot.
    pub fn begin(&mut self, bot: u16)
        ensures { (a : Extent) → self.new ≡ reading a bot [] }
    {
        self.bot = bot;
        self.nodes.clear();
        self.ways = [Way::NoPort; 12];
        self.others.clear();
    }

    /// The cell to be read after so many, where it is known.
    /// Where so many cells were read, it is the one that `next_cell` gives.
    pub fn next(&self, read: usize) -> Option<CellName>
        ensures { result ≡ slice_get self.now.names read }
    {
        if read == 0 {
            return Some(CellName::Body(self.bot));
        }
        let place = read - 1;
        let nodes = self.nodes.len();
        if place < nodes {
            return Some(CellName::Spot(self.nodes.as_slice()[place]));
        }
        self.others
            .as_slice()
            .get(place - nodes)
            .copied()
            .map(CellName::Body)
    }

    /// One more cell was read, the next one in zone order, and holds this.
    pub fn push(&mut self, area: &Area, cell: &Cell)
        requires { (i : ℕ) × (cells : Pairs) × (n : CellName) × (self.old ≡ reading area.now i cells)
            × AreReadInOrder area.now i (cells ++ (n, cell.now) ∷ []) }
        ensures { (i : ℕ) (cells : Pairs) (n : CellName) → self.old ≡ reading area.now i cells
            → AreReadInOrder area.now i (cells ++ (n, cell.now) ∷ [])
            → self.new ≡ reading area.now i (cells ++ (n, cell.now) ∷ []) }
    {
        match cell {
            Cell::Body(bot) => {
                if self.nodes.is_empty() {
                    self.ways = push_nodes(&mut self.nodes, area, bot);
                }
            }
            Cell::Spot(occupant) => push_other(&mut self.others, self.bot, *occupant),
        }
    }

    /// Where the pairs of the amoebot lead.
    pub(crate) fn ways(&self) -> Ways
        ensures { result ≡ self.now.ways }
    {
        self.ways
    }
}

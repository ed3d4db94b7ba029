ghost use Rattle.std.specs.Prelude.{◌≡◌, ◌<◌, ◌∷◌, ◌++◌, [], length};
ghost use Rattle.tri_lattice.specs.declared.node.Node.{Node};
ghost use Rattle.amoebot_state.specs.Limits.{most_cells};
ghost use Rattle.claim_rule.specs.{Words.{word_tag}, Plays.{note_of}};

use amoebot_state::MOST_CELLS;
use std::marker::Model;
use tri_lattice::Node;

/// The words of the nodes that a caller holds, as they were found free,
/// the one won first at the front.
/// Contracts see what they say.
#[derive(Drop)]
pub(crate) struct Notes {
    all: [(Node, u64); MOST_CELLS],
    count: usize,
}

impl Model for Notes {
    ghost use Rattle.std.specs.{Prelude.{List, ◌≡◌, ◌≤◌, map, take}, List.{All}};
    ghost use Rattle.amoebot_state.specs.Limits.{most_cells};
    ghost use Rattle.claim_rule.specs.{declared.views.Note.{Note}, Words.{word_tag}, Plays.{note_of}};

    ghost Value = { List Note };

    ghost view = { λ n. map (λ won. note_of won.0 won.1) (take n.count n.all) };

    ghost invariant = { λ n. (n.count ≤ most_cells) × All (λ won. word_tag won.1 ≡ 0) (take n.count n.all) };
}

impl Notes {
    /// No word.
    pub(crate) fn new() -> Notes
        ensures { result ≡ [] }
    {
        Notes {
            all: [(Node { x: 0, y: 0 }, 0); MOST_CELLS],
            count: 0,
        }
    }

    /// No word any more.
    pub(crate) fn clear(&mut self)
        ensures { self.new ≡ [] }
    {
        self.count = 0;
    }

    /// Adds the word of a node last, which was found free.
    pub(crate) fn push(&mut self, node: Node, word: u64)
        requires few { length self.old < most_cells }
        requires free { word_tag word ≡ 0 }
        ensures { self.new ≡ self.old ++ note_of node word ∷ [] }
    {
        self.all[self.count] = (node, word);
        self.count += 1;
    }

    /// Takes the last word away.
    pub(crate) fn pop(&mut self) -> u64
        requires { 0 < length self.old }
        ensures last { (node : Node) × (self.old ≡ self.new ++ note_of node result ∷ []) }
        ensures free { word_tag result ≡ 0 }
    {
        self.count -= 1;
        self.all[self.count].1
    }
}

ghost use Rattle.std.specs.Prelude.{◌≡◌, ◌<◌, ◌%◌, true};
ghost use Rattle.tri_lattice.specs.Lattice.{IsNear};
ghost use Rattle.amoebot_state.specs.Ports.{pair_place, global, local, is_port, behind, end_node, end_word};
ghost use Rattle.amoebot_state.specs.Ports.{is_contracted, is_own};

use tri_lattice::{Dir, Node};

/// Which way round the local directions go: as the global ones, or against them.
#[derive(Clone, Copy, Debug, Default, PartialEq, Eq)]
pub enum Chir {
    #[default]
    Plus,
    Minus,
}

/// An end of an amoebot. Those of a contracted one are the same node.
#[derive(Clone, Copy, Debug, Default, PartialEq, Eq)]
pub enum End {
    #[default]
    Head,
    Tail,
}

impl End {
    /// Its word in texts.
    pub fn word(self) -> &'static str
        ensures { result.now ≡ end_word self }
    {
        match self {
            End::Head => "head",
            End::Tail => "tail",
        }
    }
}

/// A pair of an end and a local direction. Of which amoebots it is a port says `Bot::is_port`.
#[derive(Clone, Copy, Debug, Default, PartialEq, Eq)]
pub struct Port {
    pub end: End,
    pub dir: u8,
}

impl Port {
    /// Its place in port order.
    pub fn place(self) -> usize
        requires { self.dir < 6 }
        ensures { result ≡ pair_place self }
    {
        match self.end {
            End::Head => usize::from(self.dir),
            End::Tail => 6 + usize::from(self.dir),
        }
    }
}

/// An amoebot: its nodes, which are equal or adjacent; its rotation, 0 to 5; its chirality;
/// its public memory.
#[derive(Clone, Copy, Debug, Default, PartialEq, Eq)]
pub struct Bot {
    pub head: Node,
    pub tail: Node,
    pub rot: u8,
    pub chir: Chir,
    pub mem: [u8; 8],
}

impl Bot {
    /// Whether head and tail are one node.
    pub fn is_contracted(&self) -> bool
        ensures { result ≡ is_contracted self.now }
    {
        self.head == self.tail
    }

    /// Whether the node is the head or the tail.
    pub fn is_own(&self, node: Node) -> bool
        ensures { result ≡ is_own self.now node }
    {
        self.head == node || self.tail == node
    }

    /// The global direction of a local one, which is below 6.
    pub fn global(&self, local: u8) -> Dir
        requires rot { self.now.rot < 6 }
        requires below { local < 6 }
        ensures { result ≡ global self.now local }
    {
        let number = match self.chir {
            Chir::Plus => within_six(self.rot + local),
            Chir::Minus => within_six(self.rot + (6 - local)),
        };
        Dir::new(number).unwrap()
    }

    /// The local direction of a global one.
    pub fn local(&self, dir: Dir) -> u8
        requires { self.now.rot < 6 }
        ensures { result ≡ local self.now dir }
    {
        let number = dir.number();
        match self.chir {
            Chir::Plus => within_six(number + (6 - self.rot)),
            Chir::Minus => within_six(self.rot + (6 - number)),
        }
    }

    /// The node of an end.
    pub fn end_node(&self, end: End) -> Node
        ensures { result ≡ end_node self.now end }
    {
        match end {
            End::Head => self.head,
            End::Tail => self.tail,
        }
    }

    /// The node behind a pair of an end and a local direction.
    pub fn behind(&self, port: Port) -> Node
        requires rot { self.now.rot < 6 }
        requires below { port.dir < 6 }
        requires head { IsNear self.now.head }
        requires tail { IsNear self.now.tail }
        ensures { result ≡ behind self.now port }
    {
        self.end_node(port.end).step(self.global(port.dir))
    }

    /// Whether the pair is a port of the amoebot: a contracted one has the six of its head,
    /// an expanded one those of both ends that lead to no node of its own.
    pub fn is_port(&self, port: Port) -> bool
        requires rot { self.now.rot < 6 }
        requires head { IsNear self.now.head }
        requires tail { IsNear self.now.tail }
        ensures value { result ≡ is_port self.now port }
        ensures below { result ≡ true → port.dir < 6 }
    {
        if port.dir >= 6 {
            return false;
        }
        if self.is_contracted() {
            port.end == End::Head
        } else {
            !self.is_own(self.behind(port))
        }
    }
}

/// The remainder that division by 6 leaves of a number below 12.
fn within_six(number: u8) -> u8
    requires { number < 12 }
    ensures { result ≡ number % 6 }
{
    if number < 6 { number } else { number - 6 }
}

/// All pairs of an end and a local direction, in port order: head before tail,
/// then rising direction.
pub const ALL_PORTS: [Port; 12] = [
    Port {
        end: End::Head,
        dir: 0,
    },
    Port {
        end: End::Head,
        dir: 1,
    },
    Port {
        end: End::Head,
        dir: 2,
    },
    Port {
        end: End::Head,
        dir: 3,
    },
    Port {
        end: End::Head,
        dir: 4,
    },
    Port {
        end: End::Head,
        dir: 5,
    },
    Port {
        end: End::Tail,
        dir: 0,
    },
    Port {
        end: End::Tail,
        dir: 1,
    },
    Port {
        end: End::Tail,
        dir: 2,
    },
    Port {
        end: End::Tail,
        dir: 3,
    },
    Port {
        end: End::Tail,
        dir: 4,
    },
    Port {
        end: End::Tail,
        dir: 5,
    },
];

ghost use Rattle.std.specs.Prelude.{◌≡◌, ◌≤ℤ◌, ◌-ℤ◌, pos, negsuc, IfNone, IfSome};
ghost use Rattle.tri_lattice.specs.Lattice.{step, ring, distance, IsNear, Leads, Adjacent};

use crate::dir::Dir;

/// A node of the lattice, by its coordinates.
#[derive(Clone, Copy, Debug, Default, PartialEq, Eq)]
pub struct Node {
    pub x: i16,
    pub y: i16,
}

impl Node {
    /// The neighbour in a direction. Both coordinates lie in -16000..=16000.
    pub fn step(self, dir: Dir) -> Node
        requires { IsNear self }
        ensures { result ≡ step self dir }
    {
        let (dx, dy) = dir.offset();
        Node {
            x: self.x + dx,
            y: self.y + dy,
        }
    }

    /// The six neighbours, in directions 0 to 5. Both coordinates lie in -16000..=16000.
    pub fn ring(self) -> [Node; 6]
        requires { IsNear self }
        ensures { result ≡ ring self }
    {
        [
            self.step(Dir::at(0)),
            self.step(Dir::at(1)),
            self.step(Dir::at(2)),
            self.step(Dir::at(3)),
            self.step(Dir::at(4)),
            self.step(Dir::at(5)),
        ]
    }
}

/// The direction from `a` to `b`; None exactly where they are not adjacent. All coordinates lie in
/// -16000..=16000.
pub fn adjacent(a: Node, b: Node) -> Option<Dir>
    requires a_near { IsNear a }
    requires b_near { IsNear b }
    ensures some { IfSome result (Leads a b) }
    ensures none { IfNone result (¬ Adjacent a b) }
{
    for number in 0..6 {
        let dir = Dir::at(number);
        if a.step(dir) == b {
            return Some(dir);
        }
    }
    None
}

/// How far apart two nodes are: the greatest of `|dx|`, `|dy|` and `|dx + dy|`.
/// All coordinates lie in -16000..=16000.
pub fn distance(a: Node, b: Node) -> u32
    requires a_near { IsNear a }
    requires b_near { IsNear b }
    ensures { result ≡ distance a b }
{
    let dx = offset(a.x, b.x);
    let dy = offset(a.y, b.y);
    dx.unsigned_abs()
        .max(dy.unsigned_abs())
        .max((dx + dy).unsigned_abs())
}

/// How far the second coordinate lies above the first.
fn offset(from: i16, to: i16) -> i32
    ensures value { result ≡ to -ℤ from }
    ensures low { negsuc 65534 ≤ℤ result }
    ensures high { result ≤ℤ pos 65535 }
{
    i32::from(to) - i32::from(from)
}

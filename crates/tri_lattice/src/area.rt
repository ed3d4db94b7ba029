ghost use Rattle.std.specs.Prelude.{◌≡◌, ℕ, ◌<◌, ◌↔◌, ◌*◌, ◌-ℤ◌, Decides, IfSome, IsSome, IsTrue};
ghost use Rattle.tri_lattice.specs.Extent.{Extent, IsArea, index_of, is_in, is_amid, is_amid_side, node_at};
ghost use Rattle.tri_lattice.specs.{Extent.{axis_offset as place_of}, Lattice.{step}};

use crate::node::Node;
use std::marker::Model;

/// The box of nodes in which a world lies: `x0 <= x < x0 + w` and `y0 <= y < y0 + h`.
///
/// Its nodes are numbered row by row: node (x, y) has the number `(y - y0) * w + (x - x0)`.
#[derive(Clone, Copy, Debug, PartialEq, Eq)]
pub struct Area {
    x0: i16,
    y0: i16,
    w: u16,
    h: u16,
}

impl Model for Area {
    ghost use Rattle.tri_lattice.specs.Extent.{Extent, IsArea};

    ghost Value = { Extent };

    ghost view = { λ a. record { x0 = a.x0; y0 = a.y0; w = a.w; h = a.h } };

    ghost invariant = { λ a. IsArea (record { x0 = a.x0; y0 = a.y0; w = a.w; h = a.h }) };

    ghost inverse = { λ e. record { x0 = e.x0; y0 = e.y0; w = e.w; h = e.h } };
}

impl Area {
    /// The area that begins at (x0, y0) and is `w` nodes wide and `h` high;
    /// None exactly where `x0` or `y0` is outside -4096..=4096 or `w` or `h` is outside 1..=128.
    pub fn new(x0: i16, y0: i16, w: u16, h: u16) -> Option<Area>
        ensures some { IsSome result ↔ IsArea (record { x0 = x0; y0 = y0; w = w; h = h }) }
        ensures value { IfSome result (λ a. a ≡ record { x0 = x0; y0 = y0; w = w; h = h }) }
    {
        if x0 < -4096 || x0 > 4096 || y0 < -4096 || y0 > 4096 {
            return None;
        }
        if w < 1 || w > 128 || h < 1 || h > 128 {
            return None;
        }
        Some(Area { x0, y0, w, h })
    }

    /// The least x of its nodes.
    pub fn x0(&self) -> i16
        ensures { result ≡ self.now.x0 }
    {
        self.x0
    }

    /// The least y of its nodes.
    pub fn y0(&self) -> i16
        ensures { result ≡ self.now.y0 }
    {
        self.y0
    }

    /// How many nodes wide it is, 1 to 128.
    pub fn w(&self) -> u16
        ensures { result ≡ self.now.w }
    {
        self.w
    }

    /// How many nodes high it is, 1 to 128.
    pub fn h(&self) -> u16
        ensures { result ≡ self.now.h }
    {
        self.h
    }

    /// How many nodes it has, at most 16,384.
    pub fn size(&self) -> u32
        ensures value { result ≡ self.now.w * self.now.h }
        ensures area { IsArea self.now }
    {
        u32::from(self.w) * u32::from(self.h)
    }

    /// The number of a node; None exactly where the node lies outside.
    pub fn index(&self, node: Node) -> Option<u32>
        ensures value { result ≡ index_of self.now node }
        ensures below { IfSome result (λ n. n < self.now.w * self.now.h) }
    {
        let column = side_offset(node.x, self.x0, self.w)?;
        let row = side_offset(node.y, self.y0, self.h)?;
        Some(row * u32::from(self.w) + column)
    }

    /// Whether all six neighbours of a node lie inside.
    pub fn has_ring(&self, node: Node) -> bool
        ensures { Decides result ((d : ℕ) → d < 6 → IsTrue (is_in self.now (step node d))) }
    {
        self.is_amid(node)
    }

    /// Whether the node lies inside, and at no side of the area.
    fn is_amid(&self, node: Node) -> bool
        ensures { result ≡ is_amid self.now node }
    {
        is_amid_side(node.x, self.x0, self.w) && is_amid_side(node.y, self.y0, self.h)
    }

    /// The node with a number below the size.
    pub fn node(&self, number: u32) -> Node
        requires { number < self.now.w * self.now.h }
        ensures { result ≡ node_at self.now number }
    {
        let w = u32::from(self.w);
        let column = (number % w) as i16;
        let row = (number / w) as i16;
        Node {
            x: self.x0 + column,
            y: self.y0 + row,
        }
    }
}

/// The place of a coordinate in the side of this length that begins at `from`; None outside.
fn side_offset(at: i16, from: i16, side: u16) -> Option<u32>
    ensures value { result ≡ place_of (at -ℤ from) side }
    ensures below { IfSome result (λ n. n < side) }
{
    let into = i32::from(at) - i32::from(from);
    if into < 0 {
        return None;
    }
    let into = into as u32;
    if into < u32::from(side) {
        Some(into)
    } else {
        None
    }
}

/// Whether a coordinate is in the side of this length that begins at `from`,
/// and at neither end of it.
fn is_amid_side(at: i16, from: i16, side: u16) -> bool
    ensures { result ≡ is_amid_side (at -ℤ from) side }
{
    let into = i32::from(at) - i32::from(from);
    if into < 0 {
        return false;
    }
    let into = into as u32;
    into > 0 && into + 1 < u32::from(side)
}

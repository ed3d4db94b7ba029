ghost use Rattle.std.specs.Prelude.{◌≡◌, ◌<◌, ◌≤ℤ◌, pos, negsuc, ◌↔◌, IsNone, IfSome};
ghost use Rattle.tri_lattice.specs.Lattice.{turned, opposite, dx, dy};

use std::marker::Model;

/// One of the six directions of the lattice, by its number 0 to 5.
///
/// | number | 0 | 1 | 2 | 3 | 4 | 5 |
/// |---|---|---|---|---|---|---|
/// | step | (1, 0) | (0, 1) | (-1, 1) | (-1, 0) | (0, -1) | (1, -1) |
#[derive(Clone, Copy, Debug, PartialEq, Eq)]
pub struct Dir {
    number: u8,
}

impl Model for Dir {
    ghost use Rattle.std.specs.Prelude.{ℕ, ◌<◌};

    ghost Value = { ℕ };

    ghost view = { λ d. d.number };

    ghost invariant = { λ d. d.number < 6 };

    ghost inverse = { λ n. record { number = n } };
}

impl Dir {
    /// The direction with a number; None exactly where the number is above 5.
    pub fn new(number: u8) -> Option<Dir>
        ensures none { IsNone result ↔ (5 < number) }
        ensures some { IfSome result (λ d. d ≡ number) }
    {
        if number > 5 {
            None
        } else {
            Some(Dir { number })
        }
    }

    /// Its number, below 6.
    pub fn number(self) -> u8
        ensures value { result ≡ self }
        ensures below { result < 6 }
    {
        self.number
    }

    /// The direction whose number is higher by `by`, modulo 6.
    pub fn turned(self, by: u8) -> Dir
        requires { by < 6 }
        ensures { result ≡ turned self by }
    {
        Dir {
            number: (self.number + by) % 6,
        }
    }

    /// The direction that leads back.
    pub fn opposite(self) -> Dir
        ensures { result ≡ opposite self }
    {
        self.turned(3)
    }

    pub(crate) fn at(number: u8) -> Dir
        requires { number < 6 }
        ensures { result ≡ number }
    {
        Dir { number }
    }

    /// What a step in this direction adds to x and to y.
    pub(crate) fn offset(self) -> (i16, i16)
        ensures along_x { result.0 ≡ dx self }
        ensures along_y { result.1 ≡ dy self }
        ensures near_x { (negsuc 0 ≤ℤ result.0) × (result.0 ≤ℤ pos 1) }
        ensures near_y { (negsuc 0 ≤ℤ result.1) × (result.1 ≤ℤ pos 1) }
    {
        match self.number {
            0 => (1, 0),
            1 => (0, 1),
            2 => (-1, 1),
            3 => (-1, 0),
            4 => (0, -1),
            _ => (1, -1),
        }
    }
}

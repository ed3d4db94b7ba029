ghost use Rattle.std.specs.Prelude.{◌≡◌, ◌++◌, length, take, min, IfOk};
ghost use Rattle.std.specs.declared.option.Option.TheVariants.{Some};

use crate::errors::{Failed, NoMemory};
use crate::source::Source;
use std::alloc::Global;
use std::marker::Model;

/// A source over bytes in memory, which never fails. It is seen as the bytes that are left.
#[derive(Drop)]
pub struct SureSource {
    bytes: Vec<u8>,
    from: usize,
}

impl Model for SureSource {
    ghost use Rattle.std.specs.Prelude.{ℕ, ◌≤◌, List, drop, vec_len};

    ghost Value = { List ℕ };

    ghost view = { λ source. drop source.from source.bytes.items };

    ghost invariant = { λ source. source.from ≤ vec_len source.bytes };
}

impl SureSource {
    /// A source of a copy of these bytes.
    pub fn new(alloc: Global, bytes: &[u8]) -> Result<SureSource, NoMemory>
        ensures { IfOk result (λ source. source ≡ bytes.now) }
    {
        let bytes = Vec::from_slice(alloc, bytes)?;
        Ok(SureSource { bytes, from: 0 })
    }
}

impl Source for SureSource {
    ghost left = { λ bytes. Some bytes };

    ghost faults = { λ _. 0 };

    ghost gives = { λ old bytes new. old ≡ bytes ++ new };

    ghost fails = { λ _ _. ⊥ };

    fn read(&mut self, piece: &mut [u8]) -> Result<usize, Failed> {
        let count = copy_front(piece, &self.bytes[self.from..]);
        self.from += count;
        Ok(count)
    }
}

/// Copies as many of the bytes as the piece has room for, and gives their number.
fn copy_front(piece: &mut [u8], bytes: &[u8]) -> usize
    ensures count { result ≡ min (length piece.old) (length bytes.now) }
    ensures front { take result piece.new ≡ take result bytes.now }
{
    let count = piece.len().min(bytes.len());
    piece[..count].copy_from_slice(&bytes[..count]);
    count
}

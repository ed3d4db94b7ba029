ghost use Rattle.std.specs.Prelude.{◌≡◌, ◌<◌, ◌↔◌, length, IfOk, IsTrue, IsSome};
ghost use Rattle.outer_io.specs.KeptBytes.{nothing_kept, kept_after, KeepsPiece, written_of};
ghost use Rattle.outer_io.specs.KeptBytes.{PiecesAreKeptAsOne, TextIsKeptAsOnePiece};

use crate::errors::{Failed, NoMemory};
use crate::sink::Sink;
use std::alloc::Global;
use std::marker::Model;

/// A sink into memory of a fixed room, which never fails.
///
/// It takes every piece whole.
/// Bytes for which no room is left are dropped, and from then on it tells nothing.
#[derive(Drop)]
pub struct SureSink {
    bytes: Vec<u8>,
    room: usize,
    whole: bool,
}

impl Model for SureSink {
    ghost use Rattle.std.specs.Prelude.{◌≤◌, vec_len, vec_capacity};
    ghost use Rattle.outer_io.specs.KeptBytes.{KeptBytes};

    ghost Value = { KeptBytes };

    ghost view = { λ sink. record { room = sink.room; bytes = sink.bytes.items; is_whole = sink.whole } };

    ghost invariant = { λ sink. (vec_len sink.bytes ≤ sink.room) × (sink.room ≤ vec_capacity sink.bytes) };
}

impl SureSink {
    /// A sink with room for this many bytes.
    /// It takes the memory for all of them now, and none later.
    pub fn new(alloc: Global, room: u32) -> Result<SureSink, NoMemory>
        ensures { IfOk result (λ sink. sink ≡ nothing_kept room) }
    {
        let room = room as usize;
        let bytes = Vec::with_capacity(alloc, room)?;
        Ok(SureSink {
            bytes,
            room,
            whole: true,
        })
    }

    /// Whether no byte was dropped. The sink tells what was written exactly then.
    pub fn whole(&self) -> bool
        ensures value { result ≡ self.now.is_whole }
        ensures told { IsTrue result ↔ IsSome (written_of self.now) }
    {
        self.whole
    }

    /// The bytes that were kept.
    pub fn bytes(&self) -> &[u8]
        ensures kept { result.now ≡ self.now.bytes }
    {
        self.bytes.as_slice()
    }
}

impl Sink for SureSink {
    ghost written = { written_of };

    ghost faults = { λ _. 0 };

    ghost takes = { KeepsPiece };

    ghost fails = { λ _ _ _. ⊥ };

    /// Takes the piece whole, and drops the bytes of it that no longer fit.
    fn write(&mut self, piece: &[u8]) -> Result<usize, Failed>
        requires { 0 < length piece.now }
        ensures taken { result ≡ Ok (length piece.now) }
        ensures kept { self.new ≡ kept_after self.old piece.now }
    {
        let fits = piece.len().min(self.room - self.bytes.len());
        if self.bytes.extend_from_slice(&piece[..fits]).is_err() {
            unreachable!();
        }
        if fits < piece.len() {
            self.whole = false;
        }
        Ok(piece.len())
    }
}

/// What a `SureSink` keeps of two pieces is what it keeps of both as one.
pub fn pieces_are_kept_as_one()
    ensures { PiecesAreKeptAsOne }
{}

/// A text that was written whole to a `SureSink` leaves it as one write of the text does.
pub fn text_is_kept_as_one_piece()
    ensures { TextIsKeptAsOnePiece }
{}

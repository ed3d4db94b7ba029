ghost use Rattle.std.specs.Prelude.{◌≡◌, ℕ, ◌<◌, ◌≤◌, List, length, ⊤, IfOk, IfErr, OnErr, IsErrOf};
ghost use Rattle.std.specs.{declared.option.Option.{Option}, Io.{ReadsAtMost}, Io.KnownBytes.{ReadConsumes}};
ghost use Rattle.outer_io.specs.{Told.{Rose}, Calls.{Calls}, Readings.{ReadsWhole, ReadsUpTo}};

use crate::errors::{Failed, ReadError};
use std::alloc::Global;
use std::marker::Model;

/// Bytes that come in.
pub trait Source {
    /// The bytes still to come, where the source tells them.
    ghost left: { Self → Option (List ℕ) };

    /// How often a read failed. The count never falls, and may stay at 2^64 - 1, its last value.
    ghost faults: { Self → ℕ };

    /// What a read that gave these bytes may make of the source.
    /// A source that does not say lets it be anything.
    ghost gives: { Self → List ℕ → Self → Type 0 } = { λ _ _ _. ⊤ };

    /// What a read that failed may make of the source.
    /// A source that does not say lets it be anything.
    ghost fails: { Self → Self → Type 0 } = { λ _ _. ⊤ };

    /// Reads some of the bytes that are left into the front of `piece`, and gives their number.
    ///
    /// 0 is the end of input.
    /// After a failure the bytes that are left are those that were left before.
    fn read(&mut self, piece: &mut [u8]) -> Result<usize, Failed>
        requires { 0 < length piece.old }
        ensures bound { ReadsAtMost result piece.new }
        ensures bytes { ReadConsumes (left self.old) (left self.new) result piece.new }
        ensures call { Calls gives fails self.old self.new result piece.new }
        ensures never_falls { faults self.old ≤ faults self.new }
        ensures cause { OnErr result (Rose (faults self.old) (faults self.new)) };
}

/// All the bytes of a source up to its end, seen as a list.
#[derive(Drop)]
pub struct Document {
    bytes: Vec<u8>,
}

impl Model for Document {
    ghost Value = { List ℕ };

    ghost view = { λ document. document.bytes.items };
}

impl Document {
    /// The bytes.
    pub fn bytes(&self) -> &[u8]
        ensures { result.now ≡ self.now }
    {
        self.bytes.as_slice()
    }
}

/// How many bytes one read asks for at most, so that a document
/// of a mebibyte takes a few hundred reads.
const PIECE: usize = 4096;

/// Reads a source to its end, and gives its bytes, which are at most `limit`.
///
/// It asks for at most one byte above the limit, so that it knows of a longer
/// source without reading all of it.
/// A read that fails or tells the end is the last one.
/// After a refusal the source stands behind the bytes that were got.
///
/// # Errors
///
/// `ReadFault` where a read failed, `TooLong` exactly where more than `limit` bytes were got,
/// and `NoMemory`.
pub fn read_document<S: Source>(
    alloc: Global,
    source: &mut S,
    limit: u32,
) -> Result<Document, ReadError>
    ensures whole { IfOk result (ReadsWhole S.left S.gives limit source.old source.new) }
    ensures refused { IfErr result (λ error.
        (got : List ℕ) × ReadsUpTo S.left S.gives S.fails limit error source.old source.new got) }

    ensures never_falls { S.faults source.old ≤ S.faults source.new }
    ensures fault { IsErrOf result ReadError.ReadFault → Rose (S.faults source.old) (S.faults source.new) }
{
    let most = limit as usize;
    let mut bytes = Vec::new(alloc);
    let mut piece = [0u8; PIECE];
    'reads: loop {
        let room = (most + 1 - bytes.len()).min(PIECE);
        let got = match source.read(&mut piece[..room]) {
            Ok(got) => got,
            Err(Failed) => return Err(ReadError::ReadFault),
        };
        if got == 0 {
            return Ok(Document { bytes });
        }
        if bytes.len() + got > most {
            return Err(ReadError::TooLong);
        }
        bytes.extend_from_slice(&piece[..got])?;
    }
}

ghost use Rattle.std.specs.Prelude.{◌≡◌, ℕ, ◌<◌, ◌≤◌, List, [], length, ⊤, IfOk, MatchResult, OnOk, OnErr};
ghost use Rattle.std.specs.declared.option.Option.{Option};
ghost use Rattle.outer_io.specs.{Told.{Rose, TakesFront}, Writings.{SmallWritings, WritesAll, WritesFront}};

use crate::errors::{Failed, WriteFault};

/// Where bytes go.
pub trait Sink {
    /// The bytes that the sink took, where it tells them.
    ///
    /// A sink may stop telling them, and then never tells them again.
    ghost written: { Self → Option (List ℕ) };

    /// How often a write failed. The count never falls, and may stay at 2^64 - 1, its last value.
    ghost faults: { Self → ℕ };

    /// What a write that was given this piece, and took so many bytes of it, may make of the sink.
    /// A sink that does not say lets it be anything.
    ghost takes: { Self → List ℕ → ℕ → Self → Type 0 } = { λ _ _ _ _. ⊤ };

    /// What a write that was given this piece, and failed, may make of the sink.
    /// A sink that does not say lets it be anything.
    ghost fails: { Self → List ℕ → Self → Type 0 } = { λ _ _ _. ⊤ };

    /// Takes at least one byte from the front of `piece`, and gives the number of bytes taken.
    ///
    /// After a failure none of them was taken.
    fn write(&mut self, piece: &[u8]) -> Result<usize, Failed>
        requires { 0 < length piece.now }
        ensures bound { IfOk result (λ taken. (1 ≤ taken) × (taken ≤ length piece.now)) }
        ensures bytes { TakesFront (written self.old) (written self.new) result piece.now }
        ensures call { MatchResult result
            (λ taken. takes self.old piece.now taken self.new)
            (λ _. fails self.old piece.now self.new) }
        ensures never_falls { faults self.old ≤ faults self.new }
        ensures cause { OnErr result (Rose (faults self.old) (faults self.new)) };
}

/// Writes all the bytes, or those up to the first write that fails.
///
/// Each write is given all the bytes that are left, and one that fails is the last.
/// With no byte there is no write.
///
/// # Errors
///
/// `WriteFault` where a write failed. A front of the bytes was written then.
pub fn write_all<K: Sink>(sink: &mut K, bytes: &[u8]) -> Result<(), WriteFault>
    ensures all { OnOk result (WritesAll K.written K.takes sink.old sink.new bytes.now) }
    ensures nothing { bytes.now ≡ [] → sink.new ≡ sink.old }

    ensures front { OnErr result (WritesFront K.written K.takes K.fails sink.old sink.new bytes.now) }
    ensures never_falls { K.faults sink.old ≤ K.faults sink.new }
    ensures fault { OnErr result (Rose (K.faults sink.old) (K.faults sink.new)) }
{
    let mut from = 0;
    while from < bytes.len() {
        match sink.write(&bytes[from..]) {
            Ok(taken) => from += taken,
            Err(Failed) => return Err(WriteFault),
        }
    }
    Ok(())
}

/// Of three bytes two are taken, and then the last one; a write that is given
/// a part alone is none of `write_all`.
pub fn writes_are_handed()
    ensures { SmallWritings }
{}

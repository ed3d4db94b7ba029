ghost use Rattle.std.specs.Prelude.{◌≡◌, ◌<◌, ◌≤◌, length, take, IfOk};
ghost use Rattle.std.specs.{declared.option.Option.TheVariants.{None}, Io.{ReadsAtMost}};
ghost use Rattle.std.specs.Io.KnownBytes.{ReadConsumes, WriteAppends, Appends, Consumes, Keeps};
ghost use Rattle.outer_io.specs.Counted.{count_after, raised_count};

use crate::errors::Failed;
use crate::sink::Sink;
use crate::source::Source;
use std::io::{Read, Write};
use std::marker::Model;

/// A source over a reader of std, which tells no bytes.
pub type StdSource<T> = StdEnd<T>;

/// A sink over a writer of std, which tells no bytes.
pub type StdSink<T> = StdEnd<T>;

/// A reader or a writer of std with the count of its faults. It is seen as these two.
#[derive(Drop)]
pub struct StdEnd<T: Drop> {
    inner: T,
    faults: u64,
}

impl<T: Drop> Model for StdEnd<T> {
    ghost use Rattle.outer_io.specs.Counted.{Counted};

    ghost Value = { Counted T };

    ghost view = { λ end. record { inner = end.inner; faults = end.faults } };
}

impl<T: Drop> StdEnd<T> {
    /// No fault yet.
    pub fn new(inner: T) -> StdEnd<T>
        ensures { result ≡ record { inner = inner; faults = 0 } }
    {
        StdEnd { inner, faults: 0 }
    }

    /// One fault more. The count stays once it stands at its last value.
    fn note_fault(&mut self)
        ensures value { self.new ≡ record self.old { faults = raised_count self.old.faults } }
        ensures never_falls { self.old.faults ≤ self.new.faults }
    {
        self.faults = self.faults.saturating_add(1);
    }
}

impl<T: Read + Drop> Source for StdEnd<T> {
    ghost left = { λ _. None };

    ghost faults = { λ counted. counted.faults };

    ghost gives = { λ old bytes new.
        Consumes (T.remaining old.inner) (T.remaining new.inner) bytes × (new.faults ≡ old.faults) };

    ghost fails = { λ old new.
        Keeps (T.remaining old.inner) (T.remaining new.inner) × (new.faults ≡ raised_count old.faults) };

    /// Reads once. An error of the reader raises the count.
    fn read(&mut self, piece: &mut [u8]) -> Result<usize, Failed>
        requires { 0 < length piece.old }
        ensures bound { ReadsAtMost result piece.new }
        ensures bytes { ReadConsumes (T.remaining self.old.inner)
            (T.remaining self.new.inner) result piece.new }
        ensures never_falls { self.old.faults ≤ self.new.faults }
        ensures count { self.new.faults ≡ count_after result self.old.faults }
    {
        match self.inner.read(piece) {
            Ok(count) => Ok(count),
            Err(_) => {
                self.note_fault();
                Err(Failed)
            }
        }
    }
}

impl<T: Write + Drop> Sink for StdEnd<T> {
    ghost written = { λ _. None };

    ghost faults = { λ counted. counted.faults };

    ghost takes = { λ old piece taken new.
        Appends (T.contents old.inner) (T.contents new.inner) (take taken piece)
        × (new.faults ≡ old.faults) };

    ghost fails = { λ old piece new.
        Keeps (T.contents old.inner) (T.contents new.inner) × (new.faults ≡ raised_count old.faults) };

    /// Writes once. An error of the writer, or a write that took nothing, raises the count.
    fn write(&mut self, piece: &[u8]) -> Result<usize, Failed>
        requires { 0 < length piece.now }
        ensures bound { IfOk result (λ taken. (1 ≤ taken) × (taken ≤ length piece.now)) }
        ensures bytes { WriteAppends (T.contents self.old.inner)
            (T.contents self.new.inner) result piece.now }
        ensures never_falls { self.old.faults ≤ self.new.faults }
        ensures count { self.new.faults ≡ count_after result self.old.faults }
    {
        match self.inner.write(piece) {
            Ok(taken) if taken > 0 => Ok(taken),
            _ => {
                self.note_fault();
                Err(Failed)
            }
        }
    }
}

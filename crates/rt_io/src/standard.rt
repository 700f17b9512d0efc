ghost use Rattle.std.specs.Prelude.{◌≡◌, IfErr, IfOk, None, Some};

use crate::sink::{Sink, Wrote};
use crate::source::{Read, Source};
use std::io;

/// A source over a standard reader, as a file or standard input. What is left in it is not told.
#[derive(Drop)]
pub struct StandardSource<R> {
    reader: Option<R>,
    faults: u64,
}

impl<R: io::Read + Drop> StandardSource<R> {
    /// A source over what was opened. Where it couldn't be opened, each read of the source fails.
    pub fn new(opened: io::Result<R>) -> Self
        ensures faults { ⟦<StandardSource<R> as Source>⟧.faults result ≡ 0 }
        ensures kept { IfOk opened (λ reader. result.reader ≡ Some reader) }
        ensures failing { IfErr opened (λ _. result.reader ≡ None) }
    {
        StandardSource {
            reader: opened.ok(),
            faults: 0,
        }
    }
}

impl<R: io::Read + Drop> Source for StandardSource<R> {
    ghost left = { λ _. None };

    ghost faults = { λ s. s.faults };

    fn read(&mut self, buf: &mut [u8]) -> Read {
        if let Some(reader) = &mut self.reader {
            if let Ok(count) = reader.read(buf) {
                return Read::Bytes(count);
            }
        }
        self.faults = self.faults.saturating_add(1);
        Read::Failed
    }

    fn faults(&self) -> u64 {
        self.faults
    }
}

/// A sink over a standard writer, as a file or standard output. What it took is not told.
#[derive(Drop)]
pub struct StandardSink<W> {
    writer: W,
    faults: u64,
}

impl<W: io::Write + Drop> StandardSink<W> {
    /// A sink over the writer.
    pub fn new(writer: W) -> Self
        ensures faults { ⟦<StandardSink<W> as Sink>⟧.faults result ≡ 0 }
        ensures kept { result.writer ≡ writer }
    {
        StandardSink { writer, faults: 0 }
    }
}

impl<W: io::Write + Drop> Sink for StandardSink<W> {
    ghost held = { λ _. None };

    ghost faults = { λ s. s.faults };

    /// A writer that takes nothing of a piece that isn't empty has failed.
    fn write(&mut self, piece: &[u8]) -> Wrote {
        match self.writer.write(piece) {
            Ok(count) if count > 0 || piece.is_empty() => Wrote::Bytes(count),
            _ => {
                self.faults = self.faults.saturating_add(1);
                Wrote::Failed
            }
        }
    }

    fn faults(&self) -> u64 {
        self.faults
    }
}

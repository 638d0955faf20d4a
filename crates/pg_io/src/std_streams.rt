//! The adapters over real readers and writers. They tell nothing of the bytes, and pass them on as the reader or writer
//! gives and takes them.

ghost use Rattle.std.specs.Prelude.{◌≡◌, None};
ghost use Rattle.std.specs.Io.KnownBytes.{ReadConsumes, WriteAppends};
ghost use Rattle.pg_io.specs.Streams.{ReadsWithin, ReadTakes, WritesSome, Gains, HasCause};

use crate::known::Known;
use crate::streams::{Failed, Sink, Source};
use std::io::{Read, Write};

/// A reader, such as standard input, as a source.
#[derive(Debug, Drop)]
pub struct StdSource<R> {
    reader: R,
    faults: u64,
}

impl<R: Read> StdSource<R> {
    /// The reader as a source of which no call has failed.
    pub fn over(reader: R) -> StdSource<R>
        ensures faults { ⟦<StdSource<R> as Source>⟧.faults result ≡ 0 }
        ensures known { ⟦<StdSource<R> as Known>⟧.known result ≡ R.remaining reader }
    {
        StdSource { reader, faults: 0 }
    }
}

impl<R: Read> Known for StdSource<R> {
    ghost known = { λ source. R.remaining source.reader };
}

impl<R: Read> Source for StdSource<R> {
    ghost left = { λ _. None };

    ghost given = { λ _. None };

    ghost faults = { λ source. source.faults };

    fn read(&mut self, into: &mut [u8]) -> Result<usize, Failed>
        ensures bound { ReadsWithin result into.new }
        ensures bytes { ReadTakes (⟦<StdSource<R> as Source>⟧.left self.old)
            (⟦<StdSource<R> as Source>⟧.left self.new) result into.new }
        ensures given { Gains (⟦<StdSource<R> as Source>⟧.given self.old)
            (⟦<StdSource<R> as Source>⟧.given self.new) result into.new }
        ensures cause { HasCause (⟦<StdSource<R> as Source>⟧.faults self.old)
            (⟦<StdSource<R> as Source>⟧.faults self.new) result }
        ensures passed { ReadConsumes (⟦<StdSource<R> as Known>⟧.known self.old)
            (⟦<StdSource<R> as Known>⟧.known self.new) result into.new }
    {
        match self.reader.read(into) {
            Ok(count) => Ok(count),
            Err(_) => {
                self.faults = self.faults.saturating_add(1);
                Err(Failed)
            }
        }
    }
}

/// A writer, such as standard output, as a sink.
#[derive(Debug, Drop)]
pub struct StdSink<W> {
    writer: W,
    faults: u64,
}

impl<W: Write> StdSink<W> {
    /// The writer as a sink of which no call has failed.
    pub fn over(writer: W) -> StdSink<W>
        ensures faults { ⟦<StdSink<W> as Sink>⟧.faults result ≡ 0 }
        ensures known { ⟦<StdSink<W> as Known>⟧.known result ≡ W.contents writer }
    {
        StdSink { writer, faults: 0 }
    }
}

impl<W: Write> Known for StdSink<W> {
    ghost known = { λ sink. W.contents sink.writer };
}

impl<W: Write> Sink for StdSink<W> {
    ghost taken = { λ _. None };

    ghost faults = { λ sink. sink.faults };

    fn write(&mut self, from: &[u8]) -> Result<usize, Failed>
        ensures bound { WritesSome result from.now }
        ensures bytes { Gains (⟦<StdSink<W> as Sink>⟧.taken self.old)
            (⟦<StdSink<W> as Sink>⟧.taken self.new) result from.now }
        ensures cause { HasCause (⟦<StdSink<W> as Sink>⟧.faults self.old)
            (⟦<StdSink<W> as Sink>⟧.faults self.new) result }
        ensures passed { WriteAppends (⟦<StdSink<W> as Known>⟧.known self.old)
            (⟦<StdSink<W> as Known>⟧.known self.new) result from.now }
    {
        match self.writer.write(from) {
            Ok(count) if count > 0 || from.is_empty() => Ok(count),
            _ => {
                self.faults = self.faults.saturating_add(1);
                Err(Failed)
            }
        }
    }
}

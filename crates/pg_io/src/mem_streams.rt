//! Sources and sinks in memory, which tell their bytes.

ghost use Rattle.std.specs.Prelude.{◌≡◌, [], ◌++◌, Some, take, drop};
ghost use Rattle.pg_io.specs.Plan as spec;
ghost use Rattle.pg_io.specs.Streams.{ReadsWithin, ReadTakes, WritesSome, Gains, HasCause};

use crate::failing::{Failing, Planned};
use crate::streams::{Failed, Sink, Source};
use pg_base::Blob;
use std::alloc::Global;

/// Bytes in memory, of which some calls are to fail.
#[derive(Debug, Drop)]
pub struct MemSource {
    bytes: Blob,
    at: usize,
    faults: u64,
    failing: Failing,
}

impl MemSource {
    /// A source of these bytes, whose calls with these numbers, from 1, fail.
    pub fn of(bytes: Blob, failing: Vec<u64>) -> MemSource
        ensures bytes { ⟦<MemSource as Source>⟧.left result ≡ Some bytes }
        ensures given { ⟦<MemSource as Source>⟧.given result ≡ Some [] }
        ensures faults { ⟦<MemSource as Source>⟧.faults result ≡ 0 }
        ensures plan { ⟦<MemSource as Planned>⟧.plan result ≡ spec.fresh failing.items }
    {
        MemSource {
            bytes,
            at: 0,
            faults: 0,
            failing: Failing::of(failing),
        }
    }
}

impl Planned for MemSource {
    ghost plan = { λ source. source.failing };
}

impl Source for MemSource {
    ghost left = { λ source. Some (drop source.at source.bytes) };

    ghost given = { λ source. Some (take source.at source.bytes) };

    ghost faults = { λ source. source.faults };

    fn read(&mut self, into: &mut [u8]) -> Result<usize, Failed>
        ensures bound { ReadsWithin result into.new }
        ensures bytes { ReadTakes (⟦<MemSource as Source>⟧.left self.old)
            (⟦<MemSource as Source>⟧.left self.new) result into.new }
        ensures given { Gains (⟦<MemSource as Source>⟧.given self.old)
            (⟦<MemSource as Source>⟧.given self.new) result into.new }
        ensures cause { HasCause (⟦<MemSource as Source>⟧.faults self.old)
            (⟦<MemSource as Source>⟧.faults self.new) result }
        ensures counted { ⟦<MemSource as Planned>⟧.plan self.new
            ≡ spec.after_call (⟦<MemSource as Planned>⟧.plan self.old) }
        ensures planned { spec.FailsAsPlanned
            (spec.fails_next (⟦<MemSource as Planned>⟧.plan self.old)) result }
    {
        if self.failing.fails_next() {
            self.faults = self.faults.saturating_add(1);
            return Err(Failed);
        }
        let bytes = self.bytes.bytes();
        let from = self.at.min(bytes.len());
        let rest = &bytes[from..];
        let count = rest.len().min(into.len());
        into[..count].copy_from_slice(&rest[..count]);
        self.at = from + count;
        Ok(count)
    }
}

/// Bytes that were taken into memory, where some calls are to fail.
#[derive(Debug, Drop)]
pub struct MemSink {
    taken: Vec<u8>,
    faults: u64,
    failing: Failing,
}

impl MemSink {
    /// A sink that has taken nothing, whose calls with these numbers, from 1, fail.
    pub fn of(alloc: Global, failing: Vec<u64>) -> MemSink
        ensures bytes { ⟦<MemSink as Sink>⟧.taken result ≡ Some [] }
        ensures faults { ⟦<MemSink as Sink>⟧.faults result ≡ 0 }
        ensures plan { ⟦<MemSink as Planned>⟧.plan result ≡ spec.fresh failing.items }
    {
        MemSink {
            taken: Vec::new(alloc),
            faults: 0,
            failing: Failing::of(failing),
        }
    }

    /// The bytes that were taken.
    pub fn bytes(&self) -> &[u8]
        ensures { ⟦<MemSink as Sink>⟧.taken self.now ≡ Some result.now }
    {
        self.taken.as_slice()
    }
}

impl Planned for MemSink {
    ghost plan = { λ sink. sink.failing };
}

impl Sink for MemSink {
    ghost taken = { λ sink. Some sink.taken.items };

    ghost faults = { λ sink. sink.faults };

    fn write(&mut self, from: &[u8]) -> Result<usize, Failed>
        ensures bound { WritesSome result from.now }
        ensures bytes { Gains (⟦<MemSink as Sink>⟧.taken self.old)
            (⟦<MemSink as Sink>⟧.taken self.new) result from.now }
        ensures cause { HasCause (⟦<MemSink as Sink>⟧.faults self.old)
            (⟦<MemSink as Sink>⟧.faults self.new) result }
        ensures counted { ⟦<MemSink as Planned>⟧.plan self.new
            ≡ spec.after_call (⟦<MemSink as Planned>⟧.plan self.old) }
        ensures planned { spec.FailsWherePlanned
            (spec.fails_next (⟦<MemSink as Planned>⟧.plan self.old)) result }
    {
        if self.failing.fails_next() || self.taken.extend_from_slice(from).is_err() {
            self.faults = self.faults.saturating_add(1);
            return Err(Failed);
        }
        Ok(from.len())
    }
}

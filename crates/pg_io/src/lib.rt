//! The outside: sources, sinks and files as traits with a written meaning and a count of faults, fakes in memory that
//! tell all that they hold, and thin adapters over the real things, which tell nothing.
#![tactic(auto)]

mod counts;
mod failing;
mod files;
mod known;
mod mem_files;
mod mem_streams;
mod std_files;
mod std_streams;
mod streams;

pub use failing::Planned;
pub use files::{FileFault, Files};
pub use known::{Known, KnownFiles};
pub use mem_files::{MemFile, MemFiles};
pub use mem_streams::{MemSink, MemSource};
pub use std_files::{Opener, StdFiles, System};
pub use std_streams::{StdSink, StdSource};
pub use streams::{Failed, Sink, Source, write_all};

#[cfg(test)]
mod tests;

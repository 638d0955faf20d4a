//! The adapter over the files of the system. It tells nothing of what they hold, and gives what their readers give; of
//! the system only the opening is trusted.

ghost use Rattle.std.specs.Prelude.{◌≡◌, ◌≤◌, ℕ, List, length, IfOk};
ghost use Rattle.std.specs.Io.KnownBytes.{Keeps};
ghost use Rattle.pg_io.specs.Files.{Untold, FileIs, ReadsFile, ReadsUpTo, HasFileCause, OthersStay};
ghost use Rattle.pg_io.specs.Counts.{count_of};

use crate::counts::Counts;
use crate::files::{FileFault, Files};
use crate::known::KnownFiles;
use pg_base::{Blob, Memory};
use std::alloc::{AllocError, Global};
use std::fs;
use std::io::{self, ErrorKind, Read};
use std::rt::Files as SystemFiles;

/// Opens files by their names.
pub trait Opener: KnownFiles {
    type File: Read + Drop;

    /// The file of the name, to be read from its begin. Where its bytes are known, they are those that the reader has left.
    fn open(&self, name: &str) -> io::Result<Self::File>
        ensures { IfOk result
            (λ file. Keeps (Self.known self.now name.now) (Self.File.remaining file)) };
}

/// The files of the system that runs the program.
#[derive(Drop)]
pub struct System<R> {
    runtime: R,
}

impl<R: SystemFiles> System<R> {
    pub fn of(runtime: R) -> System<R> {
        System { runtime }
    }
}

impl<R: SystemFiles> KnownFiles for System<R> {
    ghost use Rattle.std.specs.Prelude.{None};

    ghost known = { λ _ _. None };
}

impl<R: SystemFiles> Opener for System<R> {
    type File = R::File;

    fn open(&self, name: &str) -> io::Result<R::File> {
        fs::open(&self.runtime, name)
    }
}

/// The files that an opener shows.
#[derive(Drop)]
pub struct StdFiles<O> {
    opener: O,
    counts: Counts,
}

impl<O: Opener> StdFiles<O> {
    /// The opener's files, of which no call has failed.
    #[tactic(auto, unfolding(crate::specs::Counts::count_of))]
    pub fn over(alloc: Global, opener: O) -> StdFiles<O>
        ensures faults { (name : List ℕ) → ⟦<StdFiles<O> as Files>⟧.faults result name ≡ 0 }
        ensures known { (name : List ℕ)
            → ⟦<StdFiles<O> as KnownFiles>⟧.known result name ≡ O.KnownFiles.known opener name }
    {
        StdFiles {
            opener,
            counts: Counts::none(alloc),
        }
    }
}

impl<O: Opener> KnownFiles for StdFiles<O> {
    ghost known = { λ files. O.KnownFiles.known files.opener };
}

impl<O: Opener> Files for StdFiles<O> {
    ghost file = { λ _ _. Untold };

    ghost faults = { λ files name. count_of files.counts name };

    fn read_file(&mut self, alloc: Global, name: &str, limit: usize) -> Result<Blob, FileFault>
        ensures bytes { FileIs (⟦<StdFiles<O> as Files>⟧.file self.old name.now) result limit }
        ensures within { IfOk result (λ bytes. length bytes ≤ limit) }
        ensures cause { HasFileCause (⟦<StdFiles<O> as Files>⟧.faults self.old name.now)
            (⟦<StdFiles<O> as Files>⟧.faults self.new name.now) result }
        ensures others { OthersStay (⟦<StdFiles<O> as Files>⟧.faults self.old)
            (⟦<StdFiles<O> as Files>⟧.faults self.new) name.now }
        ensures kept { (other : List ℕ)
            → ⟦<StdFiles<O> as Files>⟧.file self.new other
            ≡ ⟦<StdFiles<O> as Files>⟧.file self.old other }
        ensures passed { ReadsFile (⟦<StdFiles<O> as KnownFiles>⟧.known self.old name.now)
            result limit }
    {
        match open_and_read(alloc, &self.opener, name, limit) {
            Ok(Some(bytes)) => Ok(bytes),
            Ok(None) => Err(FileFault::TooLarge),
            Err(error) if error.kind() == ErrorKind::OutOfMemory => Err(FileFault::Memory(
                AllocError,
            )),
            Err(_) => {
                self.counts.raise(alloc, name)?;
                Err(FileFault::Failed)
            }
        }
    }
}

/// The bytes of the file of the name, none where they are more than the limit.
fn open_and_read<O: Opener>(
    alloc: Global,
    opener: &O,
    name: &str,
    limit: usize,
) -> io::Result<Option<Blob>>
    ensures { IfOk result (ReadsUpTo (O.KnownFiles.known opener.now name.now) limit) }
{
    let file = opener.open(name)?;
    let found = read_up_to(alloc, file, limit)?;
    Ok(found)
}

/// The bytes that the reader has left, none where they are more than the limit.
fn read_up_to<R: Read + Drop>(alloc: Global, reader: R, limit: usize) -> io::Result<Option<Blob>>
    ensures { IfOk result (ReadsUpTo (R.remaining reader) limit) }
{
    let mut bytes = Vec::new(alloc);
    let room = (limit as u64).saturating_add(1);
    let mut front = reader.take(room);
    front.read_to_end(&mut bytes)?;
    if bytes.len() > limit {
        return Ok(None);
    }
    Ok(Some(Blob::of(bytes)))
}

//! Files in memory, which tell what they hold.

ghost use Rattle.std.specs.Prelude.{◌≡◌, ℕ, List, length, ◌≤◌, IfOk, MatchOption};
ghost use Rattle.pg_io.specs.MemFiles.{file_of};
ghost use Rattle.pg_io.specs.Counts.{count_of};
ghost use Rattle.pg_io.specs.Files.{Absent, Holds, FileIs, HasFileCause, OthersStay};
ghost use Rattle.pg_io.specs.Plan as spec;

use crate::counts::Counts;
use crate::failing::{Failing, Planned};
use crate::files::{FileFault, Files};
use pg_base::{Blob, Text};
use sqlite_items::Items;
use std::alloc::Global;

/// A file of a name.
#[derive(Debug, Drop)]
pub struct MemFile {
    pub name: Text,
    pub bytes: Blob,
}

/// Files in memory, of which some calls are to fail.
#[derive(Debug, Drop)]
pub struct MemFiles {
    files: Items<MemFile>,
    counts: Counts,
    failing: Failing,
}

impl MemFiles {
    /// These files, where the first of a name is the one that is read, and whose calls with these numbers, from 1, fail.
    pub fn of(alloc: Global, files: Items<MemFile>, failing: Vec<u64>) -> MemFiles
        ensures files { (name : List ℕ)
            → ⟦<MemFiles as Files>⟧.file result name ≡ file_of files name }
        ensures faults { (name : List ℕ) → ⟦<MemFiles as Files>⟧.faults result name ≡ 0 }
        ensures plan { ⟦<MemFiles as Planned>⟧.plan result ≡ spec.fresh failing.items }
    {
        MemFiles {
            files,
            counts: Counts::none(alloc),
            failing: Failing::of(failing),
        }
    }
}

/// The bytes of the first file of the name.
fn find<'a>(files: &'a [MemFile], name: &str) -> Option<&'a Blob>
    ensures { MatchOption result (file_of files.now name.now ≡ Absent)
        (λ bytes. file_of files.now name.now ≡ Holds bytes.now) }
{
    for file in files {
        if file.name.bytes() == name.as_bytes() {
            return Some(&file.bytes);
        }
    }
    None
}

impl Planned for MemFiles {
    ghost plan = { λ files. files.failing };
}

impl Files for MemFiles {
    ghost file = { λ files name. file_of files.files name };

    ghost faults = { λ files name. count_of files.counts name };

    fn read_file(&mut self, alloc: Global, name: &str, limit: usize) -> Result<Blob, FileFault>
        ensures bytes { FileIs (⟦<MemFiles as Files>⟧.file self.old name.now) result limit }
        ensures within { IfOk result (λ bytes. length bytes ≤ limit) }
        ensures cause { HasFileCause (⟦<MemFiles as Files>⟧.faults self.old name.now)
            (⟦<MemFiles as Files>⟧.faults self.new name.now) result }
        ensures others { OthersStay (⟦<MemFiles as Files>⟧.faults self.old)
            (⟦<MemFiles as Files>⟧.faults self.new) name.now }
        ensures kept { (other : List ℕ)
            → ⟦<MemFiles as Files>⟧.file self.new other
            ≡ ⟦<MemFiles as Files>⟧.file self.old other }
        ensures counted { ⟦<MemFiles as Planned>⟧.plan self.new
            ≡ spec.after_call (⟦<MemFiles as Planned>⟧.plan self.old) }
        ensures planned { spec.ReadsAsPlanned
            (spec.fails_next (⟦<MemFiles as Planned>⟧.plan self.old))
            (⟦<MemFiles as Files>⟧.file self.old name.now) result }
    {
        if self.failing.fails_next() {
            self.counts.raise(alloc, name)?;
            return Err(FileFault::Failed);
        }
        let Some(file) = find(self.files.as_slice(), name) else {
            self.counts.raise(alloc, name)?;
            return Err(FileFault::Failed);
        };
        if file.bytes().len() > limit {
            return Err(FileFault::TooLarge);
        }
        Ok(Blob::of(Vec::from_slice(alloc, file.bytes())?))
    }
}

//! Files by their names.

ghost use Rattle.std.specs.Prelude.{◌≡◌, ℕ, List, length, ◌≤◌, IfOk};
ghost use Rattle.pg_io.specs.Files.{Told, FileIs, HasFileCause, OthersStay};

use pg_base::{Blob, Memory};
use std::alloc::Global;
use thiserror::Error;

/// Why a file was not read.
#[derive(Debug, Drop, Error)]
pub enum FileFault {
    /// It is not there, or can't be read.
    #[error("the file can't be read")]
    Failed,
    /// It has more bytes than were allowed.
    #[error("the file is too large")]
    TooLarge,
    #[error("out of memory")]
    Memory(Memory),
}

impl From<Memory> for FileFault {
    ghost use Rattle.std.specs.Prelude.{◌≡◌, alloc_error};
    ghost use Rattle.pg_io.specs.declared.files.FileFault.TheVariants as fault;

    ghost from_gives = { λ _ e. e ≡ fault.Memory alloc_error };

    fn from(memory: Memory) -> FileFault {
        FileFault::Memory(memory)
    }
}

/// Files that can be read.
pub trait Files {
    /// What is told of the file of a name.
    ghost file: { Self → List ℕ → Told };
    /// How many calls have failed, for each name by itself.
    ghost faults: { Self → List ℕ → ℕ };

    /// The bytes of the file, at most `limit` of them.
    fn read_file(&mut self, alloc: Global, name: &str, limit: usize) -> Result<Blob, FileFault>
        ensures bytes { FileIs (file self.old name.now) result limit }
        ensures within { IfOk result (λ bytes. length bytes ≤ limit) }
        ensures cause { HasFileCause (faults self.old name.now) (faults self.new name.now) result }
        ensures others { OthersStay (faults self.old) (faults self.new) name.now }
        ensures kept { (other : List ℕ) → file self.new other ≡ file self.old other };
}

//! Counts of faults by name.

ghost use Rattle.std.specs.Prelude.{◌≡◌, [], OnOk, OnErr};
ghost use Rattle.pg_io.specs.Counts.{Raises, IsPlaceOf};

use pg_base::{Memory, Text};
use std::alloc::Global;
use std::marker::Model;

/// How many calls have failed for a name.
#[derive(Debug, Drop)]
pub struct NameCount {
    pub name: Text,
    pub faults: u64,
}

/// The counts of the names of which a call has failed.
#[derive(Debug, Drop)]
pub struct Counts {
    entries: Vec<NameCount>,
}

impl Model for Counts {
    ghost use Rattle.std.specs.Prelude.{List};
    ghost use Rattle.pg_io.specs.declared.counts.NameCount.{NameCount};

    ghost Value = { List NameCount };

    ghost view = { λ counts. counts.entries.items };
}

impl Counts {
    pub fn none(alloc: Global) -> Counts
        ensures { result ≡ [] }
    {
        Counts {
            entries: Vec::new(alloc),
        }
    }

    /// Counts one more fault of the name.
    pub fn raise(&mut self, alloc: Global, name: &str) -> Result<(), Memory>
        ensures ok { OnOk result (Raises self.old self.new name.now) }
        ensures err { OnErr result (self.new ≡ self.old) }
    {
        raise_in(alloc, &mut self.entries, name)
    }
}

fn raise_in(alloc: Global, entries: &mut Vec<NameCount>, name: &str) -> Result<(), Memory>
    ensures ok { OnOk result (Raises entries.old.items entries.new.items name.now) }
    ensures err { OnErr result (entries.new.items ≡ entries.old.items) }
{
    match place_of(entries.as_slice(), name) {
        Some(place) => {
            let faults = entries[place].faults.saturating_add(1);
            entries[place].faults = faults;
        }
        None => {
            let name = Text::of(alloc, name)?;
            entries.push(NameCount { name, faults: 1 })?;
        }
    }
    Ok(())
}

/// Where the name's count stands.
fn place_of(counts: &[NameCount], name: &str) -> Option<usize>
    ensures { IsPlaceOf counts.now name.now result }
{
    for (place, count) in counts.iter().enumerate() {
        if count.name.bytes() == name.as_bytes() {
            return Some(place);
        }
    }
    None
}

//! Things that are numbered anew, by their keys.

ghost use Rattle.std.specs.Prelude.{◌≡◌, [], IfOk, OnOk};
ghost use Rattle.dedupe_steps.specs.Numbering as spec;

use crate::words::Word;
use indexmap::IndexSet;
use pg_base::{Memory, Sequence};
use sqlite_items::Items;
use std::alloc::{AllocError, Global};
use std::marker::Model;

/// The numbers of things so far. Those of one key have one number.
#[derive(Drop)]
pub(crate) struct Numbering {
    keys: IndexSet<Sequence<Word>>,
    to: Items<u32>,
    firsts: Items<usize>,
}

impl Model for Numbering {
    ghost use Rattle.dedupe_steps.specs.Numbering.{Numbers};

    ghost Value = { Numbers };

    ghost view = { λ n. record { keys = n.keys.keys; to = n.to; firsts = n.firsts } };
}

/// The number of a key that is put to others, and whether it is new.
fn put_key(keys: &mut IndexSet<Sequence<Word>>, key: Sequence<Word>) -> Result<(u32, bool), Memory>
    ensures number { IfOk result (λ r. r.0 ≡ spec.number_in keys.old.keys key) }
    ensures new { IfOk result (λ r. r.1 ≡ spec.is_new keys.old.keys key) }
    ensures keys { OnOk result (keys.new.keys ≡ spec.with_key keys.old.keys key) }
{
    let (place, new) = keys.insert_full(key)?;
    let Ok(number) = u32::try_from(place) else {
        return Err(AllocError);
    };
    Ok((number, new))
}

fn put_first(firsts: &mut Items<usize>, place: usize, new: bool) -> Result<(), Memory>
    ensures { OnOk result (firsts.new ≡ spec.with_first firsts.old place new) }
{
    if new {
        firsts.push(place)?;
    }
    Ok(())
}

impl Numbering {
    pub(crate) fn new(alloc: Global) -> Numbering
        ensures { result ≡ spec.no_numbers }
    {
        Numbering {
            keys: IndexSet::new(alloc),
            to: Items::new(alloc),
            firsts: Items::new(alloc),
        }
    }

    /// The next thing has this key.
    pub(crate) fn add(&mut self, key: Sequence<Word>) -> Result<(), Memory>
        ensures { OnOk result (self.new ≡ spec.numbered_with self.old key) }
    {
        let place = self.to.len();
        let (number, new) = put_key(&mut self.keys, key)?;
        self.to.push(number)?;
        put_first(&mut self.firsts, place, new)?;
        Ok(())
    }

    /// The number of each thing.
    pub(crate) fn to(&self) -> &[u32]
        ensures { result.now ≡ self.now.to }
    {
        self.to.as_slice()
    }

    /// The first thing that has each number.
    pub(crate) fn firsts(&self) -> &[usize]
        ensures { result.now ≡ self.now.firsts }
    {
        self.firsts.as_slice()
    }
}

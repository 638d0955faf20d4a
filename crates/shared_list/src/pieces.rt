//! Pieces of lists of owners.

ghost use Rattle.std.specs.Prelude.{◌≡◌, ◌≤◌, ◌++◌, take, drop, vec_len, OnOk, IfOk};

use crate::{Marked, Slot};
use pg_base::Memory;
use std::alloc::Global;

/// Appends an owner of each item.
pub fn share_all<T: Marked + Drop>(out: &mut Vec<Slot<T>>, items: &[Slot<T>]) -> Result<(), Memory>
    ensures { OnOk result (out.new.items ≡ out.old.items ++ items.now) }
{
    for item in items {
        out.push(item.share()?)?;
    }
    Ok(())
}

/// Cuts a list in two at a place: what stands from there on is handed out.
pub fn cut_off<X: Drop>(alloc: Global, items: &mut Vec<X>, cut: usize) -> Result<Vec<X>, Memory>
    requires { cut ≤ vec_len items.old }
    ensures { IfOk result (λ rest. (items.new.items ≡ take cut items.old.items)
        × (rest.items ≡ drop cut items.old.items)) }
{
    let mut rest = Vec::with_capacity(alloc, items.len() - cut)?;
    while items.len() > cut {
        if let Some(item) = items.pop() {
            rest.push(item)?;
        }
    }
    rest.reverse();
    Ok(rest)
}

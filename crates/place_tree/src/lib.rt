//! The tree of places that a request asks for, what its execution gives, and what it needs.
#![tactic(auto)]

mod alike;
mod answer;
mod counting;
mod event;
mod fetch;
mod place;
mod printing;
mod stand;
mod writing;

pub use alike::is_alike;
pub use answer::{Answer, Leaf};
pub use counting::{Coster, CountFault, visit_members};
pub use event::Event;
pub use fetch::{Fetch, KeyCells, Shape};
pub use place::{Place, PlaceArg, Tree};
pub use printing::put_events;
pub use stand::{Edge, Listed, Stand};
pub use writing::{Asker, put_members};

#[cfg(test)]
mod tests;

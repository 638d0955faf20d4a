//! Tests of requests: documents and variables over the rows of scripts, and the bytes of the responses.
#![tactic(auto)]

#[cfg(test)]
mod asking;
#[cfg(test)]
mod behaviors;
#[cfg(test)]
mod blog;
#[cfg(test)]
mod cursors;
#[cfg(test)]
mod errors;
#[cfg(test)]
mod houses;
#[cfg(test)]
mod limits;
#[cfg(test)]
mod opening;
#[cfg(test)]
mod passes;
#[cfg(test)]
mod relations;
#[cfg(test)]
mod rules;
#[cfg(test)]
mod sizes;
#[cfg(test)]
mod slow;
#[cfg(test)]
mod stores;
#[cfg(test)]
mod windows;
#[cfg(test)]
mod workshop;

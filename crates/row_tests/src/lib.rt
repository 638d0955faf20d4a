//! Tests of the stores of rows: what statements find over a blog, calls that fail where they are planned to, and sets of
//! tables with one row put or left out.
#![tactic(auto)]

#[cfg(test)]
mod asked;
#[cfg(test)]
mod blog;
#[cfg(test)]
mod sets;
#[cfg(test)]
mod shown;
#[cfg(test)]
mod statements;

//! Tests of the crates that read scripts: tokens, comments and whole scripts.
#![tactic(auto)]

#[cfg(test)]
mod comments;
#[cfg(test)]
mod scripts;
#[cfg(test)]
mod tokens;

//! Tests of `cursor_text`.
#![tactic(auto)]

#[cfg(test)]
mod cursors;

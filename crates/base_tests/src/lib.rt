//! Tests of `pg_base`: its calls succeed with ample memory, and its lists serve as keys.
#![tactic(auto)]

#[cfg(test)]
mod tests;

//! Tests of `gql_collect` over the schema of a script.
#![tactic(auto)]

#[cfg(test)]
mod places;

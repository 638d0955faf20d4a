//! Tests of the crates that read the input of a request and check it against a schema: `gql_input` and `gql_scopes`.
#![tactic(auto)]

#[cfg(test)]
mod sample;
#[cfg(test)]
mod scopes;
#[cfg(test)]
mod variables;

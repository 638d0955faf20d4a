//! Tests of the crates that read documents: `gql_lex` and `gql_reader`.
#![tactic(auto)]

#[cfg(test)]
mod documents;
#[cfg(test)]
mod sizes;

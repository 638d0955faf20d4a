//! Tests of the rules of validation.
#![tactic(auto)]

#[cfg(test)]
mod large;
#[cfg(test)]
mod rules;
#[cfg(test)]
mod sample;
#[cfg(test)]
mod shapes;

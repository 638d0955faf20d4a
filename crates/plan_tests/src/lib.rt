//! Tests of `step_plan` over the base of a script.
#![tactic(auto)]

#[cfg(test)]
mod drafts;
#[cfg(test)]
mod sharing;

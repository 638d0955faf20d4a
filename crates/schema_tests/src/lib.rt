//! Tests of the schemas of scripts: `schema_build` over what `ddl_reader` reads.
#![tactic(auto)]

#[cfg(test)]
mod limits;
#[cfg(test)]
mod schemas;

//! Requests on one house, as many as are asked for: what is timed of planning, and of plans that are found.
#![tactic(auto)]

mod documents;
mod requests;

use documents::Shape;
use requests::answered;
use std::alloc::AllocError;
use std::env;
use std::process::ExitCode;

/// The words after the program's name, none where they can't be had.
fn words_of(rt: &HostRuntime) -> Result<Vec<String>, AllocError> {
    match env::args(rt) {
        Ok(args) => args.skip(1).collect(rt.alloc()),
        Err(_) => Ok(Vec::new(rt.alloc())),
    }
}

/// How many plans were made for what the words ask: a shape, how many documents of it, and how often each is asked.
fn plans_for(rt: &HostRuntime) -> Result<Option<u64>, AllocError> {
    let words = words_of(rt)?;
    let [shape, documents, rounds] = words.as_slice() else {
        return Ok(None);
    };
    let shape = Shape::named(shape.as_str());
    let documents = documents.as_str().parse::<u32>().unwrap_or(1);
    let rounds = rounds.as_str().parse::<u32>().unwrap_or(1);
    let plans = answered(rt.alloc(), shape, documents, rounds)?;
    Ok(Some(plans))
}

/// Writes the number of plans; the status is 1 where the words aren't three, memory ran out, or nothing can be written.
fn main(rt: HostRuntime) -> ExitCode {
    match plans_for(&rt) {
        Ok(Some(plans)) => match println!(&rt; "{plans} plans") {
            Ok(()) => ExitCode::SUCCESS,
            Err(_) => ExitCode::FAILURE,
        },
        Ok(None) | Err(AllocError) => ExitCode::FAILURE,
    }
}

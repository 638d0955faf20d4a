//! The program: relational tables as a GraphQL API.
#![tactic(auto)]

mod answering;
mod commands;
mod laws;
mod run;
mod status;
mod telling;

use pg_io::{StdFiles, StdSink, StdSource, System};
use run::run_once;
use std::alloc::AllocError;
use std::io::ErrorKind;
use std::process::ExitCode;
use std::{env, io};
use telling::tell_memory;

/// Hands the real files and streams to the run, and its status to the system.
fn main(rt: HostRuntime) -> ExitCode {
    let alloc = rt.alloc();
    let mut files = StdFiles::over(alloc, System::of(&rt));
    let mut source = StdSource::over(rt.stdin());
    let mut sink = StdSink::over(rt.stdout());
    let status = match words_of(&rt) {
        Ok(words) => run_once(alloc, words.as_slice(), &mut files, &mut source, &mut sink),
        Err(AllocError) => tell_memory(&mut sink),
    };
    status.exit_code()
}

/// The words after the program's name, none where one is no text.
fn words_of(rt: &HostRuntime) -> Result<Vec<String>, AllocError> {
    match env::args(rt) {
        Ok(args) => args.skip(1).collect(rt.alloc()),
        Err(error) if error.kind() == ErrorKind::OutOfMemory => Err(AllocError),
        Err(_) => Ok(Vec::new(rt.alloc())),
    }
}

#[cfg(test)]
mod tests;

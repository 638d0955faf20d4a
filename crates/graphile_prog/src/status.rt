//! How a run ended.

ghost use Rattle.std.specs.Prelude.{◌≡◌};
ghost use Rattle.std.specs.Process.{exit_status};
ghost use Rattle.graphile_prog.specs.Status as spec;

use request_core::LoadFault;
use std::process::ExitCode;

/// How a run ended.
#[derive(Drop)]
pub enum Status {
    /// What was asked for was written.
    Done,
    /// The words are those of no command.
    BadWords,
    /// The script gives nothing, by this fault.
    ScriptRefused(LoadFault),
    /// A file could not be read.
    FileFault,
    /// The sink failed.
    WriteFault,
    /// A file has more bytes than its limit.
    TooLarge,
    /// Memory ran out.
    Memory,
}

impl Status {
    /// What the program exits with.
    pub fn exit_code(&self) -> ExitCode
        ensures { exit_status result ≡ spec.exit_of self.now }
    {
        ExitCode::from(match self {
            Status::Done => 0,
            Status::BadWords => 2,
            Status::ScriptRefused(_) => 3,
            Status::FileFault => 4,
            Status::WriteFault => 6,
            Status::TooLarge => 7,
            Status::Memory => 9,
        })
    }
}

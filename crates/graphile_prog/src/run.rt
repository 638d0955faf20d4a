//! The run of the program over files, a source and a sink that are handed in.

ghost use Rattle.std.specs.Prelude.{◌≡◌, ◌≢◌, ℕ, List};
ghost use Rattle.command_words.specs.Asked.{texts_of};
ghost use Rattle.command_words.specs.Commands.{accepts, command_of};
ghost use Rattle.graphile_prog.specs.Parts as parts;
ghost use Rattle.graphile_prog.specs.Run as run;
ghost use Rattle.graphile_prog.specs.Status.{line_of};
ghost use Rattle.graphile_prog.specs.Told.{outside, output, CountsStay};

use crate::commands::perform;
use crate::status::Status;
use crate::telling::{deliver, tell};
use command_words::{WordsFault, read_words};
use pg_io::{Files, Sink, Source};
use std::alloc::Global;

/// How a run ends whose words give no command.
fn status_of(fault: WordsFault) -> Status
    ensures { result ≡ parts.words_status fault }
{
    match fault {
        WordsFault::BadWords => Status::BadWords,
        WordsFault::Memory => Status::Memory,
    }
}

/// Runs the command that the words ask for, and says how it ended.
///
/// `check SCRIPT` writes `ok`, `schema SCRIPT` the text of the schema,
/// `query SCRIPT DOC [--operation NAME] [--variables FILE]` the response to the request over the tables of the script, and
/// `explain`, with the same words, the plan that serves it; `ok` and the response are a line, also that of a request which
/// is refused before it is planned. The words are looked at first, then the script's file, its size, its text, its
/// schema and its rows, then the document's file and its size, then those of the variables: the first that is refused
/// gives the status, whose line is written.
pub fn run_once<F: Files, S: Source, K: Sink>(
    alloc: Global,
    words: &[String],
    files: &mut F,
    source: &mut S,
    sink: &mut K,
) -> Status
    // BadWords exactly where the words aren't accepted, but where memory runs out before.
    ensures bad_words { run.RefusesWords (accepts (texts_of words.now)) result }

    // The first stage of the command that isn't passed gives the status; after all of them what
    // the command writes is written, or the front of it.
    ensures order { run.HasEnd (command_of (texts_of words.now))
        (outside (F.file files.old) (F.faults files.old) (F.faults files.new))
        (output (K.taken sink.old) (K.taken sink.new) (K.faults sink.old) (K.faults sink.new))
        result }

    // Any other status writes its line, where the sink takes it.
    ensures line { run.HasLine result → run.TookLine (line_of result)
        (output (K.taken sink.old) (K.taken sink.new) (K.faults sink.old) (K.faults sink.new)) }

    // Told files that pass the stages are answered, where nothing fails.
    ensures complete { run.IsComplete (command_of (texts_of words.now))
        (outside (F.file files.old) (F.faults files.old) (F.faults files.new))
        (output (K.taken sink.old) (K.taken sink.new) (K.faults sink.old) (K.faults sink.new))
        result }

    // No count of a file's faults changes but by a file fault, and then that of its name alone.
    ensures counts { result ≢ Status.FileFault
        → CountsStay (F.faults files.old) (F.faults files.new) }

    ensures files { (name : List ℕ) → F.file files.new name ≡ F.file files.old name }
    ensures source { source.new ≡ source.old }
{
    let _ = source;
    let command = match read_words(alloc, words) {
        Ok(command) => command,
        Err(fault) => return tell(alloc, sink, status_of(fault)),
    };
    match perform(alloc, command, files) {
        Ok(page) => deliver(sink, &page),
        Err(status) => tell(alloc, sink, status),
    }
}

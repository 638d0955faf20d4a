//! What is written at the end of a run.

ghost use Rattle.std.specs.Prelude.{◌≡◌, ◌++◌, ◌∷◌, [], IfOk};
ghost use Rattle.pg_io.specs.Streams.{Delivers, HasCause};
ghost use Rattle.request_core.specs.FaultLines as fault_lines;
ghost use Rattle.graphile_prog.specs.Commands.{Delivered};
ghost use Rattle.graphile_prog.specs.Parts as parts;
ghost use Rattle.graphile_prog.specs.Run as run;
ghost use Rattle.graphile_prog.specs.Status.{line_of};
ghost use Rattle.graphile_prog.specs.Told.{output};

use crate::commands::Page;
use crate::status::Status;
use pg_base::Memory;
use pg_io::{Failed, Sink, write_all};
use request_core::{LoadFault, put_fault_line};
use std::alloc::Global;

/// Writes what a command writes.
pub fn deliver<K: Sink>(sink: &mut K, page: &Page) -> Status
    ensures { Delivered (parts.written page.now)
        (output (K.taken sink.old) (K.taken sink.new) (K.faults sink.old) (K.faults sink.new))
        result }
{
    match write_page(sink, page) {
        Ok(()) => Status::Done,
        Err(_) => Status::WriteFault,
    }
}

fn write_page<K: Sink>(sink: &mut K, page: &Page) -> Result<(), Failed>
    ensures bytes { Delivers (K.taken sink.old) (K.taken sink.new) result
        (parts.written page.now) }
    ensures cause { HasCause (K.faults sink.old) (K.faults sink.new) result }
{
    write_two(sink, page.text.bytes(), ending(page.line_feed))
}

fn ending(line_feed: bool) -> &'static [u8]
    ensures { result.now ≡ parts.ending line_feed }
{
    if line_feed { b"\n" } else { b"" }
}

fn write_two<K: Sink>(sink: &mut K, text: &[u8], more: &[u8]) -> Result<(), Failed>
    ensures bytes { Delivers (K.taken sink.old) (K.taken sink.new) result
        (text.now ++ more.now) }
    ensures cause { HasCause (K.faults sink.old) (K.faults sink.new) result }
{
    write_all(sink, text)?;
    write_all(sink, more)?;
    Ok(())
}

/// Writes the line of a status, which stays where that fails. That of a refused script takes memory: without any, the
/// status is that memory ran out.
pub fn tell<K: Sink>(alloc: Global, sink: &mut K, status: Status) -> Status
    ensures same { parts.Tells status result }
    ensures line { run.HasLine result → run.TookLine (line_of result)
        (output (K.taken sink.old) (K.taken sink.new) (K.faults sink.old) (K.faults sink.new)) }
{
    match status {
        Status::Done => Status::Done,
        Status::WriteFault => Status::WriteFault,
        Status::BadWords => tell_line(sink, Status::BadWords, b"bad words\n"),
        Status::ScriptRefused(fault) => tell_fault(alloc, sink, fault),
        Status::FileFault => tell_line(sink, Status::FileFault, b"file fault\n"),
        Status::TooLarge => tell_line(sink, Status::TooLarge, b"too large\n"),
        Status::Memory => tell_memory(sink),
    }
}

/// Writes the line that memory ran out. Takes no memory.
pub fn tell_memory<K: Sink>(sink: &mut K) -> Status
    ensures same { result ≡ Status.Memory }
    ensures line { run.TookLine (line_of result)
        (output (K.taken sink.old) (K.taken sink.new) (K.faults sink.old) (K.faults sink.new)) }
{
    tell_line(sink, Status::Memory, b"out of memory\n")
}

fn tell_line<K: Sink>(sink: &mut K, status: Status, line: &[u8]) -> Status
    requires { line.now ≡ line_of status }
    ensures same { result ≡ status }
    ensures line { run.TookLine (line_of result)
        (output (K.taken sink.old) (K.taken sink.new) (K.faults sink.old) (K.faults sink.new)) }
{
    let _ = write_all(sink, line);
    status
}

fn tell_fault<K: Sink>(alloc: Global, sink: &mut K, fault: LoadFault) -> Status
    ensures same { parts.Tells (Status.ScriptRefused fault) result }
    ensures line { run.TookLine (line_of result)
        (output (K.taken sink.old) (K.taken sink.new) (K.faults sink.old) (K.faults sink.new)) }
{
    match line_of_fault(alloc, &fault) {
        Ok(line) => tell_line(sink, Status::ScriptRefused(fault), line.as_slice()),
        Err(_) => tell_memory(sink),
    }
}

fn line_of_fault(alloc: Global, fault: &LoadFault) -> Result<Vec<u8>, Memory>
    ensures { IfOk result (λ line. line.items ≡ fault_lines.line_of fault.now ++ 10 ∷ []) }
{
    let mut line = Vec::new(alloc);
    put_fault_line(&mut line, fault)?;
    line.push(b'\n')?;
    Ok(line)
}

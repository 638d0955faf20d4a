//! The commands: from the files that they name to the text that they write.

ghost use Rattle.std.specs.Prelude.{◌≡◌, ◌⊎◌, ◌++◌, ◌∷◌, [], ℕ, List, IfOk, IfErr, OnOk, option_map};
ghost use Rattle.std.specs.Arc.{arc_value};
ghost use Rattle.pg_base.specs.Base.{BaseParts};
ghost use Rattle.schema_build.specs.Sdl.{sdl_of};
ghost use Rattle.request_core.specs.Load.{Loads, IsLoadFault, IsUsable};
ghost use Rattle.request_core.specs.Request.{asked, request_of};
ghost use Rattle.request_core.specs.Answer.{IsAnswer};
ghost use Rattle.request_core.specs.Explained.{IsExplained};
ghost use Rattle.request_core.specs.Explained as explained;
ghost use Rattle.command_words.specs.Asked.{told, request_told};
ghost use Rattle.command_words.specs.Commands as words;
ghost use Rattle.graphile_prog.specs.declared.status.Status.TheVariants as status_is;
ghost use Rattle.graphile_prog.specs.Told.{outside, CountsStay};
ghost use Rattle.graphile_prog.specs.Stages.{AreRefused, OrMemory};
ghost use Rattle.graphile_prog.specs.Commands as spec;
ghost use Rattle.graphile_prog.specs.Parts as parts;

use crate::answering::{answer_loaded, explain_loaded};
use crate::status::Status;
use command_words::Command;
use pg_base::limits::{MOST_DOCUMENT_BYTES, MOST_SCRIPT_BYTES, MOST_VARIABLES_BYTES};
use pg_base::{Blob, Schema};
use pg_io::{FileFault, Files};
use request_core::{Explanation, LoadError, Loaded, Request, load};
use schema_build::print_schema;
use std::alloc::Global;

/// What a command writes.
#[derive(Drop)]
pub struct Page {
    pub text: Blob,
    /// Whether a line feed comes after the text.
    pub line_feed: bool,
}

fn line(text: Blob) -> Page
    ensures { parts.written result ≡ text ++ 10 ∷ [] }
{
    Page {
        text,
        line_feed: true,
    }
}

fn lines(text: Blob) -> Page
    ensures { parts.written result ≡ text }
{
    Page {
        text,
        line_feed: false,
    }
}

/// What the command writes, or why it writes nothing.
pub fn perform<F: Files>(alloc: Global, command: Command<'_>, files: &mut F) -> Result<Page, Status>
    ensures ok { IfOk result (λ page. parts.IsPassed
        (outside (F.file files.old) (F.faults files.old) (F.faults files.new))
        (told command.entry) (parts.written page)) }
    ensures err { IfErr result (OrMemory (AreRefused (spec.task_of
        (outside (F.file files.old) (F.faults files.old) (F.faults files.new))
        (told command.entry)).stages)) }
    ensures quiet { OnOk result (CountsStay (F.faults files.old) (F.faults files.new)) }
    ensures counts { IfErr result
        (parts.CountsStayBut (F.faults files.old) (F.faults files.new)) }
    ensures kept { (name : List ℕ) → F.file files.new name ≡ F.file files.old name }
{
    match command {
        Command::Check(script) => check(alloc, script, files),
        Command::Schema(script) => schema(alloc, script, files),
        Command::Query(asks) => query(alloc, asks, files),
        Command::Explain(asks) => explain(alloc, asks, files),
    }
}

/// Says that the script gives something.
fn check<F: Files>(alloc: Global, script: &str, files: &mut F) -> Result<Page, Status>
    ensures ok { IfOk result (λ page. parts.IsPassed
        (outside (F.file files.old) (F.faults files.old) (F.faults files.new))
        (words.check script.now) (parts.written page)) }
    ensures err { IfErr result (OrMemory (AreRefused (spec.script_stages
        (outside (F.file files.old) (F.faults files.old) (F.faults files.new))
        script.now))) }
    ensures quiet { OnOk result (CountsStay (F.faults files.old) (F.faults files.new)) }
    ensures counts { IfErr result
        (parts.CountsStayBut (F.faults files.old) (F.faults files.new)) }
    ensures kept { (name : List ℕ) → F.file files.new name ≡ F.file files.old name }
{
    let _loaded = load_file(alloc, script, files)?;
    let text = blob_of(alloc, b"ok")?;
    Ok(line(text))
}

fn blob_of(alloc: Global, bytes: &[u8]) -> Result<Blob, Status>
    ensures ok { IfOk result (λ text. text ≡ bytes.now) }
    ensures err { IfErr result (λ status. status ≡ status_is.Memory) }
{
    match Vec::from_slice(alloc, bytes) {
        Ok(bytes) => Ok(Blob::of(bytes)),
        Err(_) => Err(Status::Memory),
    }
}

/// The text of the schema of what the script gives.
fn schema<F: Files>(alloc: Global, script: &str, files: &mut F) -> Result<Page, Status>
    ensures ok { IfOk result (λ page. parts.IsPassed
        (outside (F.file files.old) (F.faults files.old) (F.faults files.new))
        (words.schema script.now) (parts.written page)) }
    ensures err { IfErr result (OrMemory (AreRefused (spec.script_stages
        (outside (F.file files.old) (F.faults files.old) (F.faults files.new))
        script.now))) }
    ensures quiet { OnOk result (CountsStay (F.faults files.old) (F.faults files.new)) }
    ensures counts { IfErr result
        (parts.CountsStayBut (F.faults files.old) (F.faults files.new)) }
    ensures kept { (name : List ℕ) → F.file files.new name ≡ F.file files.old name }
{
    let loaded = load_file(alloc, script, files)?;
    let text = schema_text(alloc, loaded.base.schema())?;
    Ok(lines(text))
}

fn schema_text(alloc: Global, schema: &Schema) -> Result<Blob, Status>
    ensures ok { IfOk result (λ text. text ≡ sdl_of schema.now) }
    ensures err { IfErr result (λ status. status ≡ status_is.Memory) }
{
    match print_schema(alloc, schema) {
        Ok(text) => Ok(text),
        Err(_) => Err(Status::Memory),
    }
}

/// The response to the request over what the script gives.
fn query<F: Files>(
    alloc: Global,
    asks: command_words::Request<'_>,
    files: &mut F,
) -> Result<Page, Status>
    ensures ok { IfOk result (λ page. parts.IsPassed
        (outside (F.file files.old) (F.faults files.old) (F.faults files.new))
        (words.query (request_told asks.entry)) (parts.written page)) }
    ensures err { IfErr result (OrMemory (AreRefused (spec.task_of
        (outside (F.file files.old) (F.faults files.old) (F.faults files.new))
        (words.query (request_told asks.entry))).stages)) }
    ensures quiet { OnOk result (CountsStay (F.faults files.old) (F.faults files.new)) }
    ensures counts { IfErr result
        (parts.CountsStayBut (F.faults files.old) (F.faults files.new)) }
    ensures kept { (name : List ℕ) → F.file files.new name ≡ F.file files.old name }
{
    let loaded = load_file(alloc, asks.script, files)?;
    answer_page(alloc, asks, &loaded, files)
}

/// The line of the response to what the other files of a query ask.
fn answer_page<F: Files>(
    alloc: Global,
    asks: command_words::Request<'_>,
    loaded: &Loaded,
    files: &mut F,
) -> Result<Page, Status>
    requires { IsUsable (arc_value loaded.now.base) loaded.now.tables }
    ensures ok { IfOk result (λ page. parts.IsLineOf
        (outside (F.file files.old) (F.faults files.old) (F.faults files.new))
        (request_told asks.entry) (arc_value loaded.now.base) loaded.now.tables
        (parts.written page)) }
    ensures err { IfErr result (OrMemory (AreRefused (spec.request_stages
        (outside (F.file files.old) (F.faults files.old) (F.faults files.new))
        (request_told asks.entry)))) }
    ensures quiet { OnOk result (CountsStay (F.faults files.old) (F.faults files.new)) }
    ensures counts { IfErr result
        (parts.CountsStayBut (F.faults files.old) (F.faults files.new)) }
    ensures kept { (other : List ℕ) → F.file files.new other ≡ F.file files.old other }
{
    let read = read_request(alloc, asks, files)?;
    match answer_read(alloc, asks, loaded, &read) {
        Ok(text) => Ok(line(text)),
        Err(status) => Err(status),
    }
}

/// What tells how a request is served, over what the script gives.
fn explain<F: Files>(
    alloc: Global,
    asks: command_words::Request<'_>,
    files: &mut F,
) -> Result<Page, Status>
    ensures ok { IfOk result (λ page. parts.IsPassed
        (outside (F.file files.old) (F.faults files.old) (F.faults files.new))
        (words.explain (request_told asks.entry)) (parts.written page)) }
    ensures err { IfErr result (OrMemory (AreRefused (spec.task_of
        (outside (F.file files.old) (F.faults files.old) (F.faults files.new))
        (words.explain (request_told asks.entry))).stages)) }
    ensures quiet { OnOk result (CountsStay (F.faults files.old) (F.faults files.new)) }
    ensures counts { IfErr result
        (parts.CountsStayBut (F.faults files.old) (F.faults files.new)) }
    ensures kept { (name : List ℕ) → F.file files.new name ≡ F.file files.old name }
{
    let loaded = load_file(alloc, asks.script, files)?;
    plan_page(alloc, asks, &loaded, files)
}

/// The lines of what is explained of what the other files ask.
fn plan_page<F: Files>(
    alloc: Global,
    asks: command_words::Request<'_>,
    loaded: &Loaded,
    files: &mut F,
) -> Result<Page, Status>
    requires { IsUsable (arc_value loaded.now.base) loaded.now.tables }
    ensures ok { IfOk result (λ page. parts.IsPlanOf
        (outside (F.file files.old) (F.faults files.old) (F.faults files.new))
        (request_told asks.entry) (arc_value loaded.now.base) (parts.written page)) }
    ensures err { IfErr result (OrMemory (AreRefused (spec.request_stages
        (outside (F.file files.old) (F.faults files.old) (F.faults files.new))
        (request_told asks.entry)))) }
    ensures quiet { OnOk result (CountsStay (F.faults files.old) (F.faults files.new)) }
    ensures counts { IfErr result
        (parts.CountsStayBut (F.faults files.old) (F.faults files.new)) }
    ensures kept { (other : List ℕ) → F.file files.new other ≡ F.file files.old other }
{
    let read = read_request(alloc, asks, files)?;
    match explain_read(alloc, asks, loaded, &read) {
        Ok(explanation) => Ok(lines_of(explanation)),
        Err(status) => Err(status),
    }
}

/// A refusal is a line; the text of a plan has its lines.
fn lines_of(explanation: Explanation) -> Page
    ensures { parts.written result ≡ explained.lines_of explanation }
{
    match explanation {
        Explanation::Refused(text) => line(text),
        Explanation::Plan(text) => lines(text),
    }
}

/// Reads the script's file, and loads it.
fn load_file<F: Files>(alloc: Global, name: &str, files: &mut F) -> Result<Loaded, Status>
    ensures ok { IfOk result (λ loaded.
        parts.IsLoaded (F.file files.old name.now) (arc_value loaded.base) loaded.tables) }
    ensures usable { IfOk result (λ loaded. IsUsable (arc_value loaded.base) loaded.tables) }
    ensures err { IfErr result (OrMemory (AreRefused (spec.script_stages
        (outside (F.file files.old) (F.faults files.old) (F.faults files.new)) name.now))) }
    ensures quiet { OnOk result (CountsStay (F.faults files.old) (F.faults files.new)) }
    ensures counts { IfErr result
        (parts.CountsStayBut (F.faults files.old) (F.faults files.new)) }
    ensures kept { (other : List ℕ) → F.file files.new other ≡ F.file files.old other }
{
    let bytes = read_bytes(alloc, name, MOST_SCRIPT_BYTES, files)?;
    let loaded = load_bytes(alloc, bytes.bytes())?;
    Ok(loaded)
}

/// Loads a script.
fn load_bytes(alloc: Global, script: &[u8]) -> Result<Loaded, Status>
    ensures ok { IfOk result (λ loaded. Loads script.now (arc_value loaded.base) loaded.tables) }
    ensures usable { IfOk result (λ loaded. IsUsable (arc_value loaded.base) loaded.tables) }
    ensures err { IfErr result (OrMemory (spec.IsRefusedBy script.now)) }
{
    match load(alloc, script) {
        Ok(loaded) => Ok(loaded),
        Err(LoadError::Fault(fault)) => Err(Status::ScriptRefused(fault)),
        Err(LoadError::Memory) => Err(Status::Memory),
    }
}

/// What the other files of a request hold.
#[derive(Drop)]
struct RequestBytes {
    document: Blob,
    variables: Option<Blob>,
}

/// Reads the other files of a request.
fn read_request<F: Files>(
    alloc: Global,
    asks: command_words::Request<'_>,
    files: &mut F,
) -> Result<RequestBytes, Status>
    ensures ok { IfOk result (λ read. parts.AreRead
        (outside (F.file files.old) (F.faults files.old) (F.faults files.new))
        (request_told asks.entry) read.document read.variables) }
    ensures err { IfErr result (OrMemory (AreRefused (spec.request_stages
        (outside (F.file files.old) (F.faults files.old) (F.faults files.new))
        (request_told asks.entry)))) }
    ensures quiet { OnOk result (CountsStay (F.faults files.old) (F.faults files.new)) }
    ensures counts { IfErr result
        (parts.CountsStayBut (F.faults files.old) (F.faults files.new)) }
    ensures kept { (other : List ℕ) → F.file files.new other ≡ F.file files.old other }
{
    let document = read_bytes(alloc, asks.document, MOST_DOCUMENT_BYTES, files)?;
    let variables = read_given(alloc, asks.variables, files)?;
    Ok(RequestBytes {
        document,
        variables,
    })
}

/// The request that the files of a query and its words make.
fn request_with<'a>(asks: command_words::Request<'a>, read: &'a RequestBytes) -> Request<'a>
    ensures { request_of result ≡ asked read.now.document (request_told asks.entry).operation
        read.now.variables }
{
    Request {
        document: read.document.bytes(),
        operation: asks.operation,
        variables: bytes_of(read.variables.as_ref()),
    }
}

/// The response to what the files of a query ask.
fn answer_read(
    alloc: Global,
    asks: command_words::Request<'_>,
    loaded: &Loaded,
    read: &RequestBytes,
) -> Result<Blob, Status>
    requires { IsUsable (arc_value loaded.now.base) loaded.now.tables }
    ensures ok { IfOk result (IsAnswer (arc_value loaded.now.base) loaded.now.tables
        (asked read.now.document (request_told asks.entry).operation read.now.variables)) }
    ensures err { IfErr result (λ status. status ≡ status_is.Memory) }
{
    match answer_loaded(alloc, loaded, request_with(asks, read)) {
        Ok(text) => Ok(text),
        Err(_) => Err(Status::Memory),
    }
}

/// What is explained of what the files of a query ask.
fn explain_read(
    alloc: Global,
    asks: command_words::Request<'_>,
    loaded: &Loaded,
    read: &RequestBytes,
) -> Result<Explanation, Status>
    requires { IsUsable (arc_value loaded.now.base) loaded.now.tables }
    ensures ok { IfOk result (IsExplained (arc_value loaded.now.base)
        (asked read.now.document (request_told asks.entry).operation read.now.variables)) }
    ensures err { IfErr result (λ status. status ≡ status_is.Memory) }
{
    match explain_loaded(alloc, loaded, request_with(asks, read)) {
        Ok(explanation) => Ok(explanation),
        Err(_) => Err(Status::Memory),
    }
}

fn bytes_of(blob: Option<&Blob>) -> Option<&[u8]>
    ensures { option_map (λ b. b.now) result ≡ option_map (λ v. v.now) blob.entry }
{
    match blob {
        Some(blob) => Some(blob.bytes()),
        None => None,
    }
}

/// The bytes of the variables' file, where one is named.
fn read_given<F: Files>(
    alloc: Global,
    name: Option<&str>,
    files: &mut F,
) -> Result<Option<Blob>, Status>
    ensures ok { IfOk result (parts.IsGivenAs
        (outside (F.file files.old) (F.faults files.old) (F.faults files.new))
        (option_map (λ n. n.now) name.entry)) }
    ensures err { IfErr result (OrMemory (AreRefused (spec.variables_stages
        (outside (F.file files.old) (F.faults files.old) (F.faults files.new))
        (option_map (λ n. n.now) name.entry)))) }
    ensures quiet { OnOk result (CountsStay (F.faults files.old) (F.faults files.new)) }
    ensures counts { IfErr result
        (parts.CountsStayBut (F.faults files.old) (F.faults files.new)) }
    ensures kept { (other : List ℕ) → F.file files.new other ≡ F.file files.old other }
{
    let Some(name) = name else {
        return Ok(None);
    };
    let bytes = read_bytes(alloc, name, MOST_VARIABLES_BYTES, files)?;
    Ok(Some(bytes))
}

/// The file's bytes, where they aren't too many.
fn read_bytes<F: Files>(
    alloc: Global,
    name: &str,
    limit: usize,
    files: &mut F,
) -> Result<Blob, Status>
    ensures ok { IfOk result (parts.IsRead (F.file files.old name.now) limit) }
    ensures err { IfErr result (OrMemory (AreRefused (parts.read_stages
        (outside (F.file files.old) (F.faults files.old) (F.faults files.new))
        name.now limit))) }
    ensures quiet { OnOk result (CountsStay (F.faults files.old) (F.faults files.new)) }
    ensures counts { IfErr result
        (parts.CountsStayBut (F.faults files.old) (F.faults files.new)) }
    ensures kept { (other : List ℕ) → F.file files.new other ≡ F.file files.old other }
{
    match files.read_file(alloc, name, limit) {
        Ok(bytes) => Ok(bytes),
        Err(FileFault::Failed) => Err(Status::FileFault),
        Err(FileFault::TooLarge) => Err(Status::TooLarge),
        Err(FileFault::Memory(_)) => Err(Status::Memory),
    }
}

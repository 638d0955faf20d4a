//! The reader of the words.

ghost use Rattle.std.specs.Prelude.{◌≡◌, false, Some, IfOk, IfErr, option_map, option_and_then};
ghost use Rattle.clap.specs.Words.{first_of, found_of, kind_of, rows_of, subcommand_rows_of};
ghost use Rattle.command_words.specs.Commands as spec;
ghost use Rattle.command_words.specs.Asked.{texts_of, told, request_told};

use crate::command::{Command, Request};
use crate::fault::WordsFault;
use crate::set::commands;
use clap::error::ErrorKind;
use clap::{ArgMatches, Error};
use std::alloc::Global;

/// The command that the words ask for, as `clap` reads them as a set of simple commands.
///
/// `BadWords` exactly where they aren't accepted, but for want of memory: no command or none of these, an option that
/// the command lacks, one that has no value or is given twice, too few or too many positionals. An option is
/// `--name VALUE` or `--name=VALUE`, anywhere after the command's name and before `--`; a word that begins with `-`,
/// other than `-` alone, is no positional and no separate value, unless it follows `--`.
pub fn read_words<'a>(alloc: Global, words: &'a [String]) -> Result<Command<'a>, WordsFault>
    ensures found { IfOk result (λ c.
        spec.command_of (texts_of words.entry.now) ≡ Some (told c)) }
    ensures refused { IfErr result (λ e. e ≡ WordsFault.BadWords
        → spec.accepts (texts_of words.entry.now) ≡ false) }
{
    let commands = commands(alloc)?;
    let matches = match commands.try_get_matches_from(words) {
        Ok(matches) => matches,
        Err(error) => return Err(fault_of(&error)),
    };
    match named(&matches) {
        Some(command) => Ok(command),
        None => Err(WordsFault::BadWords),
    }
}

fn fault_of(error: &Error) -> WordsFault
    ensures { kind_of error.now ≡ ErrorKind.OutOfMemory → result ≡ WordsFault.Memory }
{
    match error.kind() {
        ErrorKind::OutOfMemory => WordsFault::Memory,
        _ => WordsFault::BadWords,
    }
}

/// The command that the words named, with its values.
fn named<'a>(matches: &ArgMatches<'a>) -> Option<Command<'a>>
    ensures { option_map told result ≡ option_and_then (λ p. spec.command_at p.0 p.1)
        (subcommand_rows_of matches.now) }
{
    match matches.subcommand() {
        Some((name, found)) => command_at(name, found),
        None => None,
    }
}

fn command_at<'a>(name: &str, found: &ArgMatches<'a>) -> Option<Command<'a>>
    ensures { option_map told result ≡ spec.command_at name.now
        (rows_of (found_of found.now)) }
{
    if name == "check" {
        return check_of(found);
    }
    if name == "schema" {
        return schema_of(found);
    }
    if name == "query" {
        return query_of(found);
    }
    if name == "explain" {
        return explain_of(found);
    }
    None
}

fn check_of<'a>(found: &ArgMatches<'a>) -> Option<Command<'a>>
    ensures { option_map told result ≡ option_map spec.check
        (spec.script_of (rows_of (found_of found.now))) }
{
    match value_of(found, "script") {
        Some(script) => Some(Command::Check(script)),
        None => None,
    }
}

fn schema_of<'a>(found: &ArgMatches<'a>) -> Option<Command<'a>>
    ensures { option_map told result ≡ option_map spec.schema
        (spec.script_of (rows_of (found_of found.now))) }
{
    match value_of(found, "script") {
        Some(script) => Some(Command::Schema(script)),
        None => None,
    }
}

fn query_of<'a>(found: &ArgMatches<'a>) -> Option<Command<'a>>
    ensures { option_map told result ≡ option_map spec.query
        (spec.request_of (rows_of (found_of found.now))) }
{
    match request_of(found) {
        Some(request) => Some(Command::Query(request)),
        None => None,
    }
}

fn explain_of<'a>(found: &ArgMatches<'a>) -> Option<Command<'a>>
    ensures { option_map told result ≡ option_map spec.explain
        (spec.request_of (rows_of (found_of found.now))) }
{
    match request_of(found) {
        Some(request) => Some(Command::Explain(request)),
        None => None,
    }
}

fn request_of<'a>(found: &ArgMatches<'a>) -> Option<Request<'a>>
    ensures { option_map request_told result ≡ spec.request_of
        (rows_of (found_of found.now)) }
{
    let Some(script) = value_of(found, "script") else {
        return None;
    };
    let Some(document) = value_of(found, "document") else {
        return None;
    };
    Some(Request {
        script,
        document,
        operation: value_of(found, "operation"),
        variables: value_of(found, "variables"),
    })
}

/// The first value that was found for the argument.
fn value_of<'a>(found: &ArgMatches<'a>, name: &str) -> Option<&'a str>
    ensures { option_map (λ text. text.now) result ≡ first_of name.now
        (rows_of (found_of found.now)) }
{
    found.get_str(name)
}

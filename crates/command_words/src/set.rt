//! The set of commands.

ghost use Rattle.std.specs.Prelude.{◌≡◌, false, IfOk};
ghost use Rattle.clap.specs.Words.{app_of, rule_of, shape_of};
ghost use Rattle.clap.specs.declared.builder.command.Command.TheViews.{out-Command};
ghost use Rattle.command_words.specs.Commands as spec;

use clap::{Arg, Command};
use std::alloc::{AllocError, Global};

/// The commands, of which one has to be named; neither help nor a version is asked for.
pub(crate) fn commands<'a>(alloc: Global) -> Result<Command<'a>, AllocError>
    ensures { IfOk result (λ c. app_of c ≡ spec.commands) }
{
    let check = of_script(alloc, "check")?;
    let schema = of_script(alloc, "schema")?;
    let query = of_request(alloc, "query")?;
    let explain = of_request(alloc, "explain")?;
    let commands = top(alloc)
        .subcommand(check)?
        .subcommand(schema)?
        .subcommand(query)?
        .subcommand(explain)?;
    Ok(commands)
}

/// The program, before its commands are there.
fn top<'a>(alloc: Global) -> Command<'a>
    ensures { app_of result ≡ spec.program }
{
    Command::new(alloc, "graphile_prog")
        .no_binary_name(true)
        .disable_help_flag(true)
        .disable_help_subcommand(true)
        .disable_version_flag(true)
        .subcommand_required(true)
}

/// `NAME SCRIPT`
fn of_script<'a>(alloc: Global, name: &'a str) -> Result<Command<'a>, AllocError>
    ensures shape { IfOk result (λ c. shape_of c ≡ spec.command name.entry.now spec.script_only) }
    ensures globals { IfOk result (λ c. (out-Command c).has_globals ≡ false) }
{
    let script = positional(alloc, "script");
    let command = Command::new(alloc, name).arg(script)?;
    Ok(command)
}

/// `NAME SCRIPT DOC [--operation NAME] [--variables FILE]`
fn of_request<'a>(alloc: Global, name: &'a str) -> Result<Command<'a>, AllocError>
    ensures shape { IfOk result (λ c. shape_of c ≡ spec.command name.entry.now spec.request) }
    ensures globals { IfOk result (λ c. (out-Command c).has_globals ≡ false) }
{
    let script = positional(alloc, "script");
    let document = positional(alloc, "document");
    let operation = option(alloc, "operation");
    let variables = option(alloc, "variables");
    let command = Command::new(alloc, name)
        .arg(script)?
        .arg(document)?
        .arg(operation)?
        .arg(variables)?;
    Ok(command)
}

/// A positional that has to stand there.
fn positional<'a>(alloc: Global, name: &'a str) -> Arg<'a>
    ensures rule { rule_of result ≡ spec.positional name.entry.now }
    ensures own { result.global ≡ false }
{
    Arg::new(alloc, name).required(true)
}

/// `--name VALUE` or `--name=VALUE`
fn option<'a>(alloc: Global, name: &'a str) -> Arg<'a>
    ensures rule { rule_of result ≡ spec.option name.entry.now }
    ensures own { result.global ≡ false }
{
    Arg::new(alloc, name).long(name)
}

//! Rows of tables, which are documents with their responses, asked over a script.

ghost use Rattle.std.specs.Prelude.{IfOk};
ghost use Rattle.std.specs.Arc.{arc_value};
ghost use Rattle.request_core.specs.Load.{IsUsable};

use crate::opening::{answer_over, opened};
use crate::slow::by_lists;
use pg_base::{Blob, Memory};
use request_core::{Loaded, Request, load};
use std::alloc::Global;
use std::marker::Brand;
use std::sync::ledger::Blank;
use std::test::Fail;
use stmt_run::MemRows;

/// What stands in a document around the part that a row tells.
#[derive(Clone, Copy)]
pub(crate) struct Around {
    pub opening: &'static str,
    pub closing: &'static str,
}

/// Of rows that tell whole documents.
pub(crate) const WHOLE: Around = Around {
    opening: "",
    closing: "",
};

/// A text that may be left out.
pub(crate) fn given(text: &str) -> Option<&str> {
    if text.is_empty() { None } else { Some(text) }
}

/// What a row asks: its part of the document, its variables and the name of its operation, which stand behind bars
/// where there are some.
pub(crate) fn parts_of(asked: &str) -> (&str, &str, &str) {
    let (part, rest) = asked.split_once(" | ").unwrap_or((asked, ""));
    let (variables, operation) = rest.split_once(" | ").unwrap_or((rest, ""));
    (part, variables, operation)
}

/// The number that decimal digits spell.
fn number_of(digits: &str) -> u32 {
    digits.parse::<u32>().unwrap_or(0)
}

/// Adds what stands in marks, as `FROM..TO|TEXT`: the text for each of these numbers, the last left out, with the number
/// in place of each `sign`.
fn push_many(out: &mut String, alloc: Global, inside: &str, sign: &str) -> Result<(), Fail> {
    let (range, text) = inside.split_once("|").unwrap_or(("", ""));
    let (from, to) = range.split_once("..").unwrap_or(("", ""));
    for number in number_of(from)..number_of(to) {
        let number = format!(in alloc; "{number}")?;
        let text = text.replace(alloc, sign, number.as_str())?;
        out.push_str(text.as_str())?;
    }
    Ok(())
}

/// A text, with what stands between `opening` and `closing` so many times.
fn spread(
    alloc: Global,
    text: &str,
    opening: &str,
    closing: &str,
    sign: &str,
) -> Result<String, Fail> {
    let mut out = String::new(alloc);
    for piece in text.split(opening) {
        let (inside, rest) = piece.split_once(closing).unwrap_or(("", piece));
        push_many(&mut out, alloc, inside, sign)?;
        out.push_str(rest)?;
    }
    Ok(out)
}

/// A text in which `<<0..3|a#>>` stands for `a0a1a2`, `<(0..3|a%)>` for the same within, and `~` for a line feed.
pub(crate) fn expanded(alloc: Global, text: &str) -> Result<String, Fail> {
    let outer = spread(alloc, text, "<<", ">>", "#")?;
    let inner = spread(alloc, outer.as_str(), "<(", ")>", "%")?;
    Ok(inner.replace(alloc, "~", "\n")?)
}

/// What a script gives.
pub(crate) fn loaded(alloc: Global, script: &str) -> Result<Loaded, Fail>
    ensures { IfOk result (λ loaded. IsUsable (arc_value loaded.base) loaded.tables) }
{
    let script = expanded(alloc, script)?;
    match load(alloc, script.as_bytes()) {
        Ok(loaded) => Ok(loaded),
        Err(_) => Err("the script has a fault".into()),
    }
}

/// The response to a request over a store in memory.
fn answered(alloc: Global, over: &Loaded, request: Request<'_>) -> Result<Blob, Memory>
    requires { IsUsable (arc_value over.now.base) over.now.tables }
{
    let at = opened(alloc, over)?;
    let mut rows = MemRows::new(alloc);
    answer_over::<MemRows, Brand>(alloc, over, request, &at, &mut rows, Blank::new(1))
}

/// The text of the response to what a row asks; where it has data, it is also that of plain recursion, or a mark of what
/// this gives.
fn answer_of(alloc: Global, over: &Loaded, around: Around, asked: &str) -> Result<String, Fail>
    requires { IsUsable (arc_value over.now.base) over.now.tables }
{
    let (part, variables, operation) = parts_of(asked);
    let (opening, closing) = (around.opening, around.closing);
    let document = format!(in alloc; "{opening}{part}{closing}")?;
    let document = expanded(alloc, document.as_str())?;
    let variables_text = expanded(alloc, variables)?;
    let operation_text = String::from_str(alloc, operation)?;
    let operation = given(operation_text.as_str());
    let variables = given(variables_text.as_str()).map(str::as_bytes);
    let request = Request {
        document: document.as_bytes(),
        operation,
        variables,
    };
    let answer = answered(alloc, over, request)?;
    let text = str::from_utf8(answer.bytes()).map_err(|_| "no text")?;
    if !text.contains("\"data\":") {
        return Ok(String::from_str(alloc, text)?);
    }
    let slow = by_lists(alloc, &over.base, &over.tables, request)?;
    if slow.as_str() == text {
        return Ok(slow);
    }
    Ok(format!(in alloc; "{text} and by lists {slow}")?)
}

/// Nothing where the response to a row is the one that it tells, else the row and what came.
fn difference(alloc: Global, over: &Loaded, around: Around, row: &str) -> Result<String, Fail>
    requires { IsUsable (arc_value over.now.base) over.now.tables }
{
    let (asked, wanted) = row.split_once(" => ").ok_or("no arrow")?;
    let wanted = expanded(alloc, wanted)?;
    let answer = answer_of(alloc, over, around, asked)?;
    if answer.as_str() == wanted.as_str() {
        return Ok(String::new(alloc));
    }
    Ok(format!(in alloc; "\n{row}\n  came: {answer}")?)
}

/// The rows of a table that have another response than they tell, each with that; nothing where there is none.
pub(crate) fn differences(
    alloc: Global,
    script: &str,
    around: Around,
    rows: &str,
) -> Result<String, Fail> {
    let over = loaded(alloc, script)?;
    let mut told = String::new(alloc);
    for row in rows.trim().lines() {
        let difference = difference(alloc, &over, around, row)?;
        told.push_str(difference.as_str())?;
    }
    Ok(told)
}

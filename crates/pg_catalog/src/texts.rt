//! That what a part names and says is text. These calls only look at the texts; what they tell is their contract.

ghost use Rattle.std.specs.Prelude.{IfSome};
ghost use Rattle.std.specs.Str.{IsUtf8};
ghost use Rattle.pg_base.specs.Lists.{Each};
ghost use Rattle.pg_base.specs.Catalog.{AreTexts};
ghost use Rattle.pg_catalog.specs.Texts.{IsTextLiteral, IsTextColumn};

use crate::{ColumnPart, Literal};
use pg_base::{Tags, Text};

pub(crate) fn know_text(text: &Text)
    ensures { IsUtf8 text.now }
{
    let _ = text.bytes();
}

fn know_optional(text: &Option<Text>)
    ensures { IfSome text.now IsUtf8 }
{
    match text {
        None => {}
        Some(text) => know_text(text),
    }
}

pub(crate) fn know_tags(tags: &Tags)
    ensures { AreTexts tags.now }
{
    know_optional(&tags.name);
    know_optional(&tags.field_name);
    know_optional(&tags.foreign_field_name);
    know_optional(&tags.deprecated);
    know_optional(&tags.description);
}

pub(crate) fn know_texts(texts: &[Text])
    ensures { Each IsUtf8 texts.now }
{
    for text in texts {
        know_text(text);
    }
}

fn know_literal(literal: &Literal)
    ensures { IsTextLiteral literal.now }
{
    match literal {
        Literal::Text(text) => know_text(text),
        Literal::Null => {}
        Literal::Int(_) => {}
        Literal::LongInt => {}
        Literal::Bool(_) => {}
    }
}

fn know_default(default: &Option<Literal>)
    ensures { IfSome default.now IsTextLiteral }
{
    match default {
        None => {}
        Some(literal) => know_literal(literal),
    }
}

fn know_column(column: &ColumnPart)
    ensures { IsTextColumn column.now }
{
    know_text(&column.name);
    know_default(&column.default);
}

pub(crate) fn know_columns(columns: &[ColumnPart])
    ensures { Each IsTextColumn columns.now }
{
    for column in columns {
        know_column(column);
    }
}

//! That what rows say is text. These calls only look at the texts; what they tell is their contract.

ghost use Rattle.std.specs.Str.{IsUtf8};
ghost use Rattle.pg_base.specs.Lists.{Each};
ghost use Rattle.rows_reader.specs.Texts.{IsTextLiteral, HasTexts};

use ddl_reader::{CompactText, Literal, RowText};

fn know_text(text: &CompactText)
    ensures { IsUtf8 text.now }
{
    let _ = text.bytes();
}

fn know_literal(literal: &Literal)
    ensures { IsTextLiteral literal.now }
{
    match literal {
        Literal::Str(text) => know_text(text),
        Literal::Number(_) => {}
        Literal::True => {}
        Literal::False => {}
        Literal::Null => {}
        Literal::Default => {}
    }
}

fn know_cells(cells: &[Literal])
    ensures { Each IsTextLiteral cells.now }
{
    for cell in cells {
        know_literal(cell);
    }
}

pub(crate) fn know_rows(rows: &[RowText])
    ensures { Each HasTexts rows.now }
{
    for row in rows {
        know_cells(row.cells.as_slice());
    }
}

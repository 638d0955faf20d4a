//! Laws of cursors. The calls do nothing: their contracts are the laws.

ghost use Rattle.std.specs.Prelude.{◌≡◌, ◌↔◌, List, ℕ, Option, Some, None, IfSome};
ghost use Rattle.cursor_text.specs.declared.cursor.Cursor.{Cursor};
ghost use Rattle.base64.specs.GeneralPurpose.{IsBytes};
ghost use Rattle.cursor_text.specs.CursorText.{IsCursor, IsNoCursor, IsValidCursor, cursor_text};
ghost use Rattle.cursor_text.specs.Reading.{cursor_at};

/// The reader's definition gives a cursor exactly where the text is that cursor's.
pub fn definition_gives_the_cursor()
    ensures { (text : List ℕ) (c : Cursor) → IsBytes text
        → (cursor_at text ≡ Some c) ↔ IsCursor text c }
{}

/// A text spells at most one cursor.
pub fn text_spells_one_cursor()
    ensures { (text : List ℕ) (c d : Cursor) → IsCursor text c → IsCursor text d → c ≡ d }
{}

/// The text of a cursor is read as that cursor: no other answer is one that `read_cursor` gives.
pub fn written_is_read_back()
    ensures { (c : Cursor) (read : Option Cursor) → IsValidCursor c
        → IfSome read (IsCursor (cursor_text c)) → (read ≡ None → IsNoCursor (cursor_text c))
        → read ≡ Some c }
{}

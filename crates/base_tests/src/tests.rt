use pg_base::{Blob, Cell, Member, Pos, PosCounter, Sequence, Text, Value, Variable, Vars};
use sqlite_items::Items;
use std::collections::HashSet;
use std::test::Fail;

#[test]
fn texts_and_blobs_keep_their_bytes(rt: HostRuntime) -> Result<(), Fail> {
    for bytes in ["", "Ann", "naïve \u{1f600}\0"] {
        let text = Text::of(rt.alloc(), bytes)?;
        assert_eq!(rt; text.bytes(), bytes.as_bytes(), "{bytes:?}");
        assert_eq!(rt;
            text.copy(rt.alloc())?.bytes(),
            bytes.as_bytes(),
            "{bytes:?}"
        );
    }
    let blob = Blob::of(Vec::from_slice(rt.alloc(), b"\xff\0\x80")?);
    assert_eq!(rt; blob.bytes(), b"\xff\0\x80".as_slice());
    Ok(())
}

#[test]
fn cells_are_ordered_and_copied(rt: HostRuntime) -> Result<(), Fail> {
    let cells = [
        Cell::Null,
        Cell::Int(-7),
        Cell::Int(2),
        Cell::Bool(false),
        Cell::Bool(true),
        Cell::Text(Text::of(rt.alloc(), "Ann")?),
        Cell::Text(Text::of(rt.alloc(), "ann")?),
        Cell::EnumCase(2),
    ];
    for i in 0..cells.len() {
        for j in 0..cells.len() {
            assert_eq!(rt; cells[i].cmp(&cells[j]), i.cmp(&j), "{i} and {j}");
        }
        assert!(rt; cells[i].copy(rt.alloc())? == cells[i], "{i}");
    }
    Ok(())
}

#[test]
fn sequences_are_keys_and_give_their_vec_back(rt: HostRuntime) -> Result<(), Fail> {
    let mut keys = HashSet::new(rt.alloc());
    for items in [[1, 2], [2, 1], [1, 2]] {
        let key = Sequence::of(Vec::from_slice(rt.alloc(), items.as_slice())?);
        keys.insert(key)?;
    }
    assert_eq!(rt; keys.len(), 2);
    let less = Sequence::of(Vec::from_slice(rt.alloc(), [1, 2].as_slice())?);
    let more = Sequence::of(Vec::from_slice(rt.alloc(), [1, 2, 0].as_slice())?);
    assert!(rt; less < more);
    assert_eq!(rt;
        less.copy(rt.alloc())?.into_vec().as_slice(),
        [1, 2].as_slice()
    );
    Ok(())
}

#[test]
fn values_are_copied_compared_and_found(rt: HostRuntime) -> Result<(), Fail> {
    let mut items = Items::new(rt.alloc());
    items.push(Value::Null)?;
    items.push(Value::Text(Text::of(rt.alloc(), "x")?))?;
    let mut members = Items::new(rt.alloc());
    members.push(Member {
        name: Text::of(rt.alloc(), "a")?,
        value: Value::List(items),
    })?;
    let value = Value::Object(members);
    let copy = value.copy(rt.alloc())?;
    assert!(rt; value.is_same(&copy));
    let mut entries = Items::new(rt.alloc());
    entries.push(Variable {
        name: Text::of(rt.alloc(), "v")?,
        value: copy,
    })?;
    let vars = Vars { entries };
    let name = Text::of(rt.alloc(), "v")?;
    assert!(rt; vars.get(&name).is_some_and(|found| found.is_same(&value)));
    let other = Text::of(rt.alloc(), "w")?;
    assert!(rt; vars.get(&other).is_none());
    Ok(())
}

#[test]
fn lines_end_with_lf_cr_lf_or_cr(rt: HostRuntime) {
    let rows = [
        ("", 1, 1),
        ("ab", 1, 3),
        ("ab\n", 2, 1),
        ("ab\r\n", 2, 1),
        ("ab\r", 2, 1),
        ("ab\r\nc", 2, 2),
        ("a\rb", 2, 2),
        ("\n\r", 3, 1),
        ("\r\r\n", 3, 1),
        ("\r\n\n", 3, 1),
        ("\u{e9}\u{4e2d}\u{1f600}", 1, 4),
        ("\u{e9}\n\u{4e2d}", 2, 2),
    ];
    for (before, line, column) in rows {
        let counter = PosCounter::start().pass_all(before.as_bytes());
        assert_eq!(rt; counter.pos, Pos { line, column }, "after {before:?}");
    }
}

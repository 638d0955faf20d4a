//! The texts of cursors.

use cursor_text::{Cursor, read_cursor, write_cursor};
use pg_base::{Cell, Mark, Memory, Text, Value};
use sqlite_items::Items;
use std::alloc::Global;
use std::test::Fail;

/// Texts, each with what its cursor says, which is its names, its values and its number, or else with why it is no
/// cursor's. A control character stands behind a `^`, 64 greater.
const TEXTS: &str = "\
W1tdLFtdLDFd => 1
W1siR19BU0MiXSxbMV0sMV0= => G_ASC 1 1
W1siR19BU0MiXSxbMV0sMl0= => G_ASC 1 2
W1siIl0sWyIiXSwxMF0= =>   10
W1siQV9BU0MiLCJCX0RFU0MiXSxbbnVsbCwtOTIyMzM3MjAzNjg1NDc3NTgwOF0sMTg0NDY3NDQwNzM3MDk1NTE2MTVd => A_ASC B_DESC null -9223372036854775808 18446744073709551615
W1siQV9BU0MiLCJCX0FTQyIsIkNfQVNDIiwiRF9BU0MiXSxbdHJ1ZSxmYWxzZSw5MjIzMzcyMDM2ODU0Nzc1ODA3LCJzYXkgXCJoaVwiIFxcIFxiXHRcblxmXHJcdTAwMDBcdTAwMWYgw6kvIl0sN10= => A_ASC B_ASC C_ASC D_ASC true false 9223372036854775807 say \"hi\" \\ ^H^I^J^L^M^@^_ é/ 7
W1siR19BU0MiXSwgWzFdLDFd => no cursor: a space
W1siR19BU0MiXSxbMV0sMV0g => no cursor: a space at the end
W1siR19BU0MiXSxbMDFdLDFd => no cursor: a leading zero
W1siR19BU0MiXSxbLTBdLDFd => no cursor: a zero with a minus
W1siR19BU0MiXSxbKzFdLDFd => no cursor: a plus
W1siR19BU0MiXSxbMS4wXSwxXQ== => no cursor: a fraction
W1siR19BU0MiXSxbOTIyMzM3MjAzNjg1NDc3NTgwOF0sMV0= => no cursor: 65 bits
W1siR19BU0MiXSxbLTkyMjMzNzIwMzY4NTQ3NzU4MDldLDFd => no cursor: 65 bits, negative
W1siR19BU0MiXSxbMV0sMF0= => no cursor: number 0
W1siR19BU0MiXSxbMV0sMDFd => no cursor: a leading zero of the number
W1siR19BU0MiXSxbMV0sLTFd => no cursor: a negative number
W1siR19BU0MiXSxbMV0sMTg0NDY3NDQwNzM3MDk1NTE2MTZd => no cursor: a number of 65 bits
W1siR19BU0MiXSxbIlwvIl0sMV0= => no cursor: an escape that isn't needed
W1siR19BU0MiXSxbIlx1MDA0MSJdLDFd => no cursor: an escape by number that isn't needed
W1siR19BU0MiXSxbIlx1MDAwQSJdLDFd => no cursor: digits in upper case
W1siR19BU0MiXSxbIlx1MDAwOSJdLDFd => no cursor: an escape by number in place of a shorter one
W1siR19BU0MiXSxbIlx1MDAxRiJdLDFd => no cursor: a digit in upper case
W1siR19BU0MiXSxbIgkiXSwxXQ== => no cursor: a control character
W1siR19BU0MiXSxbXSwxXQ== => no cursor: a value too few
W1tdLFsxXSwxXQ== => no cursor: a value too many
W1siR19BU0MiXSxbWzFdXSwxXQ== => no cursor: a list as a value
W1siR19BU0MiXSxbe31dLDFd => no cursor: an object as a value
W1sxXSxbMV0sMV0= => no cursor: a number as a name
W1siR19BU0MiXSxbMV0sXQ== => no cursor: no number
W1siR19BU0MiLF0sWzFdLDFd => no cursor: a comma too many
W1siR19BU0MiXSxbMV1d => no cursor: two parts
e30= => no cursor: an object
W1siR19BU0MiXSxbMV0sMV0 => no cursor: no padding
W1siR19BU0MiXSxbMV0sMV1= => no cursor: bits after the end
W1siR19BU0MiXSxbMV0sMV0= W => no cursor: more after the padding
W1si_yJdLFsxXSwxXQ== => no cursor: another alphabet
W1si/yJdLFsxXSwxXQ== => no cursor: no UTF-8";

fn put_text(shown: &mut Vec<u8>, text: &Text) -> Result<(), Memory> {
    for byte in text.bytes() {
        if *byte < 0x20 {
            shown.push(b'^')?;
            shown.push(*byte + 64)?;
        } else {
            shown.push(*byte)?;
        }
    }
    shown.push(b' ')?;
    Ok(())
}

fn put_value(alloc: Global, shown: &mut Vec<u8>, value: &Value) -> Result<(), Fail> {
    match value {
        Value::Null => shown.extend_from_slice(b"null ")?,
        Value::Bool(true) => shown.extend_from_slice(b"true ")?,
        Value::Bool(false) => shown.extend_from_slice(b"false ")?,
        Value::Int(number) => {
            shown.extend_from_slice(format!(in alloc; "{number} ")?.as_bytes())?;
        }
        Value::Text(text) => put_text(shown, text)?,
        Value::Case(_) | Value::List(_) | Value::Object(_) => shown.extend_from_slice(b"other ")?,
    }
    Ok(())
}

fn shown(alloc: Global, cursor: &Cursor) -> Result<Vec<u8>, Fail> {
    let mut shown = Vec::new(alloc);
    for name in cursor.order.as_slice() {
        put_text(&mut shown, name)?;
    }
    for value in cursor.values.as_slice() {
        put_value(alloc, &mut shown, value)?;
    }
    let number = cursor.number;
    shown.extend_from_slice(format!(in alloc; "{number}")?.as_bytes())?;
    Ok(shown)
}

#[test]
fn texts_of_cursors_are_read(rt: HostRuntime) -> Result<(), Fail> {
    for line in TEXTS.lines() {
        let (text, says) = line.split_once(" => ").ok_or("no row")?;
        match read_cursor(rt.alloc(), text.as_bytes())? {
            Some(cursor) => {
                assert_eq!(rt; shown(rt.alloc(), &cursor)?.as_slice(), says.as_bytes());
            }
            None => assert!(rt; says.starts_with("no cursor: "), "{line}"),
        }
    }
    Ok(())
}

/// `[["S_ASC","T_DESC","U_ASC"],["low",null,"high"],3]`
#[test]
fn labels_are_written_in_their_order(rt: HostRuntime) -> Result<(), Fail> {
    let mut order = Items::new(rt.alloc());
    order.push(Text::of(rt.alloc(), "S_ASC")?)?;
    order.push(Text::of(rt.alloc(), "T_DESC")?)?;
    order.push(Text::of(rt.alloc(), "U_ASC")?)?;
    let mut labels = Items::new(rt.alloc());
    labels.push(Text::of(rt.alloc(), "low")?)?;
    labels.push(Text::of(rt.alloc(), "high")?)?;
    let mut values = Items::new(rt.alloc());
    values.push(Cell::EnumCase(4))?;
    values.push(Cell::Null)?;
    values.push(Cell::EnumCase(0))?;
    let mark = Mark { values, number: 3 };
    let text = write_cursor(rt.alloc(), order.as_slice(), &mark, labels.as_slice())?;
    let due = "W1siU19BU0MiLCJUX0RFU0MiLCJVX0FTQyJdLFsibG93IixudWxsLCJoaWdoIl0sM10=";
    assert_eq!(rt; text.bytes(), due.as_bytes());
    Ok(())
}

/// `[["STU_ASC"],["aa .. a"],1]`, with 99,999 letters.
#[test]
fn a_long_value_is_written_and_read(rt: HostRuntime) -> Result<(), Fail> {
    let letters = "aaa".repeat(rt.alloc(), 33_333)?;
    let mut order = Items::new(rt.alloc());
    order.push(Text::of(rt.alloc(), "STU_ASC")?)?;
    let mut values = Items::new(rt.alloc());
    values.push(Cell::Text(Text::of(rt.alloc(), letters.as_str())?))?;
    let mark = Mark { values, number: 1 };
    let text = write_cursor(rt.alloc(), order.as_slice(), &mark, &[])?;
    let encoded = "YWFh".repeat(rt.alloc(), 33_333)?;
    let due = format!(in rt.alloc(); "W1siU1RVX0FTQyJdLFsi{encoded}Il0sMV0=")?;
    assert_eq!(rt; text.bytes(), due.as_bytes());
    let cursor = read_cursor(rt.alloc(), due.as_bytes())?.ok_or("no cursor")?;
    let says = format!(in rt.alloc(); "STU_ASC {letters} 1")?;
    assert_eq!(rt; shown(rt.alloc(), &cursor)?.as_slice(), says.as_bytes());
    Ok(())
}

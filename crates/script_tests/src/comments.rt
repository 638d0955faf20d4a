//! What comments ask for.

use pg_base::Text;
use smart_tags::read_tags;
use std::alloc::{AllocError, Global};
use std::test::Fail;

/// Comments, a bar, and what is read of each: name, fieldName, foreignFieldName, deprecated, description, `-` for each
/// that there is not, and what is on of select, list, connection, insert, update, delete, order, filter. A bar ends each.
const ROWS: [&str; 25] = [
    "|-|-|-|-|-|11111111|",
    "A table.|-|-|-|-|A table.|11111111|",
    "@name users\nAll of them.\r\nAll.|users|-|-|-|All of them.\nAll.|11111111|",
    "@name a b \r\n@name c|a b |-|-|-|-|11111111|",
    "@fieldName f\n@foreignFieldName g\n|-|f|g|-|-|11111111|",
    "@deprecated Use é.\n\n|-|-|-|Use é.|\n|11111111|",
    "text\n@name x|-|-|-|-|text\n@name x|11111111|",
    " @name x|-|-|-|-| @name x|11111111|",
    "\n@name x|-|-|-|-|\n@name x|11111111|",
    "@name||-|-|-|-|11111111|",
    "@name  x| x|-|-|-|-|11111111|",
    "@|-|-|-|-|-|11111111|",
    "@names x\n@Name y\n@ name z|-|-|-|-|-|11111111|",
    "@name x\ry\nd\re|x\ry|-|-|-|d\re|11111111|",
    "@name x\r\n\r\nd|x|-|-|-|\nd|11111111|",
    "@behavior|-|-|-|-|-|11111111|",
    "@behavior -select|-|-|-|-|-|01111111|",
    "@behavior -list -connection|-|-|-|-|-|10011111|",
    "@behavior -insert -update -delete -order -filter|-|-|-|-|-|11100000|",
    "@behavior -select +select -list|-|-|-|-|-|10111111|",
    "@behavior +order -order\n@name x\n@behavior -filter +order|x|-|-|-|-|11111110|",
    "@behavior -insert\n@behavior +insert\ntext\n@behavior -update|-|-|-|-|text\n@behavior -update|11111111|",
    "@behavior  -select  -selects select *list -|-|-|-|-|-|01111111|",
    "@behaviour -select\n@behavior -SELECT|-|-|-|-|-|11111111|",
    "@behavior -delete\r\n@behavior -update\r\n|-|-|-|-|-|11110011|",
];

fn put_value(shown: &mut Vec<u8>, value: &Option<Text>) -> Result<(), AllocError> {
    match value {
        None => shown.push(b'-')?,
        Some(text) => shown.extend_from_slice(text.bytes())?,
    }
    shown.push(b'|')?;
    Ok(())
}

/// The comment, and what is read of it, as a row.
fn row_of(alloc: Global, comment: &str) -> Result<Vec<u8>, AllocError> {
    let tags = read_tags(alloc, &Text::of(alloc, comment)?)?;
    let mut shown = Vec::from_slice(alloc, comment.as_bytes())?;
    shown.push(b'|')?;
    put_value(&mut shown, &tags.name)?;
    put_value(&mut shown, &tags.field_name)?;
    put_value(&mut shown, &tags.foreign_field_name)?;
    put_value(&mut shown, &tags.deprecated)?;
    put_value(&mut shown, &tags.description)?;
    for on in tags.behavior {
        shown.push(if on { b'1' } else { b'0' })?;
    }
    shown.push(b'|')?;
    Ok(shown)
}

#[test]
fn comments_ask_for_what_their_tags_say(rt: HostRuntime) -> Result<(), Fail> {
    for row in ROWS {
        let (comment, _) = row.split_once('|').ok_or("no row")?;
        let shown = row_of(rt.alloc(), comment)?;
        assert_eq!(rt; shown.as_slice(), row.as_bytes());
    }
    Ok(())
}

#[test]
fn a_long_comment_is_read(rt: HostRuntime) -> Result<(), Fail> {
    let mut comment = Vec::from_slice(rt.alloc(), b"@name ".as_slice())?;
    comment.extend_from_slice(vec![in rt.alloc(); b'x'; 100_000]?.as_slice())?;
    comment.extend_from_slice(b"\n".as_slice())?;
    comment.extend_from_slice(vec![in rt.alloc(); b'y'; 100_000]?.as_slice())?;
    let text = str::from_utf8(comment.as_slice()).ok().ok_or("no text")?;
    let tags = read_tags(rt.alloc(), &Text::of(rt.alloc(), text)?)?;
    assert_eq!(rt; tags.name.ok_or("no name")?.bytes().len(), 100_000);
    assert_eq!(rt;
        tags.description.ok_or("no description")?.bytes().len(),
        100_000
    );
    Ok(())
}

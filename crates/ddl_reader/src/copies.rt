//! Copies of what statements name.

ghost use Rattle.std.specs.Prelude.{◌≡◌, [], ◌∷◌, IfOk};

use pg_base::{Memory, Text};
use sqlite_items::Items;
use std::alloc::Global;

pub(crate) fn copy_name(alloc: Global, name: &Option<Text>) -> Result<Option<Text>, Memory>
    ensures { IfOk result (λ copy. copy ≡ name.now) }
{
    match name {
        None => Ok(None),
        Some(name) => {
            let copy = name.copy(alloc)?;
            Ok(Some(copy))
        }
    }
}

pub(crate) fn copy_texts(alloc: Global, texts: &[Text]) -> Result<Items<Text>, Memory>
    ensures { IfOk result (λ copies. copies ≡ texts.now) }
{
    let mut copies = Items::new(alloc);
    for text in texts {
        let copy = text.copy(alloc)?;
        copies.push(copy)?;
    }
    Ok(copies)
}

pub(crate) fn copy_optional_texts(
    alloc: Global,
    texts: &Option<Items<Text>>,
) -> Result<Option<Items<Text>>, Memory>
    ensures { IfOk result (λ copies. copies ≡ texts.now) }
{
    match texts {
        None => Ok(None),
        Some(texts) => {
            let copies = copy_texts(alloc, texts.as_slice())?;
            Ok(Some(copies))
        }
    }
}

/// A list of this text alone.
pub(crate) fn single(alloc: Global, text: &Text) -> Result<Items<Text>, Memory>
    ensures { IfOk result (λ texts. texts ≡ text.now ∷ []) }
{
    let mut texts = Items::new(alloc);
    let copy = text.copy(alloc)?;
    texts.push(copy)?;
    Ok(texts)
}

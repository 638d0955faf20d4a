//! The bytes that are still to be read.

ghost use Rattle.std.specs.Prelude.{◌≡◌, IsTrue, true, false, None, Some};
ghost use Rattle.cursor_text.specs.Reader as spec;
ghost use Rattle.cursor_text.specs.Reader.{Reads};

use crate::fault::ReadFault;

/// The bytes that are still to be read.
#[derive(Drop)]
pub(crate) struct Bytes<'a> {
    pub rest: &'a [u8],
}

impl<'a> Bytes<'a> {
    /// Takes the next byte.
    pub fn any(&mut self) -> Result<u8, ReadFault>
        ensures { Reads (spec.any_byte self.old.rest.now) result self.new.rest.now }
    {
        match self.rest {
            [] => Err(ReadFault::NoCursor),
            [first, rest @ ..] => {
                self.rest = rest;
                Ok(*first)
            }
        }
    }

    /// Takes this byte.
    pub fn byte(&mut self, wanted: u8) -> Result<(), ReadFault>
        ensures { Reads (spec.byte wanted self.old.rest.now) result self.new.rest.now }
    {
        match self.rest {
            [] => Err(ReadFault::NoCursor),
            [first, rest @ ..] => {
                if *first != wanted {
                    return Err(ReadFault::NoCursor);
                }
                self.rest = rest;
                Ok(())
            }
        }
    }

    /// Takes this byte where it is next.
    pub fn eat(&mut self, wanted: u8) -> bool
        ensures taken { result ≡ true
            → spec.byte wanted self.old.rest.now ≡ Some (tt, self.new.rest.now) }
        ensures missing { result ≡ false → spec.byte wanted self.old.rest.now ≡ None }
        ensures same { result ≡ false → self.new.rest.now ≡ self.old.rest.now }
    {
        match self.rest {
            [] => false,
            [first, rest @ ..] => {
                if *first != wanted {
                    return false;
                }
                self.rest = rest;
                true
            }
        }
    }
}

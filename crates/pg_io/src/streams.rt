//! Sources and sinks of bytes.

ghost use Rattle.std.specs.Prelude.{◌≡◌, ℕ, List, Option};
ghost use Rattle.pg_io.specs.Streams.{ReadsWithin, ReadTakes, WritesSome, Gains, HasCause, Delivers};

/// The call failed, and took or gave nothing.
#[derive(Clone, Copy, Debug)]
pub struct Failed;

/// Bytes that come from outside.
pub trait Source {
    /// The bytes that are still to come, where the source tells them.
    ghost left: { Self → Option (List ℕ) };
    /// The bytes that came so far, where the source tells them.
    ghost given: { Self → Option (List ℕ) };
    /// How many calls have failed.
    ghost faults: { Self → ℕ };

    /// Reads the next bytes to the front of `into`, and gives their count. Over room that isn't empty, 0 is the end.
    fn read(&mut self, into: &mut [u8]) -> Result<usize, Failed>
        ensures bound { ReadsWithin result into.new }
        ensures bytes { ReadTakes (left self.old) (left self.new) result into.new }
        ensures given { Gains (given self.old) (given self.new) result into.new }
        ensures cause { HasCause (faults self.old) (faults self.new) result };
}

/// Where bytes go.
pub trait Sink {
    /// The bytes that were taken, where the sink tells them.
    ghost taken: { Self → Option (List ℕ) };
    /// How many calls have failed.
    ghost faults: { Self → ℕ };

    /// Takes bytes from the front of `from`, at least one where there is one, and gives their count.
    fn write(&mut self, from: &[u8]) -> Result<usize, Failed>
        ensures bound { WritesSome result from.now }
        ensures bytes { Gains (taken self.old) (taken self.new) result from.now }
        ensures cause { HasCause (faults self.old) (faults self.new) result };
}

/// Gives all the bytes to the sink, or those before the call that failed.
pub fn write_all<K: Sink>(sink: &mut K, bytes: &[u8]) -> Result<(), Failed>
    ensures bytes { Delivers (K.taken sink.old) (K.taken sink.new) result bytes.now }
    ensures cause { HasCause (K.faults sink.old) (K.faults sink.new) result }
{
    let mut at = 0;
    'pieces: while at < bytes.len() {
        at += sink.write(&bytes[at..])?;
    }
    Ok(())
}

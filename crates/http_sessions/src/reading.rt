//! Reads heads and bodies into a buffer.

ghost use Rattle.std.specs.Prelude.{◌-◌, ◌<◌, ◌≤◌, length, take};
ghost use Rattle.pg_base.specs.Limits.{most_head_bytes};
ghost use Rattle.http_sessions.specs.HeadEnd.{IsScanOf, ScanStops};
ghost use Rattle.http_sessions.specs.Windows.{window_of, IsWindow, Came, GotIs, FoundIs, FilledIs};

use crate::scan::{Extent, Scan, Scanned, find_end};
use crate::window::{Window, make_room};
use pg_base::limits::MOST_HEAD_BYTES;
use pg_io::{Failed, Source};

/// Why no more bytes come.
#[derive(Clone, Copy, Debug)]
pub enum Halt {
    End,
    Fault,
}

/// What was found of a head.
#[derive(Clone, Copy, Debug)]
pub enum HeadFound {
    Head(Extent),
    TooLong,
    Halted(Halt),
}

/// What a read gave.
#[derive(Clone, Copy, Debug)]
pub enum Got {
    Bytes,
    Nothing,
    Failure,
}

/// Reads some bytes more.
fn read_more<S: Source>(source: &mut S, room: &mut [u8], window: &mut Window) -> Got
    requires window { IsWindow room.old window.old }
    requires room { window.old.held - window.old.start < length room.old }
    ensures window { IsWindow room.new window.new }
    ensures came { Came (S.given source.old) (S.given source.new) (S.left source.old)
        (S.left source.new) (window_of room.old window.old) (window_of room.new window.new) }
    ensures got { GotIs result (window_of room.old window.old) (window_of room.new window.new)
        (S.faults source.old) (S.faults source.new) (S.left source.new) }
{
    let made = make_room(room, *window);
    *window = made;
    match source.read(&mut room[made.held..]) {
        Err(Failed) => Got::Failure,
        Ok(count) => {
            if count == 0 {
                return Got::Nothing;
            }
            *window = Window {
                start: made.start,
                held: made.held + count,
            };
            Got::Bytes
        }
    }
}

/// Looks for the end of the head in the first bytes of the window.
fn look(room: &[u8], window: Window, seen: Scan) -> Scanned
    requires window { IsWindow room.now window }
    requires within { seen.at ≤ length (take most_head_bytes (window_of room.now window)) }
    requires so_far { IsScanOf
        (take seen.at (take most_head_bytes (window_of room.now window))) seen }
    ensures { ScanStops (take most_head_bytes (window_of room.now window)) result }
{
    let bytes = &room[window.start..window.held];
    let count = bytes.len().min(MOST_HEAD_BYTES);
    find_end(&bytes[..count], seen)
}

/// Reads until a head stands at the front of the window.
pub fn find_head<S: Source>(source: &mut S, room: &mut [u8], window: &mut Window) -> HeadFound
    requires window { IsWindow room.old window.old }
    requires room { most_head_bytes ≤ length room.old }
    ensures window { IsWindow room.new window.new }
    ensures came { Came (S.given source.old) (S.given source.new) (S.left source.old)
        (S.left source.new) (window_of room.old window.old) (window_of room.new window.new) }
    ensures found { FoundIs result (window_of room.new window.new) (S.faults source.old)
        (S.faults source.new) (S.left source.new) }
{
    let mut seen = Scan::START;
    'looks: loop {
        match look(room, *window, seen) {
            Scanned::Head(extent) => return HeadFound::Head(extent),
            Scanned::More(scan) => seen = scan,
        }
        if seen.at >= MOST_HEAD_BYTES {
            return HeadFound::TooLong;
        }
        match read_more(source, room, window) {
            Got::Bytes => {}
            Got::Nothing => return HeadFound::Halted(Halt::End),
            Got::Failure => return HeadFound::Halted(Halt::Fault),
        }
    }
}

/// Reads until the window has a number of bytes.
pub fn fill<S: Source>(
    source: &mut S,
    room: &mut [u8],
    window: &mut Window,
    size: usize,
) -> Result<(), Halt>
    requires window { IsWindow room.old window.old }
    requires room { size ≤ length room.old }
    ensures window { IsWindow room.new window.new }
    ensures came { Came (S.given source.old) (S.given source.new) (S.left source.old)
        (S.left source.new) (window_of room.old window.old) (window_of room.new window.new) }
    ensures filled { FilledIs result size (window_of room.new window.new) (S.faults source.old)
        (S.faults source.new) (S.left source.new) }
{
    'reads: while window.held - window.start < size {
        match read_more(source, room, window) {
            Got::Bytes => {}
            Got::Nothing => return Err(Halt::End),
            Got::Failure => return Err(Halt::Fault),
        }
    }
    Ok(())
}

//! The part of a buffer that holds what was read and not yet answered.

ghost use Rattle.std.specs.Prelude.{◌≡◌, ◌-◌, ◌<◌, length};
ghost use Rattle.http_sessions.specs.Windows.{window_of, IsWindow};

/// From where to where.
#[derive(Clone, Copy, Debug)]
pub struct Window {
    pub start: usize,
    pub held: usize,
}

/// Moves the window to the front of the buffer.
fn shift(room: &mut [u8], window: Window) -> Window
    requires { IsWindow room.old window }
    ensures same { window_of room.new result ≡ window_of room.old window }
    ensures start { result.start ≡ 0 }
    ensures held { result.held ≡ window.held - window.start }
{
    let count = window.held - window.start;
    'bytes: for i in 0..count {
        let byte = room[window.start + i];
        room[i] = byte;
    }
    Window {
        start: 0,
        held: count,
    }
}

/// Leaves room after the window.
pub fn make_room(room: &mut [u8], window: Window) -> Window
    requires window { IsWindow room.old window }
    requires room { window.held - window.start < length room.old }
    ensures same { window_of room.new result ≡ window_of room.old window }
    ensures window { IsWindow room.new result }
    ensures room { result.held < length room.new }
{
    if window.start == window.held {
        return Window { start: 0, held: 0 };
    }
    if window.held < room.len() {
        return window;
    }
    shift(room, window)
}

//! Looks for the end of a head.

ghost use Rattle.std.specs.Prelude.{◌≡◌, ◌+◌, ◌<◌, ◌≤◌, ◌^◌, length, take};
ghost use Rattle.http_sessions.specs.HeadEnd as spec;
ghost use Rattle.http_sessions.specs.HeadEnd.{IsScanOf, ScanStops};

/// A place among the lines of a head.
#[derive(Clone, Copy, Debug)]
pub enum Place {
    /// Before the first line.
    Before,
    /// At the begin of a line.
    LineStart,
    /// After a CR at the begin of a line.
    AfterCr,
    /// Further on in a line.
    InLine,
}

/// How far a head was looked at.
#[derive(Clone, Copy, Debug)]
pub struct Scan {
    /// How many bytes were looked at.
    pub at: usize,
    /// Where the first line begins.
    pub first: usize,
    pub place: Place,
    /// How many lines have ended.
    pub lines: usize,
}

/// Where a head ends.
#[derive(Clone, Copy, Debug)]
pub struct Extent {
    pub first: usize,
    pub lines: usize,
    pub end: usize,
}

/// What was found.
#[derive(Clone, Copy, Debug)]
pub enum Scanned {
    Head(Extent),
    More(Scan),
}

impl Scan {
    /// Nothing was looked at.
    pub const START: Scan = Scan {
        at: 0,
        first: 0,
        place: Place::Before,
        lines: 0,
    };
}

fn is_line_byte(byte: u8) -> bool
    ensures { result ≡ spec.is_line_byte byte }
{
    byte == b'\r' || byte == b'\n'
}

fn ends_head(place: Place, byte: u8) -> bool
    ensures { result ≡ spec.ends_head place byte }
{
    match place {
        Place::Before => false,
        Place::LineStart => byte == b'\n',
        Place::AfterCr => byte == b'\n',
        Place::InLine => false,
    }
}

/// The scan after a byte that doesn't end the head.
fn step(scan: Scan, byte: u8) -> Scan
    requires at { scan.at + 1 < 2 ^ 64 }
    requires lines { scan.lines ≤ scan.at }
    ensures { result ≡ spec.scan_after scan byte }
{
    let at = scan.at + 1;
    match scan.place {
        Place::Before => {
            if is_line_byte(byte) {
                Scan {
                    at,
                    first: at,
                    place: Place::Before,
                    lines: scan.lines,
                }
            } else {
                Scan {
                    at,
                    first: scan.at,
                    place: Place::InLine,
                    lines: scan.lines,
                }
            }
        }
        Place::LineStart => {
            if byte == b'\r' {
                Scan {
                    at,
                    first: scan.first,
                    place: Place::AfterCr,
                    lines: scan.lines,
                }
            } else {
                Scan {
                    at,
                    first: scan.first,
                    place: Place::InLine,
                    lines: scan.lines,
                }
            }
        }
        Place::AfterCr => Scan {
            at,
            first: scan.first,
            place: Place::InLine,
            lines: scan.lines,
        },
        Place::InLine => {
            if byte == b'\n' {
                Scan {
                    at,
                    first: scan.first,
                    place: Place::LineStart,
                    lines: scan.lines + 1,
                }
            } else {
                Scan {
                    at,
                    first: scan.first,
                    place: Place::InLine,
                    lines: scan.lines,
                }
            }
        }
    }
}

/// Looks at the bytes from where the scan stands.
pub fn find_end(bytes: &[u8], from: Scan) -> Scanned
    requires within { from.at ≤ length bytes.now }
    requires so_far { IsScanOf (take from.at bytes.now) from }
    ensures { ScanStops bytes.now result }
{
    let mut scan = from;
    'bytes: while scan.at < bytes.len() {
        let byte = bytes[scan.at];
        if ends_head(scan.place, byte) {
            return Scanned::Head(Extent {
                first: scan.first,
                lines: scan.lines,
                end: scan.at + 1,
            });
        }
        scan = step(scan, byte);
    }
    Scanned::More(scan)
}

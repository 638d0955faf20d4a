//! Where the last part of a name stands.

ghost use Rattle.std.specs.Prelude.{◌≡◌, ◌≤◌, length};
ghost use Rattle.name_rules.specs.Parts.{last_part_start, last_part_end};

/// Where a name's last part begins and ends. A name of `_`s alone has none, and both are 0.
#[derive(Clone, Copy)]
pub(crate) struct LastPart {
    pub(crate) start: usize,
    pub(crate) end: usize,
}

pub(crate) fn last_part(name: &[u8]) -> LastPart
    ensures start { result.start ≡ last_part_start name.now }
    ensures end { result.end ≡ last_part_end name.now }
{
    let end = end_of(name);
    let start = start_of(name, end);
    LastPart { start, end }
}

fn end_of(name: &[u8]) -> usize
    ensures { result ≡ last_part_end name.now }
{
    let mut end = name.len();
    while end > 0 && name[end - 1] == b'_' {
        end -= 1;
    }
    end
}

fn start_of(name: &[u8], end: usize) -> usize
    requires { end ≡ last_part_end name.now }
    ensures { result ≡ last_part_start name.now }
{
    let mut start = end;
    while start > 0 && name[start - 1] != b'_' {
        start -= 1;
    }
    start
}

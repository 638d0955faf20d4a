use super::*;
use pg_base::Memory;
use std::alloc::Global;
use std::test::Fail;

/// The stream of a case, where `|` is a line end.
fn stream(alloc: Global, text: &str) -> Result<Vec<u8>, Memory> {
    let mut bytes = Vec::new(alloc);
    for byte in text.bytes() {
        if byte == b'|' {
            bytes.extend_from_slice(b"\r\n")?;
        } else {
            bytes.push(byte)?;
        }
    }
    Ok(bytes)
}

const TWO: &str =
    "POST /graphql HTTP/1.1|Content-Length: 4||ab\r\n||POST /graphql HTTP/1.1|expect: 100-Continue|content-length:3|Connection: a, CLOSE ||xyz left";

const CASES: &str = "C0 => 
C0 => ||
T0 => P
T0 => POST /graphql HTTP/1.1|Content-Length: 2||a
C1 => POST /graphql HTTP/1.1|Content-Length: 2||ab
C1 => POST /graphql HTTP/1.0|Content-Length: 2||abPOST
T1 => POST /graphql HTTP/1.1|Content-Length: 2||abPOST
C1 => POST /graphql HTTP/1.1|Content-Length: 0|Connection: close||GET
R400 => POST /graphql|Content-Length: 2||ab
R404 => GET /graphql?x HTTP/1.1||
R405 => GET /graphql HTTP/1.1||
R501 => POST /graphql HTTP/1.1|Transfer-Encoding: chunked|Content-Length: x||
R411 => POST /graphql HTTP/1.1||
R400 => POST /graphql HTTP/1.1|Content-Length: 5, 5||
R400 => POST /graphql HTTP/1.1|Content-Length: 5|Content-Length: 5||
R400 => POST /graphql HTTP/1.1|Content-Length: ||
R413 => POST /graphql HTTP/1.1|Content-Length: 1048577||
T0 => POST /graphql HTTP/1.1|Content-Length: 1048576||
C1 => \r\rPOST /graphql HTTP/1.1|Content-Length: 1||a";

#[test]
fn sessions_end_by_their_cause(rt: HostRuntime) -> Result<(), Fail> {
    let alloc = rt.alloc();
    for case in CASES.lines() {
        let (wanted, text) = case.split_once(" => ").ok_or("a case")?;
        let seen = serve(alloc, stream(alloc, text)?.as_slice(), 1000, &[], &[])?;
        let (letter, status) = short(seen.end);
        let number = if status == 0 {
            seen.notes as u64
        } else {
            u64::from(status)
        };
        assert_eq!(rt; format!(in alloc; "{letter}{number}")?.as_str(), wanted);
    }
    Ok(())
}

#[test]
fn heads_stand_on_both_sides_of_their_limits(rt: HostRuntime) -> Result<(), Fail> {
    let alloc = rt.alloc();
    let start = b"POST /graphql HTTP/1.1\nContent-Length: 0\nConnection: close\n";
    for (filler, end, wanted) in [
        (62usize, 0usize, 0u16),
        (63, 0, 431),
        (0, 16_384, 0),
        (0, 16_385, 431),
    ] {
        let mut head = Vec::from_slice(alloc, start)?;
        for _ in 0..filler {
            head.extend_from_slice(b"a:\n")?;
        }
        if end > 0 {
            head.extend_from_slice(b"a:")?;
            let count = end.saturating_sub(head.len()).saturating_sub(2);
            for _ in 0..count {
                head.push(b'x')?;
            }
            head.push(b'\n')?;
        }
        head.push(b'\n')?;
        let seen = serve(alloc, head.as_slice(), 1000, &[], &[])?;
        assert_eq!(rt; short(seen.end).1, wanted);
    }
    Ok(())
}

#[test]
fn pieces_fronts_and_faults(rt: HostRuntime) -> Result<(), Fail> {
    let alloc = rt.alloc();
    let input = stream(alloc, TWO)?;
    let whole = serve(alloc, input.as_slice(), 1000, &[], &[])?;
    let wanted = stream(
        alloc,
        "HTTP/1.1 200 OK|Content-Type: application/json|Content-Length: 4|Data-Version: 1||ab|HTTP/1.1 100 Continue||HTTP/1.1 200 OK|Content-Type: application/json|Content-Length: 3|Data-Version: 2|Connection: close||xyz",
    )?;
    assert_eq!(rt; whole.bytes.as_slice(), wanted.as_slice());
    for size in [1, 2] {
        let seen = serve(alloc, input.as_slice(), size, &[], &[])?;
        assert_eq!(rt; seen.bytes.as_slice(), wanted.as_slice());
        assert_eq!(rt; short(seen.end).0, 'C');
    }
    for k in 1..input.len() {
        let cut = serve(alloc, input.get(..k).unwrap_or(b""), 1000, &[], &[])?;
        assert!(rt; wanted.as_slice().starts_with(cut.bytes.as_slice()));
    }
    for k in 1..30u64 {
        let unread = serve(alloc, input.as_slice(), 7, &[k], &[])?;
        assert!(rt; wanted.as_slice().starts_with(unread.bytes.as_slice()));
        assert!(rt; short(unread.end).0 == 'r' || unread.bytes.len() == wanted.len());
    }
    for k in 1..5u64 {
        let unwritten = serve(alloc, input.as_slice(), 1000, &[], &[k])?;
        assert!(rt; wanted.as_slice().starts_with(unwritten.bytes.as_slice()));
        assert_eq!(rt; short(unwritten.end).0, if k < 4 { 'w' } else { 'C' });
    }
    Ok(())
}

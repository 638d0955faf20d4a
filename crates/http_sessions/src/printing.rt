//! Replies as bytes.

ghost use Rattle.std.specs.Prelude.{◌≡◌, ◌≤◌, ◌+◌, ◌++◌, length, decimal, vec_len};
ghost use Rattle.std.specs.Vec.{vec_capacity};
ghost use Rattle.http_sessions.specs.ReplyText as spec;

/// How many bytes the head of a reply has at most.
pub const MOST_REPLY_HEAD: usize = 512;

/// Appends bytes for which there is room.
pub fn put(out: &mut Vec<u8>, bytes: &[u8])
    requires { vec_len out.old + length bytes.now ≤ vec_capacity out.old }
    ensures items { out.new.items ≡ out.old.items ++ bytes.now }
    ensures len { vec_len out.new ≡ vec_len out.old + length bytes.now }
    ensures room { vec_capacity out.old ≤ vec_capacity out.new }
{
    if out.extend_from_slice(bytes).is_err() {
        unreachable!();
    }
}

fn put_number(out: &mut Vec<u8>, number: u64)
    requires { vec_len out.old + 40 ≤ vec_capacity out.old }
    ensures items { out.new.items ≡ out.old.items ++ decimal number }
    ensures len { vec_len out.new ≤ vec_len out.old + 40 }
    ensures room { vec_capacity out.old ≤ vec_capacity out.new }
{
    let mut digits = itoa::Buffer::new();
    put(out, digits.format(number).as_bytes());
}

fn put_if(out: &mut Vec<u8>, so: bool, bytes: &[u8])
    requires { vec_len out.old + length bytes.now ≤ vec_capacity out.old }
    ensures items { out.new.items ≡ out.old.items ++ spec.if_so so bytes.now }
    ensures len { vec_len out.new ≤ vec_len out.old + length bytes.now }
    ensures room { vec_capacity out.old ≤ vec_capacity out.new }
{
    if so {
        put(out, bytes);
    }
}

/// A status with its reason.
fn status_text(status: u16) -> &'static [u8]
    ensures text { result.now ≡ spec.status_text status }
    ensures short { length result.now ≤ 40 }
{
    if status == 200 {
        return b"200 OK";
    }
    if status == 400 {
        return b"400 Bad Request";
    }
    if status == 404 {
        return b"404 Not Found";
    }
    if status == 405 {
        return b"405 Method Not Allowed";
    }
    if status == 411 {
        return b"411 Length Required";
    }
    if status == 413 {
        return b"413 Content Too Large";
    }
    if status == 431 {
        return b"431 Request Header Fields Too Large";
    }
    if status == 500 {
        return b"500 Internal Server Error";
    }
    if status == 501 {
        return b"501 Not Implemented";
    }
    b"503 Service Unavailable"
}

/// Appends the head of a reply with a body of a size, for which there is room.
pub fn put_head(out: &mut Vec<u8>, closes: bool, status: u16, front: u64, size: u64)
    requires { vec_len out.old + 512 ≤ vec_capacity out.old }
    ensures items { out.new.items ≡ out.old.items ++ spec.reply_head closes status front size }
    ensures len { vec_len out.new ≤ vec_len out.old + 512 }
    ensures room { vec_capacity out.old ≤ vec_capacity out.new }
{
    put(out, b"HTTP/1.1 ");
    put(out, status_text(status));
    put(
        out,
        b"\r\nContent-Type: application/json\r\nContent-Length: ",
    );
    put_number(out, size);
    put(out, b"\r\nData-Version: ");
    put_number(out, front);
    put(out, b"\r\n");
    put_if(out, status == 405, b"Allow: POST\r\n");
    put_if(out, closes, b"Connection: close\r\n");
    put(out, b"\r\n");
}

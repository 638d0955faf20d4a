use super::*;
use pg_base::{Blob, Memory, Text};
use sqlite_items::Items;
use std::alloc::Global;
use std::fs;
use std::test::Fail;

/// Adds what a read gives, in short, and a semicolon.
fn put_source(shown: &mut Vec<u8>, source: &mut impl Source) -> Result<(), Memory> {
    let mut into = *b"..";
    match source.read(&mut into) {
        Ok(count) => shown.extend_from_slice(into.get(..count).unwrap_or(b"beyond"))?,
        Err(Failed) => {
            shown.extend_from_slice(b"failed")?;
            shown.extend_from_slice(&into)?;
        }
    }
    shown.push(b';')?;
    Ok(())
}

/// Adds what reading a file gives, in short, and a semicolon.
fn put_file(
    shown: &mut Vec<u8>,
    files: &mut impl Files,
    alloc: Global,
    name: &str,
    limit: usize,
) -> Result<(), Memory> {
    match files.read_file(alloc, name, limit) {
        Ok(bytes) => shown.extend_from_slice(bytes.bytes())?,
        Err(FileFault::Failed) => shown.extend_from_slice(b"failed")?,
        Err(FileFault::TooLarge) => shown.extend_from_slice(b"too large")?,
        Err(FileFault::Memory(memory)) => return Err(memory),
    }
    shown.push(b';')?;
    Ok(())
}

/// A file in memory.
fn mem_file(alloc: Global, name: &str, bytes: &[u8]) -> Result<MemFile, Memory> {
    Ok(MemFile {
        name: Text::of(alloc, name)?,
        bytes: Blob::of(Vec::from_slice(alloc, bytes)?),
    })
}

#[test]
fn the_fakes_give_and_take_with_ample_memory(rt: HostRuntime) -> Result<(), Fail> {
    let alloc = rt.alloc();
    let bytes = Blob::of(Vec::from_slice(alloc, b"abc")?);
    let mut source = MemSource::of(bytes, Vec::from_slice(alloc, &[2u64])?);
    let mut shown = Vec::new(alloc);
    for _ in 0..4 {
        put_source(&mut shown, &mut source)?;
    }
    let mut held = Items::new(alloc);
    held.push(mem_file(alloc, "a", b"one")?)?;
    let mut files = MemFiles::of(alloc, held, Vec::from_slice(alloc, &[2u64])?);
    for limit in [3, 3, 2] {
        put_file(&mut shown, &mut files, alloc, "a", limit)?;
    }
    let mut sink = MemSink::of(alloc, Vec::from_slice(alloc, &[1u64])?);
    assert!(rt; sink.write(b"ab").is_err());
    assert!(rt; write_all(&mut sink, shown.as_slice()).is_ok());
    assert_eq!(rt;
        sink.bytes(),
        b"ab;failed..;c;;one;failed;too large;".as_slice()
    );
    Ok(())
}

const FILE: &str = "pg_io_file.txt";

#[test]
fn files_of_the_system_are_written_and_read(rt: HostRuntime) -> Result<(), Fail> {
    let alloc = rt.alloc();
    let mut sink = StdSink::over(fs::create(&rt, FILE)?);
    assert!(rt; write_all(&mut sink, b"a\r\n").is_ok());
    assert!(rt; write_all(&mut sink, b"b\xff").is_ok());
    drop(sink);
    let mut shown = Vec::new(alloc);
    let mut source = StdSource::over(fs::open(&rt, FILE)?);
    for _ in 0..4 {
        put_source(&mut shown, &mut source)?;
    }
    let mut folder = StdSource::over(fs::open(&rt, ".")?);
    put_source(&mut shown, &mut folder)?;
    let mut closed = StdSink::over(fs::open(&rt, FILE)?);
    assert!(rt; write_all(&mut closed, b"c").is_err());
    let mut files = StdFiles::over(alloc, System::of(&rt));
    for limit in [5, usize::MAX, 4] {
        put_file(&mut shown, &mut files, alloc, FILE, limit)?;
    }
    put_file(&mut shown, &mut files, alloc, "pg_io_no_file.txt", 5)?;
    let wanted = b"a\r;\nb;\xff;;failed..;a\r\nb\xff;a\r\nb\xff;too large;failed;";
    assert_eq!(rt; shown.as_slice(), wanted.as_slice());
    fs::remove_file(&rt, FILE)?;
    Ok(())
}

// Inputs read to their end and texts written whole, with ample memory; and that no call is made that
// is not needed.
use jo_io::{Failed, MemorySink, MemorySource, ReadError, Sink, Source, read_all, write_all};
use std::test::Fail;

#[test]
fn a_failed_read_loses_what_was_read(rt: HostRuntime) -> Result<(), Fail> {
    let alloc = rt.alloc();
    let bytes = Vec::from_slice(alloc, b"abcdef")?;
    let mut source = MemorySource::new(bytes, 1, vec![in alloc; 4]?);
    let front = read_all(alloc, 2, &mut source)?;
    assert_eq!(rt; front.as_slice(), b"ab".as_slice());
    let failed = read_all(alloc, 9, &mut source).err();
    assert_eq!(rt; failed, Some(ReadError::Failed));
    let rest = read_all(alloc, 9, &mut source)?;
    assert_eq!(rt; rest.as_slice(), b"def".as_slice());
    Ok(())
}

#[test]
fn a_failed_write_leaves_a_prefix(rt: HostRuntime) -> Result<(), Fail> {
    let alloc = rt.alloc();
    let held = Vec::from_slice(alloc, b">")?;
    let mut sink = MemorySink::new(held, 1, vec![in alloc; 3]?);
    assert_eq!(rt; write_all(&mut sink, b"xyz"), Err(Failed));
    assert_eq!(rt; sink.bytes(), b">xy".as_slice());
    write_all(&mut sink, b"z")?;
    assert_eq!(rt; sink.bytes(), b">xyz".as_slice());
    Ok(())
}

#[test]
fn no_read_comes_after_the_end_or_the_limit(rt: HostRuntime) -> Result<(), Fail> {
    let alloc = rt.alloc();
    // An input, a limit, which call is the first that is not needed, and what is read.
    let rows: [(&[u8], usize, u64, &[u8]); 4] = [
        (b"abc", 9, 5, b"abc"),
        (b"abc", 2, 3, b"ab"),
        (b"abc", 0, 1, b""),
        (b"", 9, 2, b""),
    ];
    for (input, limit, not_needed, expected) in rows {
        let mut source = MemorySource::new(input.to_vec(alloc)?, 1, vec![in alloc; not_needed]?);
        let bytes = read_all(alloc, limit, &mut source)?;
        assert_eq!(rt; bytes.as_slice(), expected, "{input:?} up to {limit}");
        assert_eq!(rt;
            source.read(&mut [0]),
            Err(Failed),
            "{input:?} up to {limit}"
        );
    }
    Ok(())
}

#[test]
fn no_empty_buffer_is_written(rt: HostRuntime) -> Result<(), Fail> {
    let alloc = rt.alloc();
    for (text, not_needed) in [(b"xyz".as_slice(), 4), (b"".as_slice(), 1)] {
        let mut sink = MemorySink::new(Vec::new(alloc), 1, vec![in alloc; not_needed]?);
        write_all(&mut sink, text)?;
        assert_eq!(rt; sink.bytes(), text, "{text:?}");
        assert_eq!(rt; sink.write(b"z"), Err(Failed), "{text:?}");
    }
    Ok(())
}

use mail_io::{
    Bytes, InputFault, Memory, MemorySink, MemorySource, ReaderSource, WriterSink, read_to_end,
    write_whole,
};
use std::alloc::Global;
use std::test::Fail;

fn bytes_of(alloc: Global, count: usize) -> Result<Vec<u8>, Memory> {
    let mut bytes = Vec::new(alloc);
    for _ in 0..count {
        bytes.push(b'x')?;
    }
    Ok(bytes)
}

/// Reads a source whose calls of these numbers fail, up to a limit.
fn read_of(
    alloc: Global,
    bytes: &[u8],
    failing: &[u64],
    limit: u32,
) -> Result<Vec<u8>, InputFault> {
    let failing = Vec::from_slice(alloc, failing)?;
    let mut source = MemorySource::new(Bytes::from_slice(alloc, bytes)?, failing);
    read_to_end(alloc, &mut source, limit as usize)
}

/// The outcome of writing a piece, and what a sink of this room then holds.
fn write_of(
    alloc: Global,
    room: usize,
    failing: &[u64],
    piece: &[u8],
) -> Result<(bool, Vec<u8>), Memory> {
    let mut sink = MemorySink::new(alloc, room, Vec::from_slice(alloc, failing)?)?;
    let first = write_whole(&mut sink, b"<").is_ok();
    let second = write_whole(&mut sink, piece).is_ok();
    Ok((first && second, Vec::from_slice(alloc, sink.taken())?))
}

#[test]
fn reads_a_source_to_its_end(rt: HostRuntime) -> Result<(), Fail> {
    let alloc = rt.alloc();
    let long = bytes_of(alloc, 150_000)?;
    for (failing, limit, want) in [
        ([0], 150_000, Ok(150_000)),
        ([0], 149_999, Err(InputFault::Long)),
        ([0], 0, Err(InputFault::Long)),
        ([1], 150_000, Err(InputFault::Failed)),
        ([2], 150_000, Err(InputFault::Failed)),
        ([4], 150_000, Err(InputFault::Failed)),
        ([5], 150_000, Ok(150_000)),
    ] {
        let got = read_of(alloc, &long, &failing, limit).map(|bytes| bytes.len());
        assert_eq!(rt; got, want, "failing {failing:?}, limit {limit}");
    }
    Ok(())
}

#[test]
fn writes_into_the_room_of_a_sink(rt: HostRuntime) -> Result<(), Fail> {
    let alloc = rt.alloc();
    for (room, failing, whole, taken) in [
        (4, [0], true, "<abc"),
        (3, [0], false, "<"),
        (4, [1], false, "abc"),
        (4, [2], false, "<"),
    ] {
        let (ok, got) = write_of(alloc, room, &failing, b"abc")?;
        assert_eq!(rt; ok, whole, "room {room}, failing {failing:?}");
        assert_eq!(rt;
            got.as_slice(),
            taken.as_bytes(),
            "room {room}, failing {failing:?}"
        );
    }
    Ok(())
}

#[test]
fn adapts_readers_and_writers(rt: HostRuntime) -> Result<(), Fail> {
    let alloc = rt.alloc();
    let mut source = ReaderSource::new(b"a message".as_slice());
    let bytes = read_to_end(alloc, &mut source, 9).ok().ok_or("read whole")?;
    assert_eq!(rt; bytes.as_slice(), b"a message".as_slice());

    let mut kept = Vec::new(alloc);
    {
        let mut sink = WriterSink::new(&mut kept);
        assert!(rt; write_whole(&mut sink, b"a ").is_ok());
        assert!(rt; write_whole(&mut sink, b"").is_ok());
        assert!(rt; write_whole(&mut sink, b"page").is_ok());
    }
    assert_eq!(rt; kept.as_slice(), b"a page".as_slice());

    let mut room = [0u8; 4];
    {
        let mut sink = WriterSink::new(room.as_mut_slice());
        assert!(rt; write_whole(&mut sink, b"page").is_ok());
        assert!(rt;
            write_whole(&mut sink, b"more").is_err(),
            "a writer that takes nothing is at a fault"
        );
    }
    assert_eq!(rt; room.as_slice(), b"page".as_slice());
    Ok(())
}

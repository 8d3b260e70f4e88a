use comch_io::{
    Bytes, CountSink, Listed, MemSink, MemSource, Source, StdSink, StdSource, SureSource, read_all,
    write_all,
};
use std::alloc::{AllocError, Global};
use std::io::Cursor;
use std::test::Fail;

const WHOLE: &str = "Ok(Bytes { items: [97, 98] })";

// What is read of a source up to a limit.
fn read<S: Source>(alloc: Global, source: &mut S, limit: u64) -> Result<String, AllocError> {
    let bytes = read_all(alloc, source, limit);
    format!(in alloc; "{bytes:?}")
}

#[test]
fn sources_are_read_to_their_end(rt: HostRuntime) -> Result<(), Fail> {
    let alloc = rt.alloc();
    let cases: [(&[u8], usize, &[u64], u64, &str, &[u8]); 8] = [
        (b"ab", 1, &[], 2, WHOLE, b""),
        (b"ab", 8, &[], 2, WHOLE, b""),
        (b"ab", 8, &[], 1, "Err(TooLong)", b""),
        (b"abc", 8, &[], 1, "Err(TooLong)", b"c"),
        (b"ab", 2, &[1], 2, "Err(Fault)", b""),
        (b"ab", 1, &[0], 2, "Err(Fault)", b"a"),
        (b"ab", 1, &[1], 2, "Err(Fault)", b"b"),
        (b"ab", 1, &[2], 2, "Err(Fault)", b""),
    ];
    for (input, step, failing, limit, want, rest) in cases {
        let mut source = MemSource::in_steps(alloc, input, step, failing)?;
        assert_eq!(rt; read(alloc, &mut source, limit)?.as_str(), want);
        assert_eq!(rt; source.faults(), failing.len() as u64);
        let mut piece = [0u8; 4];
        let count = source.read(&mut piece).expect(&rt, "a read");
        assert_eq!(rt; &piece[..count], rest);
    }
    let mut sure = SureSource::new(alloc, b"ab")?;
    assert_eq!(rt; read(alloc, &mut sure, 2)?.as_str(), WHOLE);
    let mut outer = StdSource::new(Cursor::new(b"ab".as_slice()));
    assert_eq!(rt; read(alloc, &mut outer, 2)?.as_str(), WHOLE);
    Ok(())
}

#[test]
fn sinks_take_a_text_or_a_front_of_it(rt: HostRuntime) -> Result<(), Fail> {
    let alloc = rt.alloc();
    let cases: [(usize, usize, &[u64], bool, &[u8], u64); 5] = [
        (8, 8, &[], true, b"abc", 0),
        (8, 1, &[], true, b"abc", 0),
        (2, 8, &[], false, b"ab", 1),
        (8, 8, &[0], false, b"", 1),
        (8, 1, &[2], false, b"ab", 1),
    ];
    for (room, step, failing, is_whole, written, faults) in cases {
        let mut sink = MemSink::in_steps(alloc, room, step, failing)?;
        assert_eq!(rt; write_all(&mut sink, b"abc").is_ok(), is_whole);
        assert_eq!(rt; sink.text(), written);
        assert_eq!(rt; sink.faults(), faults);
    }
    Ok(())
}

#[test]
fn other_sinks_take_a_text(rt: HostRuntime) {
    let mut count = CountSink::new();
    assert!(rt; write_all(&mut count, b"abc").is_ok());
    assert_eq!(rt; count.bytes(), 3);
    let mut room = [0u8; 4];
    let mut outer = StdSink::new(room.as_mut_slice());
    assert!(rt; write_all(&mut outer, b"abc").is_ok());
    assert!(rt; write_all(&mut outer, b"de").is_err());
    assert_eq!(rt; room.as_slice(), b"abcd".as_slice());
}

#[test]
fn lists_grow_at_their_end(rt: HostRuntime) -> Result<(), Fail> {
    let alloc = rt.alloc();
    let mut list = Listed::new(alloc);
    assert!(rt; list.push(7u32).is_ok());
    assert_eq!(rt; list.as_slice(), [7].as_slice());
    assert_eq!(rt; list.len(), 1);
    assert!(rt; list.get(0) == Some(&7));
    let mut bytes = Bytes::new(alloc);
    bytes.push(97)?;
    bytes.extend(b"bc")?;
    assert_eq!(rt; bytes.as_slice(), b"abc".as_slice());
    Ok(())
}

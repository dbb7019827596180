use rf_base::{Bytes, Items, Memory};
use rf_outside::{
    CountList, Failed, MemSink, MemSource, ReadAllFault, Sink, Source, StdSink, StdSource, Stop,
    SureSink, SureSource, Text, read_all, write_all,
};
use std::alloc::Global;
use std::io::{Cursor, ErrorKind, Read, Write};
use std::test::Fail;

fn bytes_of(alloc: Global, bytes: &[u8]) -> Result<Bytes, Memory> {
    Ok(Items::from_vec(Vec::from_slice(alloc, bytes)?))
}

fn counts(alloc: Global, counts: &[u64]) -> Result<CountList, Memory> {
    Ok(Items::from_vec(Vec::from_slice(alloc, counts)?))
}

#[test]
fn a_source_is_read_to_its_end_however_it_cuts(rt: HostRuntime) -> Result<(), Fail> {
    let text = b"a packet network";
    for cut in [0, 1, 5, 100] {
        let cuts = counts(rt.alloc(), &[cut; 20])?;
        let mut source = MemSource::new(bytes_of(rt.alloc(), text)?, cuts, Items::new(rt.alloc()));
        let read = read_all(rt.alloc(), &mut source, 16);
        assert!(rt; read == Ok(bytes_of(rt.alloc(), text)?), "cut {cut}");
    }
    Ok(())
}

#[test]
fn a_listed_read_fails_and_takes_nothing(rt: HostRuntime) -> Result<(), Fail> {
    let mut source = MemSource::new(
        bytes_of(rt.alloc(), b"abc")?,
        counts(rt.alloc(), &[2])?,
        counts(rt.alloc(), &[1])?,
    );
    let mut buf = [0u8; 8];
    assert_eq!(rt; source.read(&mut buf), Ok(2));
    assert_eq!(rt; source.read(&mut buf), Err(Failed));
    assert_eq!(rt; source.read(&mut buf), Ok(1));
    assert_eq!(rt; buf[0], b'c');
    assert_eq!(rt; source.read(&mut buf), Ok(0));
    Ok(())
}

#[test]
fn more_than_the_limit_is_too_long(rt: HostRuntime) -> Result<(), Fail> {
    let mut source = SureSource::new(bytes_of(rt.alloc(), b"abcd")?);
    assert!(rt; read_all(rt.alloc(), &mut source, 3) == Err(ReadAllFault::TooLong));
    let mut failing = MemSource::new(
        bytes_of(rt.alloc(), b"abcd")?,
        Items::new(rt.alloc()),
        counts(rt.alloc(), &[0])?,
    );
    assert!(rt; read_all(rt.alloc(), &mut failing, 3) == Err(ReadAllFault::Failed));
    Ok(())
}

#[test]
fn a_sink_keeps_its_room_and_takes_the_rest(rt: HostRuntime) -> Result<(), Fail> {
    let mut sure = SureSink::new(rt.alloc(), 4)?;
    assert_eq!(rt; write_all(&mut sure, b"abcdef"), Ok(()));
    assert_eq!(rt; sure.kept(), b"abcd".as_slice());
    let mut sink = MemSink::new(
        rt.alloc(),
        counts(rt.alloc(), &[3, 1])?,
        Items::new(rt.alloc()),
        6,
    )?;
    assert_eq!(rt; write_all(&mut sink, b"abcdef"), Ok(()));
    assert_eq!(rt; sink.kept(), b"abcdef".as_slice());
    Ok(())
}

#[test]
fn a_failing_write_leaves_a_prefix(rt: HostRuntime) -> Result<(), Fail> {
    let mut sink = MemSink::new(
        rt.alloc(),
        counts(rt.alloc(), &[5])?,
        counts(rt.alloc(), &[1])?,
        64,
    )?;
    assert_eq!(rt; write_all(&mut sink, b"0 net nodes"), Err(Failed));
    assert_eq!(rt; sink.kept(), b"0 net".as_slice());
    Ok(())
}

#[test]
fn readers_and_writers_of_std_are_adapted(rt: HostRuntime) -> Result<(), Fail> {
    let text = [1u8, 2, 3];
    let mut source = StdSource::new(Cursor::new(text.as_slice()));
    let read = read_all(rt.alloc(), &mut source, 3);
    assert!(rt; read == Ok(bytes_of(rt.alloc(), &text)?));
    let mut kept = Vec::new(rt.alloc());
    let mut sink = StdSink::new(&mut kept);
    assert_eq!(rt; sink.write(&text), Ok(3));
    assert_eq!(rt; write_all(&mut sink, &[4, 5]), Ok(()));
    assert_eq!(rt; kept.as_slice(), [1u8, 2, 3, 4, 5].as_slice());
    Ok(())
}

#[test]
fn a_writer_that_takes_nothing_fails(rt: HostRuntime) -> Result<(), Fail> {
    let mut room = [0u8; 2];
    let mut sink = StdSink::new(room.as_mut_slice());
    assert_eq!(rt; sink.write(b"abc"), Ok(2));
    assert_eq!(rt; sink.write(b"c"), Err(Failed));
    assert_eq!(rt; sink.write(b""), Ok(0));
    assert_eq!(rt; room, *b"ab");
    Ok(())
}

/// A reader and a writer that always answer an error.
#[derive(Drop)]
struct Broken;

impl Read for Broken {
    fn read(&mut self, _buf: &mut [u8]) -> std::io::Result<usize> {
        Err(ErrorKind::BrokenPipe.into())
    }
}

impl Write for Broken {
    fn write(&mut self, _buf: &[u8]) -> std::io::Result<usize> {
        Err(ErrorKind::BrokenPipe.into())
    }

    fn flush(&mut self) -> std::io::Result<()> {
        Ok(())
    }
}

#[test]
fn an_error_of_std_is_a_failure(rt: HostRuntime) -> Result<(), Fail> {
    assert_eq!(rt; StdSource::new(Broken).read(&mut [0u8; 4]), Err(Failed));
    assert_eq!(rt; StdSink::new(Broken).write(b"abc"), Err(Failed));
    Ok(())
}

#[test]
fn text_is_put_together_and_emptied(rt: HostRuntime) -> Result<(), Fail> {
    let mut text = Text::new(rt.alloc());
    text.put_pair(b"cap ", 4096, b"/", u64::MAX)?;
    text.put(b"\n")?;
    assert_eq!(rt;
        text.as_bytes(),
        b"cap 4096/18446744073709551615\n".as_slice()
    );
    text.clear();
    text.put_field(b"at ", 0)?;
    assert_eq!(rt; text.as_bytes(), b"at 0".as_slice());
    Ok(())
}

#[test]
fn faults_say_themselves(rt: HostRuntime) -> Result<(), Fail> {
    let stops = format!(in rt.alloc(); "{}, {}, {}", Stop::Read, Stop::Write, Stop::Memory)?;
    assert_eq!(rt;
        stops.as_str(),
        "a read failed, a write failed, out of memory"
    );
    let long = ReadAllFault::TooLong;
    let faults = format!(in rt.alloc(); "{long}; {Failed}")?;
    assert_eq!(rt;
        faults.as_str(),
        "more bytes came than the limit allows; a read or a write failed"
    );
    Ok(())
}

// Calls with ample memory, and fakes that fail as told.

use std::io;
use std::io::{Read, Write};
use std::test::Fail;
use vdm_kinds::Halt;
use vdm_outside::{
    Failed, MemSink, MemSource, Sink, Source, StdSink, StdSource, SureSink, SureSource,
    read_limited, write_whole,
};

const TEXT: &[u8] = b"class A end A";

// Gives one byte, and then fails at each call.
#[derive(Drop)]
struct Breaking {
    given: bool,
}

impl Read for Breaking {
    fn read(&mut self, buf: &mut [u8]) -> io::Result<usize> {
        if self.given || buf.is_empty() {
            return Err(io::Error::from(io::ErrorKind::Interrupted));
        }
        self.given = true;
        buf[0] = b'x';
        Ok(1)
    }
}

// Takes one byte, and then nothing.
#[derive(Drop)]
struct Stuck {
    taken: bool,
}

impl Write for Stuck {
    fn write(&mut self, piece: &[u8]) -> io::Result<usize> {
        let count = if self.taken { 0 } else { piece.len().min(1) };
        self.taken = true;
        Ok(count)
    }

    fn flush(&mut self) -> io::Result<()> {
        Ok(())
    }
}

#[test]
fn a_reader_is_read_to_its_end_or_past_the_limit(rt: HostRuntime) -> Result<(), Fail> {
    for (limit, want) in [
        (100, TEXT),
        (13, TEXT),
        (12, TEXT),
        (4, b"class"),
        (0, b"c"),
    ] {
        let mut source = StdSource::new(TEXT);
        let bytes = read_limited(rt.alloc(), &mut source, limit)?;
        assert_eq!(rt; bytes.as_slice(), want, "at {limit}");
    }
    Ok(())
}

#[test]
fn a_reader_that_breaks_is_a_fault(rt: HostRuntime) -> Result<(), Fail> {
    let mut source = StdSource::new(Breaking { given: false });
    let mut buf = [0; 4];
    assert_eq!(rt; source.read(&mut buf), Ok(1));
    assert_eq!(rt; buf[0], b'x');
    assert_eq!(rt; source.read(&mut buf), Err(Failed));
    let mut source = StdSource::new(Breaking { given: false });
    let halted = read_limited(rt.alloc(), &mut source, 10).err();
    assert_eq!(rt; halted, Some(Halt::Of(Failed)));
    Ok(())
}

#[test]
fn a_writer_gets_all(rt: HostRuntime) -> Result<(), Fail> {
    let mut written = Vec::new(rt.alloc());
    let mut sink = StdSink::new(&mut written);
    write_whole(&mut sink, TEXT)?;
    write_whole(&mut sink, b"\n")?;
    assert_eq!(rt; written.as_slice(), b"class A end A\n".as_slice());
    Ok(())
}

#[test]
fn a_writer_that_takes_nothing_is_a_fault(rt: HostRuntime) {
    let mut sink = StdSink::new(Stuck { taken: false });
    assert_eq!(rt; sink.write(b"ab"), Ok(1));
    assert_eq!(rt; sink.write(b"b"), Err(Failed));
    assert_eq!(rt; sink.write(b""), Ok(0));
    assert_eq!(rt; write_whole(&mut sink, b"b"), Err(Failed));
}

#[test]
fn a_source_of_one_byte_a_read_is_read_whole(rt: HostRuntime) -> Result<(), Fail> {
    let alloc = rt.alloc();
    let mut source = MemSource::new(TEXT.to_vec(alloc)?, 1, Vec::new(alloc));
    let mut buf = [0; 3];
    assert_eq!(rt; source.read(&mut buf), Ok(1));
    assert_eq!(rt; buf, [b'c', 0, 0]);
    let rest = read_limited(alloc, &mut source, 100)?;
    assert_eq!(rt; rest.as_slice(), b"lass A end A".as_slice());
    assert_eq!(rt; source.read(&mut buf), Ok(0));
    Ok(())
}

#[test]
fn a_source_fails_at_its_numbers(rt: HostRuntime) -> Result<(), Fail> {
    let alloc = rt.alloc();
    let mut source = MemSource::new(TEXT.to_vec(alloc)?, 4, [2, 4].to_vec(alloc)?);
    let mut buf = [0; 9];
    for want in [Ok(4), Err(Failed), Ok(4), Err(Failed), Ok(4), Ok(1), Ok(0)] {
        assert_eq!(rt; source.read(&mut buf), want);
    }
    let mut source = MemSource::new(TEXT.to_vec(alloc)?, 4, [3].to_vec(alloc)?);
    let halted = read_limited(alloc, &mut source, 100).err();
    assert_eq!(rt; halted, Some(Halt::Of(Failed)));
    Ok(())
}

#[test]
fn a_sink_that_fails_holds_what_it_took(rt: HostRuntime) -> Result<(), Fail> {
    let alloc = rt.alloc();
    let mut sink = MemSink::new([0; 20].to_vec(alloc)?, 4, [2].to_vec(alloc)?);
    assert_eq!(rt; write_whole(&mut sink, TEXT), Err(Failed));
    assert_eq!(rt; sink.held(), b"clas".as_slice());
    assert_eq!(rt; write_whole(&mut sink, b"hes"), Ok(()));
    assert_eq!(rt; sink.held(), b"clashes".as_slice());
    Ok(())
}

#[test]
fn a_full_sink_fails(rt: HostRuntime) -> Result<(), Fail> {
    let alloc = rt.alloc();
    let mut sink = MemSink::new([0; 6].to_vec(alloc)?, 4, Vec::new(alloc));
    assert_eq!(rt; write_whole(&mut sink, TEXT), Err(Failed));
    assert_eq!(rt; sink.held(), b"class ".as_slice());
    assert_eq!(rt; sink.write(b""), Ok(0));
    assert_eq!(rt; sink.write(b"A"), Err(Failed));
    Ok(())
}

#[test]
fn the_sure_ones_never_fail(rt: HostRuntime) -> Result<(), Fail> {
    let alloc = rt.alloc();
    let mut source = SureSource::new(TEXT.to_vec(alloc)?);
    let mut buf = [0; 7];
    for want in [Ok(7), Ok(6), Ok(0)] {
        assert_eq!(rt; source.read(&mut buf), want);
    }
    let mut sink = SureSink::new();
    assert_eq!(rt; sink.write(TEXT), Ok(13));
    assert_eq!(rt; write_whole(&mut sink, TEXT), Ok(()));
    Ok(())
}

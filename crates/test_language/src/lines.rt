ghost use Rattle.std.specs.Prelude.{◌≤◌};

use alb_io::{
    Desk, Failed, FileDesk, LineReader, LineStep, MemDesk, MemFile, MemSink, MemSource, OpenError,
    Sink, Source, Status, StdSink, StdSource, WriteFault, put_all,
};
use std::alloc::Global;
use std::io::{self, Read};
use std::marker::Send;
use std::test::Fail;

/// Bytes, the limit of the reader, the lines with `|` after each, and the last step.
const INPUTS: [(&[u8], u64, &[u8], LineStep); 7] = [
    (b"abc\n", 4, b"abc|", LineStep::InputLimit),
    (b"abc\n", 5, b"abc|", LineStep::End),
    (b"abc", 3, b"", LineStep::InputLimit),
    (b"abc", 4, b"abc|", LineStep::End),
    (b"", 0, b"", LineStep::InputLimit),
    (b"\n", 9, b"|", LineStep::End),
    (b"a\r\n\nb", 9, b"a\r||b|", LineStep::End),
];

// Whether these are the lines and the last step. Each byte is taken by itself.
fn reads(
    alloc: Global,
    bytes: &[u8],
    failing: Vec<u64>,
    limit: u64,
    wanted: &[u8],
    last: LineStep,
) -> Result<bool, Fail> {
    let mut source = MemSource::new(bytes.to_vec(alloc)?, 1, failing);
    let mut reader = LineReader::open(alloc, limit)?;
    let mut lines = Vec::new(alloc);
    for _ in 0..100 {
        if reader.ended() {
            break;
        }
        match reader.next_line(&mut source) {
            LineStep::Line => {
                lines.extend_from_slice(reader.line())?;
                lines.push(b'|')?;
            }
            step => return Ok(step == last && lines.as_slice() == wanted),
        }
    }
    Ok(false)
}

#[test]
fn lines_of_short_inputs(rt: HostRuntime) -> Result<(), Fail> {
    let alloc = rt.alloc();
    for (bytes, limit, wanted, last) in &INPUTS {
        assert!(rt; reads(alloc, bytes, Vec::new(alloc), *limit, wanted, *last)?);
    }
    let failing = vec![in alloc; 7u64]?;
    assert!(rt;
        reads(
            alloc,
            b"ab\ncd\nef",
            failing,
            9,
            b"ab|cd|",
            LineStep::ReadFault
        )?
    );
    Ok(())
}

#[test]
fn listed_calls_fail(rt: HostRuntime) -> Result<(), Fail> {
    let alloc = rt.alloc();
    let mut source = MemSource::new(b"abcde".to_vec(alloc)?, 3, vec![in alloc; 1u64]?);
    let mut buffer = [0; 8];
    for wanted in [Ok(3), Err(Failed), Ok(2), Ok(0)] {
        assert!(rt; source.take(&mut buffer) == wanted);
    }
    let mut sink = MemSink::new(alloc, 2, vec![in alloc; 1u64]?);
    assert!(rt; put_all(&mut sink, b"abcd") == Err(WriteFault));
    assert!(rt; put_all(&mut sink, b"efg") == Ok(()));
    assert!(rt; sink.bytes() == b"abefg".as_slice());
    Ok(())
}

#[derive(Drop)]
struct Broken;

impl Read for Broken {
    fn read(&mut self, _buf: &mut [u8]) -> io::Result<usize> {
        Err(io::Error::from(io::ErrorKind::Other))
    }
}

#[test]
fn readers_and_writers_of_std(rt: HostRuntime) -> Result<(), Fail> {
    let mut source = StdSource::new(b"abc".as_slice());
    let mut buffer = [0; 2];
    for wanted in [2, 1, 0] {
        assert!(rt; source.take(&mut buffer) == Ok(wanted));
    }
    assert!(rt; StdSource::new(Broken).take(&mut buffer) == Err(Failed));
    let mut room = [0; 2];
    let mut sink = StdSink::new(room.as_mut_slice());
    for wanted in [Ok(2), Err(Failed)] {
        assert!(rt; sink.put(b"abc") == wanted);
    }
    Ok(())
}

// A desk with the file `in`, whose second open or create fails.
fn desk(alloc: Global) -> Result<MemDesk, Fail> {
    let file = MemFile {
        name: String::from_str(alloc, "in")?,
        bytes: b"abc".to_vec(alloc)?,
        piece: 2,
        failing: vec![in alloc; 1u64]?,
    };
    Ok(MemDesk::new(vec![in alloc; file]?, vec![in alloc; 1u64]?))
}

#[test]
fn a_desk_in_memory(rt: HostRuntime) -> Result<(), Fail> {
    let alloc = rt.alloc();
    let mut desk = desk(alloc)?;
    let mut buffer = [0; 8];
    let mut source = desk.open(alloc, "in").ok().ok_or("listed")?;
    for wanted in [Ok(2), Err(Failed), Ok(1), Ok(0)] {
        assert!(rt; source.take(&mut buffer) == wanted);
    }
    assert!(rt; matches!(desk.open(alloc, "in"), Err(OpenError::Failed)));
    assert!(rt; matches!(desk.open(alloc, "out"), Err(OpenError::Failed)));
    let mut sink = desk.create(alloc, "out").ok().ok_or("created")?;
    assert!(rt; sink.put(b"abc") == Ok(3));
    Ok(())
}

#[test]
fn a_desk_of_files(rt: HostRuntime) -> Result<(), Fail> {
    let alloc = rt.alloc();
    let path = std::env::temp_dir(&rt)?.join(alloc, "alb_io_desk_of_files")?;
    let mut desk = FileDesk::new(rt.clone()?);
    let mut sink = desk.create(alloc, path.as_str()).ok().ok_or("created")?;
    assert!(rt; put_all(&mut sink, b"abc") == Ok(()));
    let mut source = desk.open(alloc, path.as_str()).ok().ok_or("opened")?;
    let mut buffer = [0; 8];
    assert!(rt; source.take(&mut buffer) == Ok(3));
    assert!(rt; &buffer[..3] == b"abc".as_slice());
    std::fs::remove_file(&rt, path.as_str())?;
    assert!(rt; matches!(desk.open(alloc, path.as_str()), Err(OpenError::Failed)));
    Ok(())
}

fn may_cross_threads<T: Send>() {}

#[test]
fn values_cross_threads() {
    may_cross_threads::<LineReader>();
    may_cross_threads::<MemDesk>();
    may_cross_threads::<Status>();
}

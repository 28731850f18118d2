//! What no clause says of the ends: that calls succeed, and what std's readers and writers give and take.
ghost use Rattle.std.specs.Prelude.{◌≡◌, ◌<◌, ◌≤◌, Some, Ok, [], IfOk, IsErrOf, length};

use hsvi_io::{
    Failed, MemSink, MemSource, ReadEnd, StdSink, StdSource, SureSink, SureSource, read_all,
    write_all,
};
use std::alloc::Global;
use std::io;
use std::io::{ErrorKind, Read, Write};
use std::test::Fail;

/// Over a source that never fails nothing but the limit and want of memory is refused.
fn read_surely(alloc: Global, bytes: &[u8], limit: usize) -> Result<Vec<u8>, ReadEnd>
    ensures no_fault { ¬ (IsErrOf result ReadEnd.Fault) }
    ensures too_long { IsErrOf result ReadEnd.TooLong → limit < length bytes.now }
    ensures whole { IfOk result (λ read. read.items ≡ bytes.now) }
{
    read_all(alloc, &mut SureSource::new(bytes), limit)
}

/// A sink that never fails takes all bytes, and tells them where they fit its room.
fn write_surely(sink: &mut SureSink, bytes: &[u8]) -> Result<(), Failed>
    requires new { sink.old.told ≡ Some [] }
    ensures sure { result ≡ Ok tt }
    ensures told { length bytes.now ≤ sink.old.room → sink.new.told ≡ Some bytes.now }
{
    write_all(sink, bytes)
}

#[test]
fn sure_ends_refuse_only_for_the_limit(rt: HostRuntime) -> Result<(), Fail> {
    let alloc = rt.alloc();
    assert_eq!(rt;
        read_surely(alloc, b"pennies", 7)?.as_slice(),
        b"pennies".as_slice()
    );
    assert_eq!(rt; read_surely(alloc, b"pennies", 6), Err(ReadEnd::TooLong));
    let mut sink = SureSink::new(alloc, 7)?;
    assert_eq!(rt; write_surely(&mut sink, b"pennies"), Ok(()));
    assert_eq!(rt; sink.written(), Some(b"pennies".as_slice()));
    assert_eq!(rt; write_all(&mut sink, b"!"), Ok(()));
    assert_eq!(rt; sink.written(), None);
    Ok(())
}

#[test]
fn a_listed_call_is_the_fault_of_the_whole_read(rt: HostRuntime) -> Result<(), Fail> {
    let alloc = rt.alloc();
    let bytes = [7; 50];
    let mut source = MemSource::new(alloc, &bytes, 20, &[1])?;
    assert_eq!(rt; read_all(alloc, &mut source, 50), Err(ReadEnd::Fault));
    assert_eq!(rt; read_all(alloc, &mut source, 50)?.as_slice(), &bytes[..30]);
    Ok(())
}

#[test]
fn a_listed_call_is_the_fault_of_the_whole_write(rt: HostRuntime) -> Result<(), Fail> {
    let alloc = rt.alloc();
    let mut sink = MemSink::new(alloc, 25, 10, &[1])?;
    assert_eq!(rt; write_all(&mut sink, &[7; 25]), Err(Failed));
    assert_eq!(rt; sink.written(), [7; 10].as_slice());
    assert_eq!(rt; write_all(&mut sink, &[8; 15]), Ok(()));
    assert_eq!(rt; sink.written().len(), 25);
    assert_eq!(rt; write_all(&mut sink, b"!"), Err(Failed));
    Ok(())
}

/// The most bytes that a slow reader gives, and a slow writer takes, in one call.
const A_FEW: usize = 3;

/// A reader of a few bytes a call. One call fails in this way.
#[derive(Drop)]
struct SlowReader<'a> {
    rest: &'a [u8],
    calls: u32,
    fails: u32,
    kind: ErrorKind,
}

impl Read for SlowReader<'_> {
    fn read(&mut self, buf: &mut [u8]) -> io::Result<usize> {
        let call = self.calls;
        self.calls = call.saturating_add(1);
        if call == self.fails {
            return Err(self.kind.into());
        }
        let count = self.rest.len().min(buf.len()).min(A_FEW);
        let (front, rest) = self.rest.split_at(count);
        buf[..count].copy_from_slice(front);
        self.rest = rest;
        Ok(count)
    }
}

/// A writer of a few bytes a call. One call fails in this way.
#[derive(Drop)]
struct SlowWriter {
    bytes: Vec<u8>,
    calls: u32,
    fails: u32,
    kind: ErrorKind,
}

impl Write for SlowWriter {
    fn write(&mut self, piece: &[u8]) -> io::Result<usize> {
        let call = self.calls;
        self.calls = call.saturating_add(1);
        if call == self.fails {
            return Err(self.kind.into());
        }
        let count = piece.len().min(A_FEW);
        if self.bytes.extend_from_slice(&piece[..count]).is_err() {
            return Err(ErrorKind::OutOfMemory.into());
        }
        Ok(count)
    }

    fn flush(&mut self) -> io::Result<()> {
        Ok(())
    }
}

/// The number of a call that is never made.
const NEVER: u32 = 1000;

#[test]
fn all_bytes_of_a_slow_reader_and_to_a_slow_writer_are_passed_on(
    rt: HostRuntime,
) -> Result<(), Fail> {
    let alloc = rt.alloc();
    let mut source = StdSource::new(SlowReader {
        rest: b"matching pennies",
        calls: 0,
        fails: NEVER,
        kind: ErrorKind::Other,
    });
    assert_eq!(rt;
        read_all(alloc, &mut source, 16)?.as_slice(),
        b"matching pennies".as_slice()
    );
    let mut writer = SlowWriter {
        bytes: Vec::new(alloc),
        calls: 0,
        fails: NEVER,
        kind: ErrorKind::Other,
    };
    assert_eq!(rt;
        write_all(&mut StdSink::new(&mut writer), b"matching pennies"),
        Ok(())
    );
    assert_eq!(rt; writer.bytes.as_slice(), b"matching pennies".as_slice());
    Ok(())
}

#[test]
fn a_failed_or_interrupted_call_is_a_fault_and_is_not_tried_again(
    rt: HostRuntime,
) -> Result<(), Fail> {
    let alloc = rt.alloc();
    for kind in [ErrorKind::Interrupted, ErrorKind::Other] {
        let mut reader = SlowReader {
            rest: b"matching pennies",
            calls: 0,
            fails: 2,
            kind,
        };
        let read = read_all(alloc, &mut StdSource::new(&mut reader), 16);
        assert_eq!(rt; read, Err(ReadEnd::Fault));
        assert_eq!(rt; (reader.calls, reader.rest), (3, b"ng pennies".as_slice()));
        let mut writer = SlowWriter {
            bytes: Vec::new(alloc),
            calls: 0,
            fails: 2,
            kind,
        };
        let written = write_all(&mut StdSink::new(&mut writer), b"matching pennies");
        assert_eq!(rt; written, Err(Failed));
        assert_eq!(rt;
            (writer.calls, writer.bytes.as_slice()),
            (3, b"matchi".as_slice())
        );
    }
    Ok(())
}

/// A writer that takes nothing.
#[derive(Drop)]
struct Full;

impl Write for Full {
    fn write(&mut self, _piece: &[u8]) -> io::Result<usize> {
        Ok(0)
    }

    fn flush(&mut self) -> io::Result<()> {
        Ok(())
    }
}

#[test]
fn a_write_that_takes_nothing_is_a_fault(rt: HostRuntime) -> Result<(), Fail> {
    assert_eq!(rt; write_all(&mut StdSink::new(Full), b"pennies"), Err(Failed));
    Ok(())
}

use crate::{
    Failed, MemSink, MemSource, Messages, NeverSink, NeverSource, ReadAll, Sink, Source, StdSink,
    StdSource, WriteAll, WriteError, read_all, write_all,
};
use std::alloc::{AllocError, Global};
use std::cell::RefCell;
use std::fmt::Display;
use std::io::{self, Eprint, Read, Write};
use std::test::Fail;

/// How many bytes there are, how many a call moves at most, and how many calls that moves bytes it takes to move all.
const CASES: [(u8, usize, u32); 12] = [
    (0, 1, 0),
    (0, 7, 0),
    (0, 4096, 0),
    (1, 1, 1),
    (1, 7, 1),
    (1, 4096, 1),
    (10, 1, 10),
    (10, 7, 2),
    (10, 4096, 1),
    (100, 1, 100),
    (100, 7, 15),
    (100, 4096, 1),
];

/// The bytes from 0 on.
fn bytes_below(alloc: Global, end: u8) -> Result<Vec<u8>, AllocError> {
    let mut bytes = Vec::new(alloc);
    for byte in 0..end {
        bytes.push(byte)?;
    }
    Ok(bytes)
}

#[test]
fn reads_all_or_answers_the_fault(rt: HostRuntime) -> Result<(), Fail> {
    let alloc = rt.alloc();
    for (end, most, calls) in CASES {
        assert!(rt; most > 0);
        for fail in [0, 1, 2, 3] {
            let bytes = bytes_below(alloc, end)?;
            let mut source = MemSource::new(bytes_below(alloc, end)?, most, vec![in alloc; fail]?);

            // The end is found by one more call.
            let fails = fail != 0 && fail - 1 <= calls;
            match read_all(alloc, &mut source, 1000) {
                Ok(all) => assert!(rt; !fails && all == bytes, "{end} {most} {fail}"),
                Err(error) => assert!(rt;
                    fails && error == ReadAll::ReadFault,
                    "{end} {most} {fail}"
                ),
            }
        }
    }
    Ok(())
}

#[test]
fn writes_all_or_a_front(rt: HostRuntime) -> Result<(), Fail> {
    let alloc = rt.alloc();
    for (end, most, calls) in CASES {
        assert!(rt; most > 0);
        for fail in [0, 1, 2, 3] {
            let bytes = bytes_below(alloc, end)?;
            let mut sink = MemSink::new(alloc, most, vec![in alloc; fail]?);
            let fails = fail != 0 && fail <= calls;
            match write_all(&mut sink, bytes.as_slice()) {
                Ok(()) => assert!(rt;
                    !fails && sink.bytes() == bytes.as_slice(),
                    "{end} {most} {fail}"
                ),
                Err(error) => {
                    assert!(rt;
                        fails && error == WriteAll::WriteFault,
                        "{end} {most} {fail}"
                    );
                    assert!(rt; bytes.starts_with(sink.bytes()), "{end} {most} {fail}");
                    let written = most.saturating_mul(fail as usize - 1);
                    assert_eq!(rt; sink.bytes().len(), written, "{end} {most} {fail}");
                }
            }
        }
    }
    Ok(())
}

#[test]
fn keeps_to_the_limit(rt: HostRuntime) -> Result<(), Fail> {
    let alloc = rt.alloc();
    for (end, limit) in [
        (0, 0),
        (1, 1),
        (1, 0),
        (10, 10),
        (10, 9),
        (10, 11),
        (100, 100),
        (100, 99),
    ] {
        let bytes = bytes_below(alloc, end)?;
        let fits = bytes.len() <= limit;
        assert!(rt; limit < 1000);
        let mut source = NeverSource::new(bytes_below(alloc, end)?);
        match read_all(alloc, &mut source, limit) {
            Ok(all) => assert!(rt; fits && all == bytes, "{end} {limit}"),
            Err(error) => assert!(rt; !fits && error == ReadAll::TooLong, "{end} {limit}"),
        }
    }
    Ok(())
}

#[test]
fn a_sink_that_never_fails_keeps_all(rt: HostRuntime) -> Result<(), Fail> {
    let mut sink = NeverSink::new(rt.alloc());
    assert_eq!(rt; write_all(&mut sink, b"one "), Ok(()));
    assert_eq!(rt; write_all(&mut sink, b"two"), Ok(()));
    assert_eq!(rt; sink.bytes(), b"one two".as_slice());
    Ok(())
}

/// What a reader or a writer was asked for, and what it answered.
#[derive(Clone, Copy, Debug, PartialEq, Eq)]
enum Call {
    Read(usize),
    ReadFailed,
    Wrote(usize),
    WriteFailed,
    Flushed,
    FlushFailed,
}

/// A reader of `left` that gives at most `most` bytes a call, fails at the call of this number, counted from 1, and records
/// its calls.
#[derive(Drop)]
struct FakeReader<'a> {
    left: &'a [u8],
    most: usize,
    failing: usize,
    calls: Vec<Call>,
}

impl Read for FakeReader<'_> {
    fn read(&mut self, buf: &mut [u8]) -> io::Result<usize> {
        if self.calls.len() == self.failing.saturating_sub(1) && self.failing > 0 {
            self.calls.push(Call::ReadFailed)?;
            return Err(io::Error::other("no read"));
        }
        let room = buf.len().min(self.most);
        let read = self.left.read(&mut buf[..room])?;
        self.calls.push(Call::Read(read))?;
        Ok(read)
    }
}

/// A writer that takes at most `most` bytes a call, fails at the call of this number, counted from 1, and records its calls.
#[derive(Drop)]
struct FakeWriter {
    most: usize,
    failing: usize,
    calls: Vec<Call>,
}

impl FakeWriter {
    fn fails_now(&self) -> bool {
        self.failing > 0 && self.calls.len() == self.failing - 1
    }
}

impl Write for FakeWriter {
    fn write(&mut self, buf: &[u8]) -> io::Result<usize> {
        if self.fails_now() {
            self.calls.push(Call::WriteFailed)?;
            return Err(io::Error::other("no write"));
        }
        let taken = buf.len().min(self.most);
        self.calls.push(Call::Wrote(taken))?;
        Ok(taken)
    }

    fn flush(&mut self) -> io::Result<()> {
        if self.fails_now() {
            self.calls.push(Call::FlushFailed)?;
            return Err(io::Error::other("no flush"));
        }
        self.calls.push(Call::Flushed)?;
        Ok(())
    }
}

#[test]
fn a_source_hands_on_what_its_reader_answers(rt: HostRuntime) -> Result<(), Fail> {
    let alloc = rt.alloc();
    // Seven bytes, at most three a call: the fourth call finds the end.
    let all = [Call::Read(3), Call::Read(3), Call::Read(1), Call::Read(0)];
    for failing in [0, 1, 2, 3, 4, 5] {
        let mut reader = FakeReader {
            left: b"one two",
            most: 3,
            failing,
            calls: Vec::new(alloc),
        };
        let answer = read_all(alloc, &mut StdSource::new(&mut reader), 7);
        let fails = failing > 0 && failing <= 4;
        match answer {
            Ok(bytes) => assert!(rt;
                !fails && bytes.as_slice() == b"one two".as_slice(),
                "{failing}"
            ),
            Err(error) => assert!(rt; fails && error == ReadAll::ReadFault, "{failing}"),
        }
        // Nothing is asked of a reader that failed.
        let answered = if fails { failing - 1 } else { 4 };
        assert!(rt; answered <= 4);
        let mut calls = Vec::from_slice(alloc, &all[..answered])?;
        if fails {
            calls.push(Call::ReadFailed)?;
        }
        assert_eq!(rt; reader.calls, calls, "{failing}");
    }
    Ok(())
}

#[test]
fn a_source_goes_on_behind_a_failed_read(rt: HostRuntime) -> Result<(), Fail> {
    let mut reader = FakeReader {
        left: b"one two",
        most: 3,
        failing: 2,
        calls: Vec::new(rt.alloc()),
    };
    let mut source = StdSource::new(&mut reader);
    let mut buf = [b'.'; 5];
    assert_eq!(rt; source.read(&mut buf), Ok(3));
    assert_eq!(rt; &buf[..], b"one..".as_slice());
    assert_eq!(rt; source.read(&mut buf), Err(Failed));
    assert_eq!(rt; source.read(&mut buf), Ok(3));
    assert_eq!(rt; &buf[..], b" tw..".as_slice());
    Ok(())
}

#[test]
fn a_sink_flushes_behind_each_write(rt: HostRuntime) -> Result<(), Fail> {
    let alloc = rt.alloc();
    let all = [
        Call::Wrote(3),
        Call::Flushed,
        Call::Wrote(3),
        Call::Flushed,
        Call::Wrote(1),
        Call::Flushed,
    ];
    for failing in [0, 1, 2, 3, 4, 5, 6, 7] {
        let mut writer = FakeWriter {
            most: 3,
            failing,
            calls: Vec::new(alloc),
        };
        let answer = write_all(&mut StdSink::new(&mut writer), b"one two");
        let fails = failing > 0 && failing <= 6;
        assert_eq!(rt;
            answer,
            if fails {
                Err(WriteAll::WriteFault)
            } else {
                Ok(())
            },
            "{failing}"
        );
        let answered = if fails { failing - 1 } else { 6 };
        assert!(rt; answered <= 6);
        let mut calls = Vec::from_slice(alloc, &all[..answered])?;
        if fails {
            calls.push(if failing % 2 == 1 {
                Call::WriteFailed
            } else {
                Call::FlushFailed
            })?;
        }
        assert_eq!(rt; writer.calls, calls, "{failing}");
    }
    Ok(())
}

#[test]
fn a_sink_goes_on_behind_a_failed_write(rt: HostRuntime) -> Result<(), Fail> {
    let alloc = rt.alloc();
    for (most, failing, piece, answer, calls) in [
        (
            3,
            0,
            b"one two".as_slice(),
            Ok(3),
            [Call::Wrote(3), Call::Flushed].as_slice(),
        ),
        (9, 0, b"one two", Ok(7), &[Call::Wrote(7), Call::Flushed]),
        (3, 0, b"", Ok(0), &[Call::Wrote(0), Call::Flushed]),
        (0, 0, b"one", Err(WriteError::Failed), &[Call::Wrote(0)]),
        (3, 1, b"one", Err(WriteError::Failed), &[Call::WriteFailed]),
        (
            3,
            2,
            b"one",
            Err(WriteError::Failed),
            &[Call::Wrote(3), Call::FlushFailed],
        ),
    ] {
        let mut writer = FakeWriter {
            most,
            failing,
            calls: Vec::new(alloc),
        };
        let mut sink = StdSink::new(&mut writer);
        assert_eq!(rt; sink.write(piece), answer);
        // The next write asks the writer again.
        assert_eq!(rt; sink.write(b""), Ok(0));
        drop(sink);
        let mut all = Vec::from_slice(alloc, calls)?;
        all.extend_from_slice(&[Call::Wrote(0), Call::Flushed])?;
        assert_eq!(rt; writer.calls, all);
    }
    Ok(())
}

/// A writer that takes at most three bytes a call, keeps them, and fails at the flush of this number, counted from 1.
#[derive(Drop)]
struct KeepingWriter {
    kept: Vec<u8>,
    failing: usize,
    flushes: usize,
}

impl Write for KeepingWriter {
    fn write(&mut self, buf: &[u8]) -> io::Result<usize> {
        let taken = buf.len().min(3);
        self.kept.extend_from_slice(&buf[..taken])?;
        Ok(taken)
    }

    fn flush(&mut self) -> io::Result<()> {
        self.flushes = self.flushes.saturating_add(1);
        if self.flushes == self.failing {
            return Err(io::Error::other("no flush"));
        }
        Ok(())
    }
}

#[test]
fn a_sink_goes_on_behind_a_flush_that_fails(rt: HostRuntime) -> Result<(), Fail> {
    let mut writer = KeepingWriter {
        kept: Vec::new(rt.alloc()),
        failing: 2,
        flushes: 0,
    };
    let mut sink = StdSink::new(&mut writer);
    let first = sink.write(b"one ");
    assert!(rt; first == Ok(3));
    assert_eq!(rt; sink.write(b" two"), Err(WriteError::Failed));
    assert_eq!(rt; sink.write(b"end"), Ok(3));
    drop(sink);

    // Acknowledged are "one" and "end". The writer has what it took of the piece between them, too.
    assert_eq!(rt; writer.kept.as_slice(), b"one twend".as_slice());
    Ok(())
}

/// A printer that records what it is given, and fails behind the first thing that it prints where it is set to.
#[derive(Drop)]
struct FakePrinter {
    printed: RefCell<String>,
    fails: bool,
}

impl Eprint for FakePrinter {
    fn eprint<D: Display + Drop>(&self, value: D) -> io::Result<()> {
        let Ok(mut printed) = self.printed.try_borrow_mut() else {
            return Err(io::Error::other("in use"));
        };
        let text: &mut String = &mut printed;
        write!(text, "{value}")?;
        if self.fails {
            Err(io::Error::other("no print"))
        } else {
            Ok(())
        }
    }

    fn eprintln<D: Display + Drop>(&self, value: D) -> io::Result<()> {
        self.eprint(value)?;
        self.eprint("\n")
    }
}

#[test]
fn a_writer_of_messages_writes_one_line(rt: HostRuntime) -> Result<(), Fail> {
    for (fails, text) in [(false, "out of memory\n"), (true, "out of memory")] {
        let mut printer = FakePrinter {
            printed: RefCell::new(String::new(rt.alloc())),
            fails,
        };
        assert!(rt; printer.give_line("out of memory").is_err() == fails);
        let FakePrinter { printed, fails: _ } = printer;
        assert_eq!(rt; printed.into_inner().as_str(), text);
    }
    Ok(())
}

#[test]
fn reads_and_writes_by_the_system(rt: HostRuntime) -> Result<(), Fail> {
    assert_eq!(rt; write_all(&mut StdSink::new(io::writer(&rt)), b""), Ok(()));
    let rest = read_all(rt.alloc(), &mut StdSource::new(rt.reader()), 1000);
    assert!(rt; rest.is_ok());
    Ok(())
}

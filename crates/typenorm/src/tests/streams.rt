//! Streams that move one byte at a time, and fail once.
use super::rows::rows;
use super::{outputs, status_of};
use std::alloc::Global;
use std::io::{self, Error, ErrorKind, Read, Write};
use std::process::Abort;
use walrus_text::{BadLine, Expected, TextError, read_section, write_output, write_section};

/// Counts calls, and has one of them fail.
#[derive(Clone, Copy)]
struct Calls {
    /// How many calls there were.
    count: u64,
    /// The number of the call that fails, counted from 1. No call has the number 0.
    failing: u64,
}

impl Calls {
    fn next(&mut self) -> io::Result<()> {
        self.count = self.count.saturating_add(1);
        if self.count == self.failing {
            return Err(Error::from(ErrorKind::BrokenPipe));
        }
        Ok(())
    }
}

/// Gives one byte at a time.
#[derive(Drop)]
struct Drip<'a> {
    rest: &'a [u8],
    calls: Calls,
}

impl Read for Drip<'_> {
    fn read(&mut self, buf: &mut [u8]) -> io::Result<usize> {
        self.calls.next()?;
        let count = buf.len().min(1);
        self.rest.read(&mut buf[..count])
    }
}

/// Takes one byte at a time. A flush is a call like a write.
#[derive(Drop)]
struct Basin {
    bytes: Vec<u8>,
    calls: Calls,
}

impl Write for Basin {
    fn write(&mut self, buf: &[u8]) -> io::Result<usize> {
        self.calls.next()?;
        self.bytes.write(&buf[..buf.len().min(1)])
    }

    fn flush(&mut self) -> io::Result<()> {
        self.calls.next()
    }
}

/// The numbers of the read, of the call of `out` and of the call of `err` that fail.
type Failing = (u64, u64, u64);

/// The text ends a run in which these calls fail with this status, and writes this.
fn ends_with(
    rt: &impl Abort,
    alloc: Global,
    text: &[u8],
    failing: Failing,
    status: u8,
    written: (&[u8], &[u8]),
) {
    let mut reader = Drip {
        rest: text,
        calls: calls_failing_at(failing.0),
    };
    let mut out = empty_basin(alloc, failing.1);
    let mut err = empty_basin(alloc, failing.2);
    let found = status_of(alloc, &mut reader, &mut out, &mut err);
    assert_eq!(rt; found, status);
    assert_eq!(rt; out.bytes.as_slice(), written.0);
    assert_eq!(rt; err.bytes.as_slice(), written.1);
}

fn calls_failing_at(failing: u64) -> Calls {
    Calls { count: 0, failing }
}

fn empty_basin(alloc: Global, failing: u64) -> Basin {
    Basin {
        bytes: Vec::new(alloc),
        calls: calls_failing_at(failing),
    }
}

const FAILED: &[u8] = b"input or output failed\n";

#[test]
fn each_read_fails_in_turn(rt: HostRuntime) {
    for (text, status, written) in rows() {
        for at in 0..text.len() {
            let failing = (at as u64 + 1, 0, 0);
            ends_with(&rt, rt.alloc(), text, failing, 4, (b"", FAILED));
        }
        // The last read finds the end.
        let end = (text.len() as u64).saturating_add(1);
        ends_with(&rt, rt.alloc(), text, (end, 0, 0), 4, (b"", FAILED));
        let failing = (end.saturating_add(1), 0, 0);
        ends_with(
            &rt,
            rt.alloc(),
            text,
            failing,
            status,
            outputs(status, written),
        );
    }
}

#[test]
fn each_write_of_the_output_fails_in_turn(rt: HostRuntime) {
    for (text, status, written) in rows() {
        let (out, err) = outputs(status, written);
        for at in 0..out.len() {
            let failing = (0, at as u64 + 1, 0);
            ends_with(&rt, rt.alloc(), text, failing, 4, (&out[..at], FAILED));
        }
        // The flush comes behind the last write, where something is written.
        let (status, err) = if status == 0 {
            (4, FAILED)
        } else {
            (status, err)
        };
        let failing = (0, out.len() as u64 + 1, 0);
        ends_with(&rt, rt.alloc(), text, failing, status, (out, err));
    }
}

#[test]
fn each_write_of_the_line_fails_in_turn(rt: HostRuntime) {
    for (text, status, written) in rows() {
        let (out, err) = outputs(status, written);
        for at in 0..err.len() {
            let failing = (0, 0, at as u64 + 1);
            ends_with(&rt, rt.alloc(), text, failing, 4, (b"", &err[..at]));
        }
        let failing = (0, 0, err.len() as u64 + 1);
        ends_with(&rt, rt.alloc(), text, failing, status, (out, err));
    }
}

/// Why the section of a text is not read where this read fails; `None` where it is read.
fn error_of(alloc: Global, text: &[u8], failing: u64) -> Option<TextError> {
    let mut reader = Drip {
        rest: text,
        calls: calls_failing_at(failing),
    };
    read_section(alloc, &mut reader).err()
}

/// The error of a line that is bad from its beginning on.
fn bad_line(line: u64, expected: Expected) -> TextError {
    TextError::BadText(BadLine {
        line,
        column: 1,
        expected,
    })
}

#[test]
fn each_read_of_a_section_fails_in_turn(rt: HostRuntime) {
    let texts: [(&[u8], Option<TextError>); 3] = [
        (b"rec\nfunc i32 ->\nend", None),
        (b"rec\nfunc i32 ->\n", Some(bad_line(3, Expected::End))),
        (
            b"type\nfunc i32 ->\n",
            Some(bad_line(1, Expected::DefinitionOrRec)),
        ),
    ];
    for (text, wanted) in texts {
        for at in 0..text.len() + 1 {
            let error = error_of(rt.alloc(), text, at as u64 + 1);
            assert_eq!(rt; error, Some(TextError::Stream));
        }
        assert_eq!(rt; error_of(rt.alloc(), text, 0), wanted);
    }
}

#[test]
fn each_write_of_a_section_fails_in_turn(rt: HostRuntime) {
    let mut reader = b"open sub:0 struct mut:i8\n".as_slice();
    let groups = read_section(rt.alloc(), &mut reader).expect(&rt, "memory");
    for failing in 1..26 {
        let mut out = empty_basin(rt.alloc(), failing);
        assert!(rt; write_section(&mut out, groups.as_slice()).is_err());
    }
    for failing in 1..32 {
        let mut out = empty_basin(rt.alloc(), failing);
        assert!(rt; write_output(&mut out, groups.as_slice(), &[0]).is_err());
    }
    let mut whole = empty_basin(rt.alloc(), 26);
    assert!(rt; write_section(&mut whole, groups.as_slice()).is_ok());
    let mut with_map = empty_basin(rt.alloc(), 32);
    assert!(rt; write_output(&mut with_map, groups.as_slice(), &[0]).is_ok());
}

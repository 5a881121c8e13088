//! Texts whose outcome is known.
use super::ends_with;
use crate::failure::{Failure, report};
use walrus_normal_form::ReadError;

/// A text, the status that it ends with, and what is written.
pub(super) type Row = (&'static [u8], u8, &'static [u8]);

/// Texts of each kind.
pub(super) fn rows() -> [Row; 23] {
    [
        (
            b"struct i32\nfunc ->\n",
            0,
            b"func ->\nstruct i32\nmap 1 0\n",
        ),
        (
            b"struct i32\nopen struct i32\n",
            0,
            b"open struct i32\nstruct i32\nmap 1 0\n",
        ),
        (
            b"array mut:i8\nstruct\nfunc i32 -> null:func\n",
            0,
            b"func i32 -> null:func\nstruct\narray mut:i8\nmap 2 1 0\n",
        ),
        (b"func ->\nfunc ->\n", 0, b"func ->\nmap 0 0\n"),
        (b"", 0, b"map\n"),
        (
            b"rec\nfunc ->\nend\nfunc ->\n",
            0,
            b"rec\nfunc ->\nend\nfunc ->\nmap 0 1\n",
        ),
        (b"rec\nend\n", 0, b"map\n"),
        (
            b"rec\nstruct null:1\nstruct null:0\nend\nfunc ->\nfunc ->\n",
            0,
            b"rec\nstruct null:1\nstruct null:0\nend\nfunc ->\nmap 0 1 2 2\n",
        ),
        (
            b"open struct i32\nsub:0 struct i32 f64\n",
            0,
            b"open struct i32\nsub:0 struct i32 f64\nmap 0 1\n",
        ),
        (b"struct null:1\n", 2, b"entry 0 names 1, end 1\n"),
        (b"rec\nfunc ->\n", 1, b"line 3: bad text\n"),
        (b"func ->\nstruct i33\n", 1, b"line 2: bad text\n"),
        (b"func ->\narray\n", 1, b"line 2: bad text\n"),
        (b"func ->\nfunc\n", 1, b"line 2: bad text\n"),
        (b"func ->\nstruct null:01\n", 1, b"line 2: bad text\n"),
        (
            b"func ->\nstruct null:4294967296\n",
            1,
            b"line 2: bad text\n",
        ),
        (b"func ->\nend\n", 1, b"line 2: bad text\n"),
        (b"func ->\nrec x\n", 1, b"line 2: bad text\n"),
        (b"func ->\n\xff\n", 1, b"line 2: bad text\n"),
        (b"func ->\nfunc ->\r\n", 1, b"line 2: bad text\n"),
        (b"rec\nrec\n", 1, b"line 2: bad text\n"),
        (b"struct i32\n\nwrong\nworse\n", 1, b"line 3: bad text\n"),
        (b"\n func   ->", 0, b"func ->\nmap 0\n"),
    ]
}

#[test]
fn each_text_has_its_outcome(rt: HostRuntime) {
    for (text, status, written) in rows() {
        ends_with(&rt, rt.alloc(), text, status, written);
    }
}

#[test]
fn each_failure_has_its_line(rt: HostRuntime) {
    let greatest = ReadError::BadIndex {
        entry: u32::MAX,
        index: u32::MAX,
        end: u32::MAX,
    };
    let lines: [(Failure, u8, &[u8]); 7] = [
        (
            Failure::BadText(u64::MAX),
            1,
            b"line 18446744073709551615: bad text\n",
        ),
        (
            Failure::Refused(greatest),
            2,
            b"entry 4294967295 names 4294967295, end 4294967295\n",
        ),
        (
            Failure::Refused(ReadError::TooMany),
            2,
            b"too many entries\n",
        ),
        (Failure::Refused(ReadError::Memory), 3, b"out of memory\n"),
        (Failure::Memory, 3, b"out of memory\n"),
        (Failure::Stream, 4, b"input or output failed\n"),
        (Failure::BadText(3), 1, b"line 3: bad text\n"),
    ];
    for (failure, status, line) in lines {
        let mut err: Vec<u8> = Vec::new(rt.alloc());
        assert_eq!(rt; report(&failure, &mut err), status);
        assert_eq!(rt; err.as_slice(), line);
    }
}

//! Runs over a reader and two writers in memory, and the calls of `walrus_text`.
mod refusals;
mod rows;
mod short_texts;
mod streams;
mod texts;

use crate::run;
use std::alloc::Global;
use std::io::{Read, Write};
use std::process::Abort;
use walrus_normal_form::HashKeys;

/// Runs over these streams, and returns the exit status.
fn status_of<R: Read, W: Write, E: Write>(
    alloc: Global,
    reader: &mut R,
    out: &mut W,
    err: &mut E,
) -> u8 {
    run(alloc, HashKeys::fixed(), reader, out, err)
}

/// The text ends a run with this status. What it writes goes to `out` at status 0, and otherwise to
/// `err`.
fn ends_with(rt: &impl Abort, alloc: Global, text: &[u8], status: u8, written: &[u8]) {
    let mut reader = text;
    let mut out: Vec<u8> = Vec::new(alloc);
    let mut err: Vec<u8> = Vec::new(alloc);
    let found = status_of(alloc, &mut reader, &mut out, &mut err);
    let (wanted_out, wanted_err) = outputs(status, written);
    assert_eq!(rt; found, status);
    assert_eq!(rt; out.as_slice(), wanted_out);
    assert_eq!(rt; err.as_slice(), wanted_err);
}

/// What `out` and `err` gain.
fn outputs(status: u8, written: &[u8]) -> (&[u8], &[u8]) {
    match status {
        0 => (written, b""),
        _ => (b"", written),
    }
}

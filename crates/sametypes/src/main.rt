//! Reads two type sections, each from a module or from text, and says whether they are the same up
//! to moves.
#![tactic(auto)]

ghost use Rattle.std.specs.Prelude.{◌≡◌, ◌<◌, ◌≤◌, ◌⊎◌, ℕ, ⊤, IfErr, IfOk, OnOk};
ghost use Rattle.std.specs.Io.KnownBytes.{Appends, Keeps};
ghost use Rattle.walrus_sections.specs.Moves.{AreJoined};
ghost use Rattle.sametypes.specs.Runs.{AreApart, HaveFirstDifference, HaveSections, IfBothKnown, difference_line, same_line};
ghost use Rattle.sametypes.specs.Steps.Verdicts.{IsVerdict, verdict_line};

mod failure;
pub mod laws;
mod normal_form;
mod texts;

use command_line::{Input, NOT_UTF8, Request, open, parse_arguments, report_usage, write_version};
use failure::{Failure, InputError, Names, report};
use normal_form::{index_of_difference, read_normal_form};
use std::alloc::Global;
use std::env;
use std::io::{self, Read, Write};
use std::process::ExitCode;
use texts::{HELP, USAGE};
use walrus_normal_form::HashKeys;

/// Reads a section from each of two readers, and compares their normal forms. It writes `same` to
/// `out` where they are the same up to moves, which is where they have the same normal form.
/// Otherwise it writes `different at entry N`. `N` is the index of the first entry of the first
/// group in which the normal forms differ, or at which one of them ends.
///
/// Groups keep their order and are never merged, and a `Rec` of one type is not the lone type. So
/// sections that WebAssembly treats as equal can differ here.
///
/// A reader gives a WebAssembly module, whose first four bytes are `\0asm`, or the text of a
/// section. No bytes are both, and none have more than one section ([`laws`]), so the clauses speak
/// of the section of each reader. A module without type section has the section without groups, as
/// an empty text.
///
/// It returns the exit status:
///
/// - 0: they are the same.
/// - 1: they differ.
/// - 2: it can't be decided, for one of these reasons: bytes are no module or no text; an entry
///   names an index that it may not name; there are too many entries; memory was refused; a read
///   failed; the result could not be written. One line on `err` says which. It begins with the name
///   of the input where one is bad. Where both are bad it is the first.
///
/// At 2 `out` gains nothing, unless the write of the result failed.
///
/// The keys begin the hash by which equal types are found. No result depends on them. Where they
/// can be foreseen, a section can be made that takes time quadratic in its length.
pub fn run<A: Read, B: Read, W: Write, E: Write>(
    alloc: Global,
    keys: HashKeys,
    names: Names<'_>,
    a: &mut A,
    b: &mut B,
    out: &mut W,
    err: &mut E,
) -> u8
    // Both have sections that can be read, and moves lead from one to the other;
    ensures same { result ≡ 0 → IfBothKnown (A.remaining a.old) (B.remaining b.old)
        (HaveSections AreJoined) }
    ensures same_line { result ≡ 0 →
        Appends (W.contents out.old) (W.contents out.new) same_line }
    // or no moves do, and their normal forms differ first at the entry that is written.
    ensures different { result ≡ 1 → IfBothKnown (A.remaining a.old) (B.remaining b.old)
        (HaveSections AreApart) }
    ensures different_line { result ≡ 1 → (index : ℕ) ×
        IfBothKnown (A.remaining a.old) (B.remaining b.old)
        (HaveSections (HaveFirstDifference index)) ×
        Appends (W.contents out.old) (W.contents out.new) (difference_line index) }
    ensures silent { result < 2 → Keeps (E.contents err.old) (E.contents err.new) }
    ensures range { result ≤ 2 }
    // At 2 nothing was written, or both can be read, and it is the write that failed.
    ensures unwritten { result ≡ 2 → Keeps (W.contents out.old) (W.contents out.new) ⊎
        IfBothKnown (A.remaining a.old) (B.remaining b.old) (HaveSections (λ s t. ⊤)) }
{
    match compare(alloc, keys, a, b, out) {
        Ok(None) => 0,
        Ok(Some(_)) => 1,
        Err(failure) => report(&failure, names, err),
    }
}

fn compare<A: Read, B: Read, W: Write>(
    alloc: Global,
    keys: HashKeys,
    a: &mut A,
    b: &mut B,
    out: &mut W,
) -> Result<Option<usize>, Failure>
    ensures verdict { IfOk result (λ verdict.
        IfBothKnown (A.remaining a.old) (B.remaining b.old) (HaveSections (IsVerdict verdict))) }
    ensures written { IfOk result (λ verdict.
        Appends (W.contents out.old) (W.contents out.new) (verdict_line verdict)) }
    ensures unwritten { IfErr result (λ failure.
        Keeps (W.contents out.old) (W.contents out.new) ⊎
        IfBothKnown (A.remaining a.old) (B.remaining b.old) (HaveSections (λ s t. ⊤))) }
{
    let first = match read_normal_form(alloc, keys, a) {
        Ok(first) => first,
        Err(trouble) => return Err(Failure::First(trouble)),
    };
    let second = match read_normal_form(alloc, keys, b) {
        Ok(second) => second,
        Err(trouble) => return Err(Failure::Second(trouble)),
    };
    let verdict = index_of_difference(first.as_slice(), second.as_slice());
    match write_verdict(out, verdict) {
        Ok(()) => Ok(verdict),
        Err(error) => Err(Failure::Output(error)),
    }
}

/// Writes the line of the result, and flushes the writer.
fn write_verdict<W: Write>(out: &mut W, verdict: Option<usize>) -> io::Result<()>
    ensures { OnOk result (Appends (W.contents out.old) (W.contents out.new)
        (verdict_line verdict)) }
{
    match verdict {
        None => out.write_all(b"same\n")?,
        Some(index) => writeln!(out, "different at entry {index}")?,
    }
    out.flush()
}

fn main(rt: HostRuntime) -> ExitCode {
    let mut err = rt.stderr();
    ExitCode::from(start(&rt, &mut err))
}

/// Does what the arguments ask for, and returns the exit status.
fn start<E: Write>(rt: &HostRuntime, err: &mut E) -> u8 {
    let no_names = Names { a: "", b: "" };
    let request = match parse_arguments(rt.alloc(), env::args(rt), &[], &[]) {
        Ok(request) => request,
        Err(_) => return report(&Failure::Memory, no_names, err),
    };
    let done = match request {
        Request::Help => rt.stdout().write_all(HELP.as_bytes()),
        Request::Version => write_version("sametypes", &mut rt.stdout()),
        Request::Work { names, .. } => return compare_named(rt, names.as_slice(), err),
        Request::Usage => return report_usage(USAGE, err),
        Request::NotUtf8 => return report_usage(NOT_UTF8, err),
    };
    match done {
        Ok(()) => 0,
        Err(error) => report(&Failure::Output(error), no_names, err),
    }
}

fn compare_named<E: Write>(rt: &HostRuntime, names: &[String], err: &mut E) -> u8 {
    match names {
        [a, b] if a.as_str() != "-" || b.as_str() != "-" => {
            let names = Names {
                a: a.as_str(),
                b: b.as_str(),
            };
            compare_files(rt, names, err)
        }
        _ => report_usage(USAGE, err),
    }
}

fn compare_files<E: Write>(rt: &HostRuntime, names: Names<'_>, err: &mut E) -> u8 {
    let (mut a, mut b) = match open_both(rt, names, err) {
        Ok(inputs) => inputs,
        Err(failure) => return report(&failure, names, err),
    };
    let Ok(keys) = HashKeys::random(rt) else {
        return report(&Failure::Keys, names, err);
    };
    let mut out = rt.stdout();
    run(rt.alloc(), keys, names, &mut a, &mut b, &mut out, err)
}

/// The two inputs that the arguments name.
fn open_both<E: Write>(
    rt: &HostRuntime,
    names: Names<'_>,
    err: &mut E,
) -> Result<(Input, Input), Failure> {
    let a = match open(rt, names.a, err) {
        Ok(a) => a,
        Err(error) => return Err(Failure::First(InputError::from(error))),
    };
    let b = match open(rt, names.b, err) {
        Ok(b) => b,
        Err(error) => return Err(Failure::Second(InputError::from(error))),
    };
    Ok((a, b))
}

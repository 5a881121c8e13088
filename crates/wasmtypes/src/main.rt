//! Reads a WebAssembly module and writes its type section as text.
#![tactic(auto)]

ghost use Rattle.std.specs.Prelude.{◌≡◌, ◌⊎◌, ◌<◌, IfErr, IfOk, OnOk, IfSome};
ghost use Rattle.std.specs.Io.KnownBytes.{Appends, Keeps};
ghost use Rattle.walrus_text.specs.Words.{text_of};
ghost use Rattle.walrus_text.specs.Text.{section_lines};
ghost use Rattle.wasm_binary.specs.ModuleSections.{HasBadTypes};
ghost use Rattle.wasmtypes.specs.Runs.{IsPrinted};
ghost use Rattle.wasmtypes.specs.Steps.Failures.{Explains, status_of};

mod failure;
mod texts;

use command_line::{
    NOT_UTF8, Request, open, parse_arguments, read_bytes, report_usage, write_version,
};
use failure::{Failure, failed_input, refusal, report};
use std::alloc::{AllocError, Global};
use std::env;
use std::io::{self, Read, Write};
use std::process::ExitCode;
use texts::{HELP, USAGE};
use walrus_text::write_section;
use walrus_ty::GroupAt;
use wasm_binary::module_types;

/// Reads a module from `reader`, and writes the text of its type section to `out`: nothing where it
/// has none. What the other sections contain is not checked.
///
/// It returns the exit status. One line on `err` explains each of 1, 3 and 4. If that line can't be
/// written, the status is 4.
///
/// - 0: done.
/// - 1: the bytes are no module, or the content of its type section is no text of groups, or one
///   with types that no record holds.
/// - 3: memory was refused.
/// - 4: a read or a write failed.
///
/// `out` gains nothing at 1 and 3, since the whole text is there before it is written. At 4 it may
/// have gained the text or a part of it.
#[tactic(auto, using(crate::proofs::Failures::known_bad_types))]
pub fn run<R: Read, W: Write, E: Write>(
    alloc: Global,
    reader: &mut R,
    out: &mut W,
    err: &mut E,
) -> u8
    ensures done { result ≡ 0 → IfSome (R.remaining reader.old)
        (λ bytes. IsPrinted bytes (W.contents out.old) (W.contents out.new)) }
    ensures silent { result ≡ 0 → Keeps (E.contents err.old) (E.contents err.new) }
    ensures bad_module { result ≡ 1 → IfSome (R.remaining reader.old)
        (λ bytes. HasBadTypes bytes) }
    ensures range { (result ≡ 0) ⊎ (result ≡ 1) ⊎ (result ≡ 3) ⊎ (result ≡ 4) }
    ensures unwritten { 0 < result → result < 4 → Keeps (W.contents out.old) (W.contents out.new) }
{
    match print_types(alloc, reader, out) {
        Ok(()) => 0,
        Err(failure) => report(&failure, err),
    }
}

fn print_types<R: Read, W: Write>(alloc: Global, reader: &mut R, out: &mut W) -> Result<(), Failure>
    ensures done { OnOk result (IfSome (R.remaining reader.old)
        (λ bytes. IsPrinted bytes (W.contents out.old) (W.contents out.new))) }
    ensures failed { IfErr result (λ failure.
        IfSome (R.remaining reader.old) (λ bytes. Explains failure bytes)) }
    ensures unwritten { IfErr result (λ failure. status_of failure < 4 →
        Keeps (W.contents out.old) (W.contents out.new)) }
{
    let bytes = match read_bytes(alloc, reader) {
        Ok(bytes) => bytes,
        Err(error) => return Err(failed_input(error)),
    };
    let groups = match module_types(alloc, bytes.as_slice()) {
        Ok(groups) => groups,
        Err(error) => return Err(refusal(bytes.as_slice(), error)),
    };
    let text = section_text(alloc, groups.as_slice())?;
    match write_and_flush(out, text.as_slice()) {
        Ok(()) => Ok(()),
        Err(error) => Err(Failure::Output(error)),
    }
}

/// The text of the groups.
fn section_text(alloc: Global, groups: &[GroupAt]) -> Result<Vec<u8>, AllocError>
    ensures { IfOk result (λ text. text.items ≡ text_of (section_lines groups.now)) }
{
    let mut text = Vec::new(alloc);
    match write_section(&mut text, groups) {
        Ok(()) => Ok(text),
        Err(_) => Err(AllocError),
    }
}

/// Writes the whole text, and flushes the writer.
fn write_and_flush<W: Write>(out: &mut W, text: &[u8]) -> io::Result<()>
    ensures { OnOk result (Appends (W.contents out.old) (W.contents out.new) text.now) }
{
    out.write_all(text)?;
    out.flush()
}

fn main(rt: HostRuntime) -> ExitCode {
    let mut err = rt.stderr();
    let status = match start(&rt, &mut err) {
        Ok(status) => status,
        Err(failure) => report(&failure, &mut err),
    };
    ExitCode::from(status)
}

/// Does what the arguments ask for, and returns the exit status.
fn start<E: Write>(rt: &HostRuntime, err: &mut E) -> Result<u8, Failure> {
    match parse_arguments(rt.alloc(), env::args(rt), &[], &[])? {
        Request::Help => printed(rt.stdout().write_all(HELP.as_bytes())),
        Request::Version => printed(write_version("wasmtypes", &mut rt.stdout())),
        Request::Work { names, .. } => match names.as_slice() {
            [] => print_types_of(rt, "-", err),
            [name] => print_types_of(rt, name.as_str(), err),
            _ => Ok(report_usage(USAGE, err)),
        },
        Request::Usage => Ok(report_usage(USAGE, err)),
        Request::NotUtf8 => Ok(report_usage(NOT_UTF8, err)),
    }
}

fn print_types_of<E: Write>(rt: &HostRuntime, name: &str, err: &mut E) -> Result<u8, Failure> {
    let mut input = match open(rt, name, err) {
        Ok(input) => input,
        Err(error) => return Err(failed_input(error)),
    };
    Ok(run(rt.alloc(), &mut input, &mut rt.stdout(), err))
}

fn printed(written: io::Result<()>) -> Result<u8, Failure> {
    match written {
        Ok(()) => Ok(0),
        Err(error) => Err(Failure::Output(error)),
    }
}

//! Reads a type section as text and writes its normal form, and where each entry went.
#![tactic(auto)]

ghost use Rattle.std.specs.Prelude.{◌≡◌, ◌<◌, ◌≤◌, List, ℕ, IfOk, IfErr, OnOk, IfSome};
ghost use Rattle.std.specs.Io.KnownBytes.{Appends, Keeps};
ghost use Rattle.walrus_text.specs.Words.{lines_of};
ghost use Rattle.walrus_text.specs.Text.{IsSectionText, output_text};
ghost use Rattle.typenorm.specs.Runs.{GainsLine, IsIllNamedText, IsNormalised};
ghost use Rattle.typenorm.specs.Steps.Failures.{Explains, status_of};

mod failure;
#[cfg(test)]
mod tests;

use failure::{Failure, report};
use std::alloc::Global;
use std::io::{self, BufWriter, Read, Write};
use std::process::ExitCode;
use walrus_normal_form::{GroupAt, HashKeys, ReadError, normalise};
use walrus_sections::laws::first_error_decides;
use walrus_text::{read_section, write_output};

/// Reads a section from `reader`, and writes its normal form to `out`. A last line has the new
/// index of each entry.
///
/// Groups keep their order and are never merged, and a `Rec` of one type is not the lone type. The
/// map of indices is only printed: the rest of a module still names the old indices.
///
/// It returns the exit status. One line on `err` explains each of 1 to 4.
///
/// - 0: done.
/// - 1: a line is bad.
/// - 2: the section names a type that it may not name, or has too many entries.
/// - 3: memory was refused.
/// - 4: a read or a write failed, or 2^48 reads did not come to the end.
///
/// `out` gains nothing at 1 to 3, since a run takes all its memory before it writes. At 4 it may
/// have gained a part of the output.
///
/// The output is written at once, so `out` needs no buffer.
///
/// The keys begin the hash by which equal types are found. No result depends on them. Where they
/// can be foreseen, a text can be made that takes time quadratic in its length.
pub fn run<R: Read, W: Write, E: Write>(
    alloc: Global,
    keys: HashKeys,
    reader: &mut R,
    out: &mut W,
    err: &mut E,
) -> u8
    ensures done { result ≡ 0 → IfSome (R.remaining reader.old)
        (λ text. IsNormalised (lines_of text) (W.contents out.old) (W.contents out.new)) }
    ensures silent { result ≡ 0 → Keeps (E.contents err.old) (E.contents err.new) }
    ensures bad_text { result ≡ 1 → IfSome (R.remaining reader.old)
        (λ text. ¬ IsSectionText (lines_of text)) }
    ensures ill_named { result ≡ 2 → IfSome (R.remaining reader.old)
        (λ text. IsIllNamedText (lines_of text)) }
    ensures range { result ≤ 4 }
    ensures unwritten { 0 < result → result < 4 → Keeps (W.contents out.old) (W.contents out.new) }
    ensures explained { 0 < result → result < 4 →
        GainsLine (E.contents err.old) (E.contents err.new) }
{
    match normalise_text(alloc, keys, reader, out) {
        Ok(()) => 0,
        Err(failure) => report(&failure, err),
    }
}

fn normalise_text<R: Read, W: Write>(
    alloc: Global,
    keys: HashKeys,
    reader: &mut R,
    out: &mut W,
) -> Result<(), Failure>
    ensures done { OnOk result (IfSome (R.remaining reader.old)
        (λ text. IsNormalised (lines_of text) (W.contents out.old) (W.contents out.new))) }
    ensures failed { IfErr result (λ failure.
        IfSome (R.remaining reader.old) (λ text. Explains failure (lines_of text))) }
    ensures unwritten { IfErr result (λ failure. status_of failure < 4 →
        Keeps (W.contents out.old) (W.contents out.new)) }
{
    let section = read_section(alloc, reader)?;
    first_error_decides();
    let (groups, map) = normalise(alloc, keys, section.as_slice())?;
    let Ok(text) = text_of(alloc, groups.as_slice(), map.as_slice()) else {
        return Err(Failure::Memory);
    };
    match write_and_flush(out, text.as_slice()) {
        Ok(()) => Ok(()),
        Err(_) => Err(Failure::Stream),
    }
}

/// The text of the groups and of the map. It takes nothing but memory.
fn text_of(alloc: Global, groups: &[GroupAt], map: &[u32]) -> io::Result<Vec<u8>>
    ensures { IfOk result (λ text. text.items ≡ output_text groups.now map.now) }
{
    let mut buffer = BufWriter::new(alloc, Vec::new(alloc))?;
    write_output(&mut buffer, groups, map)?;
    buffer.flush()?;
    let (text, _) = buffer.into_parts();
    Ok(text)
}

fn write_and_flush<W: Write>(out: &mut W, text: &[u8]) -> io::Result<()>
    ensures { OnOk result (Appends (W.contents out.old) (W.contents out.new) text.now) }
{
    out.write_all(text)?;
    out.flush()
}

fn main(rt: HostRuntime) -> ExitCode {
    let mut err = rt.stderr();
    let status = match HashKeys::random(&rt) {
        Ok(keys) => run(
            rt.alloc(),
            keys,
            &mut rt.stdin(),
            &mut rt.stdout(),
            &mut err,
        ),
        Err(_) => report(&Failure::Stream, &mut err),
    };
    ExitCode::from(status)
}

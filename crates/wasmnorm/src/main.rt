//! Reads a WebAssembly module and writes it with its type section in canonical form.
#![tactic(auto)]

ghost use Rattle.std.specs.Prelude.{◌≡◌, ◌<◌, ◌≤◌, ◌⊎◌, IfErr, IfOk, OnOk, IfSome, None};
ghost use Rattle.std.specs.Io.KnownBytes.{Appends, Keeps};
ghost use Rattle.wasm_normalise.specs.Hazards.{HasNoHazard};
ghost use Rattle.wasm_normalise.specs.CanonicalModules.{IsCanonicalModule, DescriptionsFit};
ghost use Rattle.wasm_normalise.specs.Meanings.{NameEqualTypes};
ghost use Rattle.wasm_normalise.specs.declared.options.Descriptions.TheVariants as descriptions;
ghost use Rattle.wasmnorm.specs.Runs.{IsWritten, IsWarned, WarnsAtMost, IsRefused, IsRejected};
ghost use Rattle.wasmnorm.specs.Steps.Failures.{Explains, status_of};
ghost use Rattle.wasmnorm.specs.Steps.Warnings.{IsFirstWarning};
ghost use Rattle.wasmnorm.specs.declared.options.Strictness.TheVariants.{Strict};

mod custom_section;
mod failure;
mod fault;
mod options;
mod prefix;
mod texts;
mod warning;

use command_line::{
    NOT_UTF8, OptionValue, Request, create, open, parse_arguments, read_bytes, report_usage,
    temporary_name, write_version,
};
use failure::{Failure, failed_input, refusal, report};
use options::{RunOptions, allowed_names, run_options};
use std::alloc::Global;
use std::env;
use std::hash::BuildHasher;
use std::io::{self, Read, Write};
use std::process::ExitCode;
use texts::{ALLOW, HELP, KEEP_WIDTHS, OUTPUT, PRUNE, STRICT, STRIP, USAGE};
use warning::{Warning, accepted_warning, warn_of};
use wasm_normalise::{HashKeys, canonical_module};

/// Reads a module from `reader`, and writes the same module to `out`, with its type section in
/// canonical form and every other index of a type written again.
///
/// Equal types are merged, by WebAssembly's own equality, and of all lists of the same types the
/// least is written. So each index that is written again means an equal type. Types that nothing
/// uses stay, unless the options say that they are deleted. Custom sections other than `name` are
/// copied as they are. Where one of them describes bytes that would change, such as debug data, the
/// module is refused, unless the options say that such sections are left out.
///
/// In two cases the new module can be wrong. A custom section is of an unknown kind, and so may refer
/// to types or to places in the file; sections whose names the options allow are of a known kind. Or a
/// section `name` can't be read, and is copied as it is.
/// With `Strictness::Strict` such a module is rejected, even if no byte would change. With
/// `Strictness::Lenient` a line on `err` warns of it, before the module is written. The line names
/// the place of the section in the input.
///
/// It returns the exit status. One line on `err` explains each of 1 to 4. At 0 `err` gains nothing
/// but a warning. At 4 a warning can be before the line.
///
/// - 0: done.
/// - 1: the bytes are no module, or a section of it is malformed, or one with types that no record
///   holds. Or a section or a function body would be too long. Or a custom section describes bytes
///   that would change. Or `Strictness::Strict` rejects the module.
/// - 2: the type section names a type that it may not name, or has too many entries. Or another
///   section names a type that the type section does not have.
/// - 3: memory was refused.
/// - 4: a read or a write failed.
///
/// What is wrong first is reported. Where the bytes are no module, since a section breaks the
/// framing, the sections before it are judged first. What only `Strictness::Strict` rejects is
/// reported where nothing else is wrong.
///
/// `out` gains nothing at 1 to 3, since the whole module is there before it is written. At 4 it may
/// have gained the module or a part of it.
///
/// The keys begin the hash by which equal types are found. No result depends on them. Where they
/// can be foreseen, a module can be made that takes time quadratic in its length.
pub fn run<R: Read, W: Write, E: Write>(
    alloc: Global,
    keys: HashKeys,
    options: &RunOptions<'_>,
    reader: &mut R,
    out: &mut W,
    err: &mut E,
) -> u8
    ensures done { result ≡ 0 → IfSome (R.remaining reader.old)
        (λ bytes. IsWritten options.now.normalise bytes (W.contents out.old) (W.contents out.new)) }
    ensures known { result ≡ 0 → options.now.strictness ≡ Strict →
        IfSome (R.remaining reader.old) (HasNoHazard options.now.allowed.now) }
    ensures warned { result ≡ 0 → IfSome (R.remaining reader.old)
        (λ bytes. IsWarned options.now.allowed.now bytes (E.contents err.old) (E.contents err.new)) }
    ensures bounded { result ≡ 0 → WarnsAtMost (E.contents err.old) (E.contents err.new) }
    ensures silent { result ≡ 0 → options.now.strictness ≡ Strict →
        Keeps (E.contents err.old) (E.contents err.new) }
    ensures refused { result ≡ 1 → IfSome (R.remaining reader.old)
        (λ bytes. IsRefused options.now.normalise 1 bytes ⊎ IsRejected options.now bytes) }
    ensures ill_named { result ≡ 2 → IfSome (R.remaining reader.old)
        (IsRefused options.now.normalise 2) }
    ensures range { result ≤ 4 }
    ensures unwritten { 0 < result → result < 4 → Keeps (W.contents out.old) (W.contents out.new) }
{
    match normalise_input(alloc, keys, options, reader, out, err) {
        Ok(()) => 0,
        Err(failure) => report(&failure, err),
    }
}

fn normalise_input<R: Read, W: Write, E: Write>(
    alloc: Global,
    keys: HashKeys,
    options: &RunOptions<'_>,
    reader: &mut R,
    out: &mut W,
    err: &mut E,
) -> Result<(), Failure>
    ensures done { OnOk result (IfSome (R.remaining reader.old)
        (λ bytes. IsWritten options.now.normalise bytes (W.contents out.old) (W.contents out.new))) }
    ensures known { OnOk result (options.now.strictness ≡ Strict →
        IfSome (R.remaining reader.old) (HasNoHazard options.now.allowed.now)) }
    ensures warned { OnOk result (IfSome (R.remaining reader.old)
        (λ bytes. IsWarned options.now.allowed.now bytes (E.contents err.old) (E.contents err.new))) }
    ensures bounded { OnOk result (WarnsAtMost (E.contents err.old) (E.contents err.new)) }
    ensures silent { OnOk result (options.now.strictness ≡ Strict →
        Keeps (E.contents err.old) (E.contents err.new)) }
    ensures failed { IfErr result (λ failure.
        IfSome (R.remaining reader.old) (λ bytes. Explains options.now bytes failure)) }
    ensures unwritten { IfErr result (λ failure. status_of failure < 4 →
        Keeps (W.contents out.old) (W.contents out.new)) }
{
    let bytes = match read_bytes(alloc, reader) {
        Ok(bytes) => bytes,
        Err(error) => return Err(failed_input(error)),
    };
    let NewModule { module, warning } = new_module(alloc, keys, options, bytes.as_slice())?;
    warn_of(alloc, warning, err)?;
    match write_and_flush(out, module.as_slice()) {
        Ok(()) => Ok(()),
        Err(error) => Err(Failure::Output(error)),
    }
}

/// A module that is ready to be written.
struct NewModule {
    module: Vec<u8>,
    /// What can be wrong in it.
    warning: Option<Warning>,
}

/// The module that is written, and the warning of it.
fn new_module(
    alloc: Global,
    keys: HashKeys,
    options: &RunOptions<'_>,
    bytes: &[u8],
) -> Result<NewModule, Failure>
    ensures canonical { IfOk result (λ new.
        IsCanonicalModule options.now.normalise bytes.now new.module.items) }
    ensures same_types { IfOk result (λ new. NameEqualTypes bytes.now new.module.items) }
    ensures fits { options.now.normalise.descriptions ≡ descriptions.Kept →
        IfOk result (λ new. DescriptionsFit bytes.now new.module.items) }
    ensures first { IfOk result (λ new.
        IsFirstWarning options.now.allowed.now bytes.now new.warning) }
    ensures none { options.now.strictness ≡ Strict → IfOk result (λ new. new.warning ≡ None) }
    ensures known { OnOk result (options.now.strictness ≡ Strict →
        HasNoHazard options.now.allowed.now bytes.now) }
    ensures refused { IfErr result (Explains options.now bytes.now) }
{
    let module = match canonical_module(alloc, keys, bytes, options.normalise) {
        Ok(module) => module,
        Err(error) => return Err(refusal(alloc, keys, bytes, options, error)),
    };
    let warning = accepted_warning(alloc, options, bytes)?;
    Ok(NewModule { module, warning })
}

/// Writes the whole module, and flushes the writer.
fn write_and_flush<W: Write>(out: &mut W, bytes: &[u8]) -> io::Result<()>
    ensures { OnOk result (Appends (W.contents out.old) (W.contents out.new) bytes.now) }
{
    out.write_all(bytes)?;
    out.flush()
}

fn main(rt: HostRuntime) -> ExitCode {
    let mut err = rt.stderr();
    let status = match start(&rt, &mut err) {
        Ok(status) => status,
        Err(failure) => report(&failure, &mut err),
    };
    ExitCode::from(status)
}

/// Does what the arguments ask for, and returns the exit status.
fn start<E: Write>(rt: &HostRuntime, err: &mut E) -> Result<u8, Failure> {
    match parse_arguments(
        rt.alloc(),
        env::args(rt),
        &[KEEP_WIDTHS, PRUNE, STRIP, STRICT],
        &[OUTPUT, ALLOW],
    )? {
        Request::Help => printed(rt.stdout().write_all(HELP.as_bytes())),
        Request::Version => printed(write_version("wasmnorm", &mut rt.stdout())),
        Request::Work {
            names,
            options,
            values,
        } => {
            let allowed = allowed_names(rt.alloc(), &values)?;
            let options = run_options(options.as_slice(), allowed.as_slice());
            let (Some(input), Some(output)) = (only_name(&names), output_name(&values)) else {
                return Ok(report_usage(USAGE, err));
            };
            normalise_file(rt, Files { input, output }, &options, err)
        }
        Request::Usage => Ok(report_usage(USAGE, err)),
        Request::NotUtf8 => Ok(report_usage(NOT_UTF8, err)),
    }
}

/// The only name, or `-` if there is none.
fn only_name(names: &[String]) -> Option<&str> {
    match names {
        [] => Some("-"),
        [name] => Some(name.as_str()),
        _ => None,
    }
}

/// The value of the only option `-o`, or `-` if there is none.
fn output_name(values: &[OptionValue]) -> Option<&str> {
    let mut name = None;
    for given in values {
        if given.option.as_str() == OUTPUT {
            if name.is_some() {
                return None;
            }
            name = Some(given.value.as_str());
        }
    }
    name.or(Some("-"))
}

/// The names of the file that is read and of the one that is written. `-` is for a standard stream.
#[derive(Clone, Copy)]
struct Files<'a> {
    input: &'a str,
    output: &'a str,
}

fn normalise_file<E: Write>(
    rt: &HostRuntime,
    files: Files<'_>,
    options: &RunOptions<'_>,
    err: &mut E,
) -> Result<u8, Failure> {
    let mut input = match open(rt, files.input, err) {
        Ok(input) => input,
        Err(error) => return Err(failed_input(error)),
    };
    let Ok(keys) = HashKeys::random(rt) else {
        return Err(Failure::Keys);
    };
    let number = keys.hash_one(files.output);
    let Ok(temporary) = temporary_name(rt.alloc(), files.output, number) else {
        return Err(Failure::Memory);
    };
    let mut out = create(rt, files.output, temporary.as_str());
    let status = run(rt.alloc(), keys, options, &mut input, &mut out, err);
    if status != 0 {
        out.discard();
        return Ok(status);
    }
    printed(out.finish())
}

fn printed(written: io::Result<()>) -> Result<u8, Failure> {
    match written {
        Ok(()) => Ok(0),
        Err(error) => Err(Failure::Output(error)),
    }
}

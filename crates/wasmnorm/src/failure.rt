//! What ends a run without a module: its line on standard error and its exit status.
ghost use Rattle.std.specs.Prelude.{◌≡◌, ◌≤◌, ◌⊎◌};
ghost use Rattle.wasm_normalise.specs.CanonicalModules.{IsRefusedBy};
ghost use Rattle.wasmnorm.specs.Runs.{refused_status};
ghost use Rattle.wasmnorm.specs.Steps.Failures.{Explains, HasContext, IsOfStreams, status_of};

use crate::custom_section::write_outdated;
use crate::fault::first_error;
use crate::options::RunOptions;
use crate::warning::Warning;
use error_context::{Context, context_of, context_of_error};
use std::alloc::{AllocError, Global};
use std::fmt;
use std::fmt::Formatter;
use std::io::{self, ErrorKind, Write};
use wasm_normalise::{HashKeys, NormaliseModuleError, NormaliseOptions, Widths, canonical_module};

/// What ends a run without a module.
#[derive(Debug, Drop)]
pub enum Failure {
    /// No module was made.
    Refused {
        /// Why.
        error: NormaliseModuleError,
        /// What else is known of the input.
        context: Context,
        /// What may help.
        advice: Advice,
    },
    /// The module is rejected, and not just warned of.
    Rejected(Warning),
    /// Memory was refused.
    Memory,
    /// The system has no random bytes.
    Keys,
    /// The input could not be opened, or a read failed.
    Input(io::Error),
    /// A write of the output or of a warning failed.
    Output(io::Error),
}

/// The options that may help where a module was refused.
#[derive(Clone, Copy, PartialEq, Eq, Debug)]
pub enum Advice {
    /// None.
    Nothing,
    /// `--strip`.
    Strip,
    /// `--keep-widths` and `--strip`.
    KeepWidthsOrStrip,
}

impl fmt::Display for Advice {
    fn fmt<W: fmt::Write>(&self, f: &mut Formatter<W>) -> fmt::Result {
        match self {
            Advice::Nothing => Ok(()),
            Advice::Strip => write!(f, "; --strip may help"),
            Advice::KeepWidthsOrStrip => write!(f, "; --keep-widths or --strip may help"),
        }
    }
}

impl fmt::Display for Failure {
    fn fmt<W: fmt::Write>(&self, f: &mut Formatter<W>) -> fmt::Result {
        match self {
            Failure::Refused {
                error: NormaliseModuleError::Outdated { offset },
                context,
                advice,
                ..
            } => {
                write_outdated(f, *offset, context)?;
                write!(f, "{advice}")
            }
            Failure::Refused {
                error,
                context,
                advice,
            } => write!(f, "{error}{context}{advice}"),
            Failure::Rejected(warning) => write!(f, "{warning}"),
            Failure::Memory => write!(f, "out of memory"),
            Failure::Keys => write!(f, "no random keys"),
            Failure::Input(error) => write!(f, "input failed: {error}"),
            Failure::Output(error) => write!(f, "output failed: {error}"),
        }
    }
}

impl From<AllocError> for Failure {
    ghost use Rattle.std.specs.Prelude.{◌≡◌};
    ghost use Rattle.wasmnorm.specs.declared.failure.Failure.TheVariants.{Memory};

    ghost from_gives = { λ _ e. e ≡ Memory };

    fn from(_: AllocError) -> Failure {
        Failure::Memory
    }
}

/// The failure where no module was made with these options.
pub fn refusal(
    alloc: Global,
    keys: HashKeys,
    bytes: &[u8],
    options: &RunOptions<'_>,
    error: NormaliseModuleError,
) -> Failure
    ensures explains { IsRefusedBy options.now.normalise bytes.now error →
        Explains options.now bytes.now result }
{
    let error = first_error(alloc, keys, options.normalise, bytes, error);
    let Ok(advice) = advice_for(alloc, keys, options.normalise, bytes, error) else {
        return Failure::Memory;
    };
    Failure::Refused {
        error,
        context: context_beside(bytes, error),
        advice,
    }
}

/// What is known of the input beside an error.
fn context_beside(bytes: &[u8], error: NormaliseModuleError) -> Context
    ensures { HasContext bytes.now error result }
{
    match error {
        NormaliseModuleError::Types(error) => context_of_error(bytes, error),
        // A fault can be at the end of its section. The byte before it is in the section.
        NormaliseModuleError::Malformed { offset } => {
            context_of(bytes, offset.saturating_sub(1)).with_proposal(bytes, offset)
        }
        NormaliseModuleError::UnknownType { offset, .. } => {
            context_of(bytes, offset.saturating_sub(1))
        }
        NormaliseModuleError::Outdated { offset } => context_of(bytes, offset),
        _ => Context::Nothing,
    }
}

/// The options that may help where a module was refused with these. `--keep-widths` is tried.
fn advice_for(
    alloc: Global,
    keys: HashKeys,
    options: NormaliseOptions,
    bytes: &[u8],
    error: NormaliseModuleError,
) -> Result<Advice, AllocError> {
    let NormaliseModuleError::Outdated { .. } = error else {
        return Ok(Advice::Nothing);
    };
    let with_widths = NormaliseOptions {
        widths: Widths::Kept,
        ..options
    };
    match canonical_module(alloc, keys, bytes, with_widths) {
        Ok(_) => Ok(Advice::KeepWidthsOrStrip),
        Err(NormaliseModuleError::Memory) => Err(AllocError),
        Err(_) => Ok(Advice::Strip),
    }
}

/// What a failed read ends the run with. Its status is 3 if memory was refused, and 4 otherwise.
pub fn failed_input(error: io::Error) -> Failure
    ensures { IsOfStreams result }
{
    if error.kind() == ErrorKind::OutOfMemory {
        return Failure::Memory;
    }
    Failure::Input(error)
}

/// Writes the line that explains the failure, and returns its exit status, which is 4 where that
/// write failed.
#[tactic(auto, using(crate::proofs::Failures::status_range))]
pub fn report<E: Write>(failure: &Failure, err: &mut E) -> u8
    ensures status { (result ≡ status_of failure.now) ⊎ (result ≡ 4) }
    ensures range { result ≤ 4 }
{
    if writeln!(err, "{failure}").is_err() {
        return 4;
    }
    status(failure)
}

fn status(failure: &Failure) -> u8
    ensures { result ≡ status_of failure.now }
{
    match failure {
        Failure::Refused { error, .. } => refusal_status(*error),
        Failure::Rejected(_) => 1,
        Failure::Memory => 3,
        Failure::Keys | Failure::Input(_) | Failure::Output(_) => 4,
    }
}

fn refusal_status(error: NormaliseModuleError) -> u8
    ensures { result ≡ refused_status error }
{
    match error {
        NormaliseModuleError::Types(_)
        | NormaliseModuleError::Malformed { .. }
        | NormaliseModuleError::TooLong
        | NormaliseModuleError::Outdated { .. } => 1,
        NormaliseModuleError::BadIndex { .. }
        | NormaliseModuleError::TooMany
        | NormaliseModuleError::UnknownType { .. } => 2,
        NormaliseModuleError::Memory => 3,
    }
}

//! What ends a run without a text: its line on standard error and its exit status.
ghost use Rattle.std.specs.Prelude.{◌≡◌, ◌⊎◌, IfSome};
ghost use Rattle.wasm_binary.specs.Faults.{error_offset};
ghost use Rattle.wasm_binary.specs.ModuleSections.{HasBadTypes};
ghost use Rattle.wasmtypes.specs.Steps.Failures.{Explains, IsOfStreams, decode_status, status_of};

use error_context::{Context, context_of_error};
use std::alloc::AllocError;
use std::fmt;
use std::fmt::Formatter;
use std::io::{self, ErrorKind, Write};
use wasm_binary::DecodeError;

/// What ends a run without a text.
#[derive(Debug, Drop)]
pub enum Failure {
    /// The types of the module could not be read.
    Refused {
        /// Why.
        error: DecodeError,
        /// What else is known of the input.
        context: Context,
    },
    /// Memory was refused.
    Memory,
    /// The input could not be opened, or a read failed.
    Input(io::Error),
    /// A write of the output failed.
    Output(io::Error),
}

impl fmt::Display for Failure {
    fn fmt<W: fmt::Write>(&self, f: &mut Formatter<W>) -> fmt::Result {
        match self {
            Failure::Refused { error, context } => write!(f, "{error}{context}"),
            Failure::Memory => write!(f, "out of memory"),
            Failure::Input(error) => write!(f, "input failed: {error}"),
            Failure::Output(error) => write!(f, "output failed: {error}"),
        }
    }
}

impl From<AllocError> for Failure {
    ghost use Rattle.std.specs.Prelude.{◌≡◌};
    ghost use Rattle.wasmtypes.specs.declared.failure.Failure.TheVariants.{Memory};

    ghost from_gives = { λ _ e. e ≡ Memory };

    fn from(_: AllocError) -> Failure {
        Failure::Memory
    }
}

/// The failure of a module whose types could not be read.
pub fn refusal(bytes: &[u8], error: DecodeError) -> Failure
    ensures explains { IfSome (error_offset error) (λ place. HasBadTypes bytes.now) →
        Explains result bytes.now }
    ensures status { status_of result ≡ decode_status error }
{
    Failure::Refused {
        error,
        context: context_of_error(bytes, error),
    }
}

/// What a failed read ends the run with. Its status is 3 if memory was refused, and 4 otherwise.
pub fn failed_input(error: io::Error) -> Failure
    ensures { IsOfStreams result }
{
    if error.kind() == ErrorKind::OutOfMemory {
        return Failure::Memory;
    }
    Failure::Input(error)
}

/// Writes the line that explains the failure, and returns its exit status, which is 4 where that
/// write failed.
#[tactic(auto, using(crate::proofs::Failures::status_range))]
pub fn report<E: Write>(failure: &Failure, err: &mut E) -> u8
    ensures status { (result ≡ status_of failure.now) ⊎ (result ≡ 4) }
    ensures range { (result ≡ 1) ⊎ (result ≡ 3) ⊎ (result ≡ 4) }
{
    if writeln!(err, "{failure}").is_err() {
        return 4;
    }
    status(failure)
}

fn status(failure: &Failure) -> u8
    ensures { result ≡ status_of failure.now }
{
    match failure {
        Failure::Refused {
            error: DecodeError::Memory,
            ..
        } => 3,
        Failure::Refused { .. } => 1,
        Failure::Memory => 3,
        Failure::Input(_) | Failure::Output(_) => 4,
    }
}

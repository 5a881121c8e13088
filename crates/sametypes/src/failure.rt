//! What ends a run without a result: its line on standard error.
ghost use Rattle.std.specs.Prelude.{◌≡◌};

use error_context::Context;
use std::fmt;
use std::fmt::Formatter;
use std::io::{self, ErrorKind, Write};
use walrus_normal_form::ReadError;
use walrus_text::TextError;
use wasm_binary::DecodeError;

/// The exit status of a run without a result, as the command `cmp` has it.
pub const STATUS: u8 = 2;

/// What ends a run without a result.
#[derive(Debug, Drop)]
pub enum Failure {
    /// The first has no section.
    First(InputError),
    /// The second has no section.
    Second(InputError),
    /// Memory for the arguments was refused.
    Memory,
    /// The system has no random bytes.
    Keys,
    /// The result could not be written.
    Output(io::Error),
}

/// Why a section could not be had.
#[derive(Debug, Drop)]
pub enum InputError {
    /// The bytes are no module, or its types can't be read.
    Module {
        /// Why.
        error: DecodeError,
        /// What else is known of the input.
        context: Context,
    },
    /// The text is not the text of a section.
    Text(TextError),
    /// The section has no normal form.
    Section(ReadError),
    /// A file could not be opened, or a read failed.
    Input(io::Error),
    /// Memory was refused.
    Memory,
}

/// The names of the two inputs, as the arguments give them.
#[derive(Clone, Copy, Debug)]
pub struct Names<'a> {
    /// The name of the first.
    pub a: &'a str,
    /// The name of the second.
    pub b: &'a str,
}

/// Writes the line that explains the failure, and returns [`STATUS`]. A line that can't be written
/// changes nothing: there is no other place to report it.
pub fn report<E: Write>(failure: &Failure, names: Names<'_>, err: &mut E) -> u8
    ensures { result ≡ 2 }
{
    let _written = match failure {
        Failure::First(trouble) => writeln!(err, "{}: {trouble}", names.a),
        Failure::Second(trouble) => writeln!(err, "{}: {trouble}", names.b),
        Failure::Memory => writeln!(err, "out of memory"),
        Failure::Keys => writeln!(err, "no random keys"),
        Failure::Output(error) => writeln!(err, "output failed: {error}"),
    };
    STATUS
}

impl fmt::Display for InputError {
    fn fmt<W: fmt::Write>(&self, f: &mut Formatter<W>) -> fmt::Result {
        match self {
            InputError::Module { error, context } => write!(f, "{error}{context}"),
            InputError::Text(error) => write!(f, "{error}"),
            InputError::Section(error) => write!(f, "{error}"),
            InputError::Input(error) => write!(f, "input failed: {error}"),
            InputError::Memory => write!(f, "out of memory"),
        }
    }
}

impl From<TextError> for InputError {
    fn from(error: TextError) -> InputError {
        InputError::Text(error)
    }
}

impl From<ReadError> for InputError {
    fn from(error: ReadError) -> InputError {
        InputError::Section(error)
    }
}

impl From<io::Error> for InputError {
    fn from(error: io::Error) -> InputError {
        if error.kind() == ErrorKind::OutOfMemory {
            return InputError::Memory;
        }
        InputError::Input(error)
    }
}

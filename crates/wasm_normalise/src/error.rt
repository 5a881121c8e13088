//! Why no module with its types in canonical form was made, with the place.
ghost use Rattle.std.specs.Prelude.{◌≡◌};
ghost use Rattle.wasm_normalise.specs.Steps.Errors.{encode_failure, read_failure, types_failure};
ghost use Rattle.wasm_normalise.specs.declared.error.NormaliseModuleError.TheVariants as failure;

use std::alloc::AllocError;
use std::fmt;
use std::fmt::{Display, Formatter};
use thiserror::Error;
use walrus_canonical::ReadError;
use wasm_binary::{DecodeError, EncodeError};

/// Why no module with its types in canonical form was made.
#[derive(Clone, Copy, PartialEq, Eq, Debug, Error)]
pub enum NormaliseModuleError {
    /// The bytes are no module, or its types could not be read. It is never
    /// [`DecodeError::Memory`].
    #[error("{0}")]
    Types(DecodeError),
    /// An entry of the type section names an index at or past the end of its group.
    #[error("entry {entry} names {index}, end {end}")]
    BadIndex {
        /// The index of the entry in the type section.
        entry: u32,
        /// The index that it names.
        index: u32,
        /// One past the last index of its group.
        end: u32,
    },
    /// The type section has 2^32 entries or more, so that no `u32` counts them.
    #[error("too many entries")]
    TooMany,
    /// A section other than the type section is malformed. No other is wrong before it.
    #[error("byte {offset}: malformed")]
    Malformed {
        /// The place where it stops being one, counted from 0.
        /// [`ScanError::Malformed`](wasm_module::ScanError::Malformed) says which byte that is.
        offset: usize,
    },
    /// A section other than the type section names a type that the type section does not have. No
    /// other is wrong before it.
    #[error("byte {offset}: no type {index}: the module has {types}", types = TypeCount(*.count))]
    UnknownType {
        /// The index of the type.
        index: u32,
        /// How many types the module has.
        count: u32,
        /// The place of the first byte of the index, counted from 0.
        offset: usize,
    },
    /// A function body or a section gets 2^32 bytes or more, so that no size counts them.
    #[error("a function body or a section would be too long")]
    TooLong,
    /// The module has a custom section that describes other bytes of it, such as debug data, and
    /// these change, so that it no longer fits.
    #[error("the custom section at byte {offset} describes bytes that change")]
    Outdated {
        /// The place of the first such section, counted from 0.
        offset: usize,
    },
    /// Memory was refused.
    #[error("out of memory")]
    Memory,
}

/// A number of types, in words.
#[derive(Clone, Copy)]
struct TypeCount(u32);

impl Display for TypeCount {
    fn fmt<W: fmt::Write>(&self, f: &mut Formatter<W>) -> fmt::Result {
        match self.0 {
            1 => write!(f, "1 type"),
            count => write!(f, "{count} types"),
        }
    }
}

impl From<DecodeError> for NormaliseModuleError {
    ghost from_gives = { λ e new. new ≡ types_failure e };

    fn from(error: DecodeError) -> NormaliseModuleError {
        match error {
            DecodeError::Memory => NormaliseModuleError::Memory,
            _ => NormaliseModuleError::Types(error),
        }
    }
}

impl From<ReadError> for NormaliseModuleError {
    ghost from_gives = { λ e new. new ≡ read_failure e };

    fn from(error: ReadError) -> NormaliseModuleError {
        match error {
            ReadError::BadIndex { entry, index, end } => {
                NormaliseModuleError::BadIndex { entry, index, end }
            }
            ReadError::TooMany => NormaliseModuleError::TooMany,
            ReadError::Memory => NormaliseModuleError::Memory,
        }
    }
}

impl From<EncodeError> for NormaliseModuleError {
    ghost from_gives = { λ e new. new ≡ encode_failure e };

    fn from(error: EncodeError) -> NormaliseModuleError {
        match error {
            EncodeError::TooMany => NormaliseModuleError::TooLong,
            EncodeError::Memory => NormaliseModuleError::Memory,
        }
    }
}

impl From<AllocError> for NormaliseModuleError {
    ghost from_gives = { λ _ e. e ≡ failure.Memory };

    fn from(_: AllocError) -> NormaliseModuleError {
        NormaliseModuleError::Memory
    }
}

//! Why a section is not read.
ghost use Rattle.std.specs.Prelude.{◌≡◌};
ghost use Rattle.walrus_sections.specs.declared.error.ReadError.TheVariants as read;

use std::alloc::{AllocError, AllocFailed};
use thiserror::Error;

/// Why a section was not read.
#[derive(Clone, Copy, PartialEq, Eq, Debug, Error)]
pub enum ReadError {
    /// An entry names an index at or past the end of its group.
    #[error("entry {entry} names {index}, end {end}")]
    BadIndex {
        /// The index of the entry in the section.
        entry: u32,
        /// The index that it names.
        index: u32,
        /// One past the last index of its group.
        end: u32,
    },
    /// The section has 2^32 entries or more, so that no `u32` counts them.
    #[error("too many entries")]
    TooMany,
    /// Memory was refused.
    #[error("out of memory")]
    Memory,
}

impl From<AllocError> for ReadError {
    ghost from_gives = { λ _ e. e ≡ read.Memory };

    fn from(_: AllocError) -> ReadError {
        ReadError::Memory
    }
}

impl<T: Drop> From<AllocFailed<T>> for ReadError {
    ghost from_gives = { λ _ e. e ≡ read.Memory };

    fn from(_: AllocFailed<T>) -> ReadError {
        ReadError::Memory
    }
}

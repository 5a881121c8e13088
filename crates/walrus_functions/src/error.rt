//! Why a call of a builder is refused.
ghost use Rattle.std.specs.Prelude.{◌≡◌};
ghost use Rattle.walrus_functions.specs.declared.error.BuildError.TheVariants as build;

use std::alloc::{AllocError, AllocFailed};
use thiserror::Error;

/// Why an instruction could not be added.
///
/// Closures that fill new sequences return it too: their error is passed on unchanged.
#[derive(Clone, Copy, PartialEq, Eq, Debug, Error)]
pub enum BuildError {
    /// The sequence for the instruction isn't known. Only calls that take closures return this: a
    /// closure can replace the function by one that has no such sequence.
    #[error("unknown parent")]
    NoParent,
    /// The position is past the end of the sequence once the closures have run.
    #[error("position past the end")]
    Position,
    /// Memory was refused.
    #[error("out of memory")]
    Memory,
}

impl From<AllocError> for BuildError {
    ghost from_gives = { λ _ e. e ≡ build.Memory };

    fn from(_: AllocError) -> BuildError {
        BuildError::Memory
    }
}

/// What a refused `push` of std returns. The item that it hands back is dropped.
impl<T: Drop> From<AllocFailed<T>> for BuildError {
    ghost from_gives = { λ _ e. e ≡ build.Memory };

    fn from(refused: AllocFailed<T>) -> BuildError {
        BuildError::from(AllocError::from(refused))
    }
}

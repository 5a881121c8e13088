//! Why a table is not written.
ghost use Rattle.std.specs.Prelude.{◌≡◌};
ghost use Rattle.walrus_types.specs.declared.error.EmitError.TheVariants as emit;

use crate::TypeId;
use std::alloc::{AllocError, AllocFailed};
use thiserror::Error;

/// Why a table could not be written as a section.
#[derive(Clone, Copy, PartialEq, Eq, Debug, Error)]
pub enum EmitError {
    /// The type `from` names `to`, which has no index when `from` is written.
    #[error("type {} names {}, which has no index", .from.index(), .to.index())]
    NoIndex { from: TypeId, to: TypeId },
    /// 2^32 types or more would be written.
    #[error("too many entries")]
    TooMany,
    /// Memory was refused.
    #[error("out of memory")]
    Memory,
}

impl From<AllocError> for EmitError {
    ghost from_gives = { λ _ e. e ≡ emit.Memory };

    fn from(_: AllocError) -> EmitError {
        EmitError::Memory
    }
}

impl<T: Drop> From<AllocFailed<T>> for EmitError {
    ghost from_gives = { λ _ e. e ≡ emit.Memory };

    fn from(_: AllocFailed<T>) -> EmitError {
        EmitError::Memory
    }
}

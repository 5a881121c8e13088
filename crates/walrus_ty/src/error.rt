//! Why a conversion between types and records is refused.
ghost use Rattle.std.specs.Prelude.{◌≡◌};
ghost use Rattle.walrus_ty.specs.declared.error.FromRecordError.TheVariants as from_record;
ghost use Rattle.walrus_ty.specs.declared.error.ToRecordError.TheVariants as to_record;

use crate::{FunctionId, GlobalId, TypeId};
use std::alloc::{AllocError, AllocFailed};
use thiserror::Error;

/// An index that is not in the map.
#[derive(Clone, Copy, PartialEq, Eq, Debug, Error)]
#[error("unknown index {0}")]
pub struct UnknownIndex(pub u32);

/// An id that has no index.
#[derive(Clone, Copy, PartialEq, Eq, Debug, Error)]
pub enum NoIndex {
    #[error("no index for type {}", .0.index())]
    OfType(TypeId),
    #[error("no index for function {}", .0.index())]
    OfFunc(FunctionId),
    #[error("no index for global {}", .0.index())]
    OfGlobal(GlobalId),
}

/// Why a record could not be read.
#[derive(Clone, Copy, PartialEq, Eq, Debug, Error)]
pub enum FromRecordError {
    /// An index that is not in the map.
    #[error("{}", UnknownIndex(*.0))]
    UnknownIndex(u32),
    /// Memory was refused.
    #[error("out of memory")]
    Memory,
}

/// Why something could not be written as a record.
#[derive(Clone, Copy, PartialEq, Eq, Debug, Error)]
pub enum ToRecordError {
    /// An id that has no index.
    #[error(transparent)]
    NoIndex(NoIndex),
    /// Memory was refused.
    #[error("out of memory")]
    Memory,
}

impl From<UnknownIndex> for FromRecordError {
    ghost from_gives = { λ u e. e ≡ from_record.UnknownIndex u.0 };

    fn from(unknown: UnknownIndex) -> FromRecordError {
        FromRecordError::UnknownIndex(unknown.0)
    }
}

impl From<AllocError> for FromRecordError {
    ghost from_gives = { λ _ e. e ≡ from_record.Memory };

    fn from(_: AllocError) -> FromRecordError {
        FromRecordError::Memory
    }
}

impl<T: Drop> From<AllocFailed<T>> for FromRecordError {
    ghost from_gives = { λ _ e. e ≡ from_record.Memory };

    fn from(_: AllocFailed<T>) -> FromRecordError {
        FromRecordError::Memory
    }
}

impl From<NoIndex> for ToRecordError {
    ghost from_gives = { λ n e. e ≡ to_record.NoIndex n };

    fn from(none: NoIndex) -> ToRecordError {
        ToRecordError::NoIndex(none)
    }
}

impl From<AllocError> for ToRecordError {
    ghost from_gives = { λ _ e. e ≡ to_record.Memory };

    fn from(_: AllocError) -> ToRecordError {
        ToRecordError::Memory
    }
}

impl<T: Drop> From<AllocFailed<T>> for ToRecordError {
    ghost from_gives = { λ _ e. e ≡ to_record.Memory };

    fn from(_: AllocFailed<T>) -> ToRecordError {
        ToRecordError::Memory
    }
}

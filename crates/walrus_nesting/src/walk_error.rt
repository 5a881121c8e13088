//! Why a walk ends early.
ghost use Rattle.std.specs.Prelude.{◌≡◌};

use std::fmt::{Debug, Display};
use thiserror::Error;

/// Why a walk ended before its end.
#[derive(Clone, Copy, PartialEq, Eq, Debug, Drop, Error)]
pub enum WalkError<E: Debug + Display> {
    /// A hook refused, with this error.
    #[error("{0}")]
    Hook(E),
    /// Memory was refused.
    #[error("out of memory")]
    Memory,
}

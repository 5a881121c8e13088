//! Why no module was made, before the place of a fault in it is looked for.
ghost use Rattle.std.specs.Prelude.{◌≡◌};
ghost use Rattle.wasm_normalise.specs.Steps.Errors.{canonical_refusal, encode_refusal, rename_refusal, scan_refusal, types_refusal};
ghost use Rattle.wasm_normalise.specs.declared.error.NormaliseModuleError.TheVariants as error;
ghost use Rattle.wasm_normalise.specs.declared.refusal.Refusal.TheVariants as refusal;

use crate::NormaliseModuleError;
use std::alloc::AllocError;
use walrus_canonical::CanonicalError;
use wasm_binary::{DecodeError, EncodeError};
use wasm_module::{RenameError, ScanError};

/// Why no module was made.
#[derive(Clone, Copy, PartialEq, Eq, Debug)]
pub enum Refusal {
    /// A section other than the type section is malformed, or names a type that the type section
    /// does not have.
    Fault,
    /// Something else.
    Other(NormaliseModuleError),
}

impl From<DecodeError> for Refusal {
    ghost from_gives = { λ e new. new ≡ types_refusal e };

    fn from(error: DecodeError) -> Refusal {
        Refusal::Other(NormaliseModuleError::from(error))
    }
}

impl From<EncodeError> for Refusal {
    ghost from_gives = { λ e new. new ≡ encode_refusal e };

    fn from(error: EncodeError) -> Refusal {
        Refusal::Other(NormaliseModuleError::from(error))
    }
}

impl From<AllocError> for Refusal {
    ghost from_gives = { λ _ e. e ≡ refusal.Other error.Memory };

    fn from(_: AllocError) -> Refusal {
        Refusal::Other(NormaliseModuleError::Memory)
    }
}

impl From<CanonicalError> for Refusal {
    ghost from_gives = { λ e new. new ≡ canonical_refusal e };

    fn from(error: CanonicalError) -> Refusal {
        match error {
            CanonicalError::Section(error) => Refusal::Other(NormaliseModuleError::from(error)),
            CanonicalError::UnknownRoot { .. } => Refusal::Fault,
            CanonicalError::Memory => Refusal::Other(NormaliseModuleError::Memory),
        }
    }
}

impl From<ScanError> for Refusal {
    ghost from_gives = { λ e new. new ≡ scan_refusal e };

    fn from(error: ScanError) -> Refusal {
        match error {
            ScanError::Malformed { .. } => Refusal::Fault,
            ScanError::Memory => Refusal::Other(NormaliseModuleError::Memory),
        }
    }
}

impl From<RenameError> for Refusal {
    ghost from_gives = { λ e new. new ≡ rename_refusal e };

    fn from(error: RenameError) -> Refusal {
        match error {
            RenameError::Malformed { .. } => Refusal::Fault,
            RenameError::UnknownType { .. } => Refusal::Fault,
            RenameError::TooLong => Refusal::Other(NormaliseModuleError::TooLong),
            RenameError::Memory => Refusal::Other(NormaliseModuleError::Memory),
        }
    }
}

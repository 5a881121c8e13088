//! Why bytes could not be read.
ghost use Rattle.std.specs.Prelude.{◌≡◌, ◌≤◌, length};
ghost use Rattle.wasm_binary.specs.Steps.Refusals.{IsWithin, refusal, error_refusal};
ghost use Rattle.wasm_binary.specs.declared.error.EncodeError.TheVariants as encode;
ghost use Rattle.wasm_binary.specs.declared.error.RawReadError.TheVariants as errors;
ghost use Rattle.wasm_binary.specs.declared.error.Reason.TheVariants as reason;

use std::alloc::{AllocError, AllocFailed};
use thiserror::Error;

/// What has to be at a place of a module or of its type section.
///
/// A byte that begins none of several parts is reported as the last of them that was tried:
/// `ValType` where a storage type may be, and `CompType` where a definition may be. So
/// `StorageType` and `RecType` come at the end of the bytes alone.
#[derive(Clone, Copy, PartialEq, Eq, Debug, Error)]
pub enum Expected {
    /// An integer in LEB128: of at most five bytes, and without bits beyond its range.
    #[error("an integer")]
    Integer,
    /// A heap type: an abstract one, or an index.
    #[error("a heap type")]
    HeapType,
    /// A value type: a number, a vector or a reference.
    #[error("a value type")]
    ValType,
    /// A value type or a packed one.
    #[error("a storage type")]
    StorageType,
    /// Whether a field is mutable: 0 or 1.
    #[error("a mutability")]
    Mutability,
    /// A function, struct or array type.
    #[error("a composite type")]
    CompType,
    /// A definition, or a recursion group.
    #[error("a definition")]
    RecType,
    /// Nothing more.
    #[error("the end")]
    End,
    /// The four bytes with which each module begins.
    #[error("the magic number")]
    Magic,
    /// The four bytes after them: version 1.
    #[error("version 1")]
    Version,
    /// The byte that says which section follows.
    #[error("a section's id")]
    SectionId,
    /// A section that comes later in the order of sections.
    #[error("a later section")]
    LaterSection,
    /// As many bytes as the section's size says.
    #[error("the section's content")]
    Content,
}

/// What the binary format has, and a [`GroupAt`](walrus_ty::GroupAt) has no place for.
#[derive(Clone, Copy, PartialEq, Eq, Debug, Error)]
pub enum NotHeld {
    /// A definition with two supertypes or more.
    #[error("several supertypes")]
    Supertypes,
    /// A shared type, of the shared-everything threads proposal.
    #[error("a shared type")]
    Shared,
    /// A continuation type, of the stack switching proposal.
    #[error("a continuation type")]
    Continuation,
    /// A type that has a descriptor or is one, of the custom descriptors proposal.
    #[error("a descriptor")]
    Descriptor,
}

/// Why bytes were not read as the groups of a type section, or as a module.
#[derive(Clone, Copy, PartialEq, Eq, Debug, Error)]
pub enum DecodeError {
    /// No text of groups, or no module, goes on with the byte at this place, or ends where the
    /// bytes end.
    #[error("byte {offset}: expected {expected}")]
    Malformed {
        /// The byte's place, counted from 0. Where there are too few bytes, it is their number.
        offset: usize,
        /// What had to be there.
        expected: Expected,
    },
    /// What begins at this place is of the binary format or of a proposal to it, but no record
    /// holds it.
    #[error("byte {offset}: no record for {what}")]
    NotHeld {
        /// The place of its first byte, counted from 0. For several supertypes it is the first byte
        /// of their count.
        offset: usize,
        /// What it is.
        what: NotHeld,
    },
    /// Memory was refused.
    #[error("out of memory")]
    Memory,
}

/// Why groups were not written.
#[derive(Clone, Copy, PartialEq, Eq, Debug, Error)]
pub enum EncodeError {
    /// A list has 2^32 items or more, so that no text counts them.
    #[error("too many items")]
    TooMany,
    /// Memory was refused.
    #[error("out of memory")]
    Memory,
}

/// What is wrong at a place.
#[derive(Clone, Copy, PartialEq, Eq, Debug)]
pub enum Reason {
    Expected(Expected),
    NotHeld(NotHeld),
}

/// Where bytes stop being a text.
#[derive(Clone, Copy, PartialEq, Eq, Debug)]
pub struct Fault {
    pub reason: Reason,
    /// How many bytes are left there.
    pub left: usize,
}

/// Why a part of a section could not be read. The place of a fault is where the input is left: so
/// an error is small, and what is read moves past it in few instructions.
#[derive(Clone, Copy, PartialEq, Eq, Debug)]
pub enum RawReadError {
    Reason(Reason),
    /// Memory was refused.
    Memory,
}

impl Fault {
    /// What was expected where these bytes are left.
    pub fn at(bytes: &[u8], expected: Expected) -> Fault
        ensures { result ≡ record { left = length bytes.now; reason = reason.Expected expected } }
    {
        Fault {
            left: bytes.len(),
            reason: Reason::Expected(expected),
        }
    }

    /// The fault as an error, in bytes of this length.
    pub fn refusal(self, len: usize) -> DecodeError
        requires { self.left ≤ len }
        ensures { result ≡ refusal len self }
    {
        let offset = len - self.left;
        match self.reason {
            Reason::Expected(expected) => DecodeError::Malformed { offset, expected },
            Reason::NotHeld(what) => DecodeError::NotHeld { offset, what },
        }
    }
}

impl RawReadError {
    /// What was expected where the input is left.
    pub fn expected(expected: Expected) -> RawReadError
        ensures { result ≡ errors.Reason (reason.Expected expected) }
    {
        RawReadError::Reason(Reason::Expected(expected))
    }

    /// What is where the input is left, and no record can hold.
    pub fn not_held(what: NotHeld) -> RawReadError
        ensures { result ≡ errors.Reason (reason.NotHeld what) }
    {
        RawReadError::Reason(Reason::NotHeld(what))
    }

    /// The error for callers of the crate, where `left` of `len` bytes are left.
    pub fn refusal(self, len: usize, left: usize) -> DecodeError
        requires { IsWithin len left self }
        ensures { result ≡ error_refusal len left self }
    {
        match self {
            RawReadError::Reason(reason) => Fault { reason, left }.refusal(len),
            RawReadError::Memory => DecodeError::Memory,
        }
    }
}

impl From<AllocError> for RawReadError {
    ghost from_gives = { λ _ e. e ≡ errors.Memory };

    fn from(_: AllocError) -> RawReadError {
        RawReadError::Memory
    }
}

impl<T: Drop> From<AllocFailed<T>> for RawReadError {
    ghost from_gives = { λ _ e. e ≡ errors.Memory };

    fn from(_: AllocFailed<T>) -> RawReadError {
        RawReadError::Memory
    }
}

impl From<AllocError> for EncodeError {
    ghost from_gives = { λ _ e. e ≡ encode.Memory };

    fn from(_: AllocError) -> EncodeError {
        EncodeError::Memory
    }
}

impl<T: Drop> From<AllocFailed<T>> for EncodeError {
    ghost from_gives = { λ _ e. e ≡ encode.Memory };

    fn from(_: AllocFailed<T>) -> EncodeError {
        EncodeError::Memory
    }
}

//! Why a text could not be read.
ghost use Rattle.std.specs.Prelude.{◌≡◌};
ghost use Rattle.walrus_text.specs.declared.error.TextError.TheVariants as error;

use std::alloc::AllocError;
use thiserror::Error;

/// Why a text was not read as the groups of a section.
#[derive(Clone, Copy, PartialEq, Eq, Debug, Error)]
pub enum TextError {
    /// A line is not part of a section at its place.
    #[error("{0}")]
    BadText(BadLine),
    /// Memory was refused.
    #[error("out of memory")]
    Memory,
    /// A read failed, or reading did not come to an end.
    #[error("input failed")]
    Stream,
}

/// The first line of a text that is not part of a section at its place.
#[derive(Clone, Copy, PartialEq, Eq, Debug, Error)]
#[error("line {line}, column {column}: expected {expected}")]
pub struct BadLine {
    /// The line, counted from 1. It is one past the last line where a `rec` has no `end`.
    pub line: u64,
    /// The byte of the line where the first wrong word begins, counted from 1. It is one past the
    /// end of the line where a word is missing.
    pub column: usize,
    /// What has to be there.
    pub expected: Expected,
}

/// What has to be at a place of a text.
#[derive(Clone, Copy, PartialEq, Eq, Debug, Error)]
pub enum Expected {
    /// A definition, or a recursion group.
    #[error("a definition or rec")]
    DefinitionOrRec,
    /// In a recursion group, a definition or the group's end.
    #[error("a definition or end")]
    DefinitionOrEnd,
    /// A supertype, or a function, struct or array type.
    #[error("sub:, func, struct or array")]
    SupertypeOrComposite,
    /// A function, struct or array type.
    #[error("func, struct or array")]
    Composite,
    /// One more parameter, or the arrow after them.
    #[error("a value type or ->")]
    ValueTypeOrArrow,
    /// One more result, or no more words.
    #[error("a value type or the end of the line")]
    ValueTypeOrLineEnd,
    /// One more field, or no more words.
    #[error("a field or the end of the line")]
    FieldOrLineEnd,
    /// The field of an array.
    #[error("a field")]
    Field,
    /// No more words.
    #[error("the end of the line")]
    LineEnd,
    /// The end of a recursion group.
    #[error("end")]
    End,
}

impl From<AllocError> for TextError {
    ghost from_gives = { λ _ e. e ≡ error.Memory };

    fn from(_: AllocError) -> TextError {
        TextError::Memory
    }
}

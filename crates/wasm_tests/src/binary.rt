//! Texts of the specification's grammar, and what is no text.
mod around;
mod integers;
mod modules;
mod names;
mod refusals;
mod unsupported;

use std::alloc::Global;
use walrus_ty::GroupAt;
use wasm_binary::{DecodeError, Expected, decode_types};

/// The error of bytes that are malformed at this place.
fn malformed(offset: usize, expected: Expected) -> Option<DecodeError> {
    Some(DecodeError::Malformed { offset, expected })
}

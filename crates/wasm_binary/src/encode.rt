//! Writing what a type section has after its id and size.
ghost use Rattle.std.specs.Prelude.{◌≡◌, ◌≤◌, ℕ, List, length, IfOk, IsErrOf};
ghost use Rattle.wasm_binary.specs.Grammar.{IsTypes};
ghost use Rattle.wasm_binary.specs.Faults.{HasNoText};
ghost use Rattle.wasm_binary.specs.declared.error.EncodeError.TheVariants.{TooMany};

mod composite;
mod group;
mod list;
mod value;

use crate::encode::list::write_vec;
use crate::error::EncodeError;
use std::alloc::Global;
use walrus_ty::GroupAt;

/// Returns the shortest text of these groups: the content of a type section, without its id and
/// size (WebAssembly core specification, "Binary Format", "Type Section").
///
/// # Errors
///
/// [`EncodeError::TooMany`] comes where a list of parameters, results, fields, definitions or
/// groups has 2^32 items or more, so that no text counts them. [`EncodeError::Memory`] comes where
/// memory was refused. After an error there are no bytes.
///
/// # A padded count gets shorter
///
/// ```
/// let bytes = encode_types(alloc, &decode_types(alloc, &[0x81, 0x00, 0x5E, 0x78, 0])?)?;
/// assert_eq!(rt; bytes.as_slice(), [1, 0x5E, 0x78, 0].as_slice());
/// ```
pub fn encode_types(alloc: Global, groups: &[GroupAt]) -> Result<Vec<u8>, EncodeError>
    // What is written is a text of these groups,
    ensures text { IfOk result (λ bytes. IsTypes bytes.items groups.now) }
    // and none is shorter.
    ensures shortest { IfOk result (λ bytes. (others : List ℕ) → IsTypes others groups.now →
        length bytes.items ≤ length others) }
    // Too many are groups that have no text.
    ensures too_many { IsErrOf result TooMany → HasNoText IsTypes groups.now }
{
    let mut out = Vec::new(alloc);
    write_vec(&mut out, groups)?;
    Ok(out)
}

//! Reading what a type section has after its id and size.
ghost use Rattle.std.specs.Prelude.{◌≡◌, ◌+◌, ◌<◌, ◌≤◌, length, take, IfOk, IfErr, IfSome};
ghost use Rattle.wasm_binary.specs.Grammar.{IsTypes};
ghost use Rattle.wasm_binary.specs.Faults.{IsNoText, BeginsNoText, IsBegun};
ghost use Rattle.wasm_binary.specs.Faults.{IsSeenThere, NamesUnsupported, error_offset};
ghost use Rattle.wasm_binary.specs.Steps.Reading.{GivesAll, types_at};

mod composite;
mod group;
mod list;
mod value;

use crate::decode::list::read_vec;
use crate::error::{DecodeError, Expected, RawReadError};
use std::alloc::Global;
use walrus_ty::GroupAt;

/// Reads the groups of a type section. `bytes` are the content of the section: everything after its
/// id and size (WebAssembly core specification, "Binary Format", "Type Section").
///
/// Integers may be padded as far as the specification allows. It is not checked whether an index is
/// in range. A count takes memory for at most a thousand items before they are read, and for none
/// where fewer bytes follow it than it counts.
///
/// # Errors
///
/// Places are counted in bytes from 0. After an error there are no groups.
///
/// [`DecodeError::Malformed`] and [`DecodeError::NotHeld`] say at which byte the bytes stop being a
/// text of groups: some text begins with the bytes before it, and none with it too. For several
/// supertypes the byte is the first of their count: no text goes on with that count, but one may
/// with its first byte. A count of them that does not end is reported where it stops being an
/// integer. [`DecodeError::Memory`] comes where memory was refused.
///
/// # A section of one function type
///
/// ```
/// let groups = decode_types(alloc, &[1, 0x60, 1, 0x7F, 0])?;
/// assert_eq!(rt; groups.len(), 1);
/// ```
pub fn decode_types(alloc: Global, bytes: &[u8]) -> Result<Vec<GroupAt>, DecodeError>
    // The groups that are returned have these bytes as a text.
    ensures found { IfOk result (λ groups. IsTypes bytes.now groups.items) }
    // Bytes that are refused are a text of no groups, unless memory was refused.
    ensures refused { IfErr result (λ e. IfSome (error_offset e) (λ offset. IsNoText bytes.now)) }
    // The place is in the bytes or at their end,
    ensures place { IfErr result (λ e. IfSome (error_offset e) (λ offset.
        offset ≤ length bytes.now)) }
    // and with the byte there no text goes on.
    ensures stuck { IfErr result (λ e. IfSome (error_offset e) (λ offset.
        IsSeenThere e → offset < length bytes.now → BeginsNoText (take (offset + 1) bytes.now))) }
    // With the bytes before it some text goes on, unless they begin several supertypes.
    ensures begun { IfErr result (λ e. IfSome (error_offset e) (λ offset.
        IsBegun (take offset bytes.now))) }
    // Where it names what no record holds, that begins there; any other error says that nothing of
    // the kind begins in the bytes.
    ensures unsupported { IfErr result (λ e. NamesUnsupported bytes.now e) }
{
    let mut input = bytes;
    match read_types(alloc, &mut input) {
        Ok(groups) => Ok(groups),
        Err(error) => Err(error.refusal(bytes.len(), input.len())),
    }
}

/// Takes all that there is.
#[tactic(auto, unfolding(crate::specs::Steps::Reading::types_at))]
fn read_types(alloc: Global, input: &mut &[u8]) -> Result<Vec<GroupAt>, RawReadError>
    ensures { GivesAll (λ groups. groups.items) result input.new.now (types_at input.old.now) }
{
    let groups = read_vec(alloc, input)?;
    if !input.is_empty() {
        return Err(RawReadError::expected(Expected::End));
    }
    Ok(groups)
}

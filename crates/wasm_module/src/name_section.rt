//! Custom sections with other indices of types.
//!
//! WebAssembly core specification, "Custom Sections" and "Name Section".
ghost use Rattle.std.specs.Prelude.{◌≡◌, ◌+◌, ◌<◌, ℕ, List, [], ◌++◌, length, IfOk, IfSome, IfNone, OnOk, IsErrOf};
ghost use Rattle.wasm_module.specs.Changes.{Changes, TurnsInto, IsMalformed, BecomesTooLong};
ghost use Rattle.wasm_module.specs.NameSections.{AreNames, AreSubsections, IsSubsection, RenamesNames, RenamesSubsection, RenamesCustom, CustomBecomesTooLong, name_bytes};
ghost use Rattle.wasm_module.specs.Steps.NameSections.{BeginsNone, IsAny, TakesSized, BeginsSubsectionIn};
ghost use Rattle.wasm_module.specs.Steps.Changes.{IsChangedUpTo};
ghost use Rattle.wasm_module.specs.declared.name_maps.NamesError.TheVariants as names;
ghost use Rattle.wasm_module.specs.declared.renaming.RenameError.TheVariants.{Malformed, UnknownType, TooLong};

use crate::leb128::push_u32;
use crate::name_maps::{Follows, NamesError, rename_map, take_sized};
use crate::renaming::{RenameError, Widths, least_width, new_or_copy};
use crate::scan::place_of;
use std::alloc::Global;

/// The id of the subsection with the names of types.
pub const TYPE_NAMES: u8 = 4;

/// The id of the subsection with the names of fields.
pub const FIELD_NAMES: u8 = 10;

/// A size is below this.
const SIZE_LIMIT: usize = 1 << 32;

/// Returns the content of a custom section with other indices of types. In a name section the names
/// of types and of their fields get the new indices: where `new_indices[k]` is `Some(n)`, index k
/// becomes n. `None` is a deleted type, whose names go. All other subsections and custom sections
/// stay byte for byte (WebAssembly core specification, "Custom Sections" and "Name Section").
///
/// Entries for types are sorted by their new indices, as the specification wants. Where several
/// types become one, the names of the one with the least index stay. The count of such entries and
/// the size of their subsection are written again: with as few bytes as they need, or, with
/// [`Widths::Kept`], with as many as they had at least. A subsection that loses all its entries
/// stays, with the count 0.
///
/// A name section that can't be read stays byte for byte, as other tools pass over it:
/// [`find_unread_names`](crate::find_unread_names) finds it. The length of `new_indices` is the number
/// of types that there are.
///
/// # Errors
///
/// - [`RenameError::Malformed`] comes where the content does not begin with a name.
/// - [`RenameError::TooLong`] comes where a subsection would have 2^32 bytes or more.
/// - [`RenameError::Memory`] comes where memory was refused.
///
/// # The name of a type that changes its place
///
/// ```
/// // name, subsection 4, 5 bytes: type 0 is named ab
/// let names = [4, 0x6E, 0x61, 0x6D, 0x65, 4, 5, 1, 0, 2, 0x61, 0x62].as_slice();
/// let new = rename_custom_section(alloc, names, &[Some(3)], Widths::Shortest)?;
/// let expected = [4, 0x6E, 0x61, 0x6D, 0x65, 4, 5, 1, 3, 2, 0x61, 0x62];
/// assert_eq!(rt; new.as_slice(), expected.as_slice());
/// ```
pub fn rename_custom_section(
    alloc: Global,
    content: &[u8],
    new_indices: &[Option<u32>],
    widths: Widths,
) -> Result<Vec<u8>, RenameError>
    // The result is the content of a custom section with other indices.
    ensures renamed { IfOk result (λ new.
        TurnsInto (RenamesCustom new_indices.now widths) content.now new.items) }
    // What is refused as malformed is no content of a custom section.
    ensures malformed { (place : ℕ) → IsErrOf result (Malformed place) → IsMalformed RenamesCustom content.now }
    ensures known { (k place : ℕ) → IsErrOf result (UnknownType k place) → ⊥ }
    // What is refused for its length has a subsection that no size can count.
    ensures too_long { IsErrOf result TooLong →
        CustomBecomesTooLong new_indices.now widths content.now }
{
    let new = rename_custom(alloc, content, content.len(), new_indices, widths)?;
    Ok(new_or_copy(alloc, new, content)?)
}

/// Returns the content of a custom section with other indices of types, or `None` where it names no
/// type or can't be read, and stays. Places are counted such that the content ends at `end`.
pub fn rename_custom(
    alloc: Global,
    content: &[u8],
    end: usize,
    new_indices: &[Option<u32>],
    widths: Widths,
) -> Result<Option<Vec<u8>>, RenameError>
    // Where nothing comes back the content names no type that is written again, and stays.
    ensures stays { IfOk result (λ new. IfNone new
        (RenamesCustom new_indices.now widths content.now content.now [])) }
    // Otherwise what comes back takes its place.
    ensures changes { IfOk result (λ new. IfSome new (λ bytes.
        Changes (RenamesCustom new_indices.now widths) content.now bytes.items)) }
    // What is refused as malformed is malformed for all new indices.
    ensures malformed { (place : ℕ) → IsErrOf result (Malformed place) → IsMalformed RenamesCustom content.now }
    ensures known { (k place : ℕ) → IsErrOf result (UnknownType k place) → ⊥ }
    // A subsection that is refused as too long would have 2^32 bytes or more.
    ensures too_long { IsErrOf result TooLong →
        CustomBecomesTooLong new_indices.now widths content.now }
{
    let mut rest = content;
    let Some(name) = take_sized(&mut rest) else {
        return Err(RenameError::Malformed {
            offset: place_of(rest, end),
        });
    };
    if name != b"name".as_slice() {
        return Ok(None);
    }
    match rename_subsections(alloc, content, rest, new_indices, widths) {
        Ok(new) => Ok(new),
        Err(NamesError::Unread) => Ok(None),
        Err(NamesError::TooLong) => Err(RenameError::TooLong),
        Err(NamesError::Memory) => Err(RenameError::Memory),
    }
}

/// The same of a section `name`, which has these subsections at its end.
fn rename_subsections(
    alloc: Global,
    content: &[u8],
    subsections: &[u8],
    new_indices: &[Option<u32>],
    widths: Widths,
) -> Result<Option<Vec<u8>>, NamesError>
    requires { TakesSized name_bytes content.now subsections.now }
    ensures stays { IfOk result (λ new. IfNone new
        (RenamesCustom new_indices.now widths content.now content.now [])) }
    ensures changes { IfOk result (λ new. IfSome new (λ bytes.
        Changes (RenamesCustom new_indices.now widths) content.now bytes.items)) }
    ensures unread { IsErrOf result names.Unread →
        ¬ AreSubsections (length new_indices.now) subsections.now }
    ensures too_long { IsErrOf result names.TooLong →
        CustomBecomesTooLong new_indices.now widths content.now }
{
    let mut rest = subsections;
    let mut out = Vec::new(alloc);
    let mut unwritten = content;
    while !rest.is_empty() {
        rename_subsection(
            alloc,
            &mut unwritten,
            &mut rest,
            new_indices,
            widths,
            &mut out,
        )?;
    }
    if out.is_empty() {
        return Ok(None);
    }
    out.extend_from_slice(unwritten)?;
    Ok(Some(out))
}

/// Takes a subsection from the front of the rest. Where it names types, all that is unwritten up to
/// its end is put at the end of what is written.
fn rename_subsection<'a>(
    alloc: Global,
    unwritten: &mut &'a [u8],
    rest: &mut &'a [u8],
    new_indices: &[Option<u32>],
    widths: Widths,
    out: &mut Vec<u8>,
) -> Result<(), NamesError>
    requires { (passed : List ℕ) × (unwritten.old.now ≡ passed ++ rest.old.now) }
    ensures renamed { OnOk result ((count : ℕ) (header content : List ℕ) →
        IsChangedUpTo (RenamesSubsection new_indices.now widths) count header content
        rest.old.now unwritten.old.now out.old.items →
        IsChangedUpTo (RenamesSubsection new_indices.now widths) (count + 1) header content
        rest.new.now unwritten.new.now out.new.items) }
    ensures shorter { OnOk result (length rest.new.now < length rest.old.now) }
    ensures unread { IsErrOf result names.Unread →
        BeginsNone (IsAny (IsSubsection (length new_indices.now))) rest.old.now }
    ensures too_long { IsErrOf result names.TooLong → BeginsSubsectionIn
        (λ id. BecomesTooLong (RenamesNames id new_indices.now widths)) rest.old.now }
{
    let [id, behind @ ..] = *rest else {
        return Err(NamesError::Unread);
    };
    let mut after = behind;
    let Some(content) = take_sized(&mut after) else {
        return Err(NamesError::Unread);
    };
    *rest = after;
    let Some(new) = rename_names(alloc, *id, content, new_indices, widths)? else {
        return Ok(());
    };
    if new.len() >= SIZE_LIMIT {
        return Err(NamesError::TooLong);
    }
    let width = behind.len() - after.len() - content.len();
    out.extend_from_slice(&unwritten[..unwritten.len() - behind.len()])?;
    push_u32(new.len() as u32, least_width(widths, width), out)?;
    out.extend_from_slice(&new)?;
    *unwritten = after;
    Ok(())
}

/// Returns what a subsection has after its size with other indices of types, or `None` where it
/// names no type.
fn rename_names(
    alloc: Global,
    id: u8,
    content: &[u8],
    new_indices: &[Option<u32>],
    widths: Widths,
) -> Result<Option<Vec<u8>>, NamesError>
    ensures stays { IfOk result (λ new. IfNone new
        (RenamesNames id new_indices.now widths content.now content.now [])) }
    ensures changes { IfOk result (λ new. IfSome new (λ bytes.
        Changes (RenamesNames id new_indices.now widths) content.now bytes.items)) }
    ensures unread { IsErrOf result names.Unread →
        ¬ AreNames (length new_indices.now) id content.now }
    ensures short { IsErrOf result names.TooLong → ⊥ }
{
    if id == TYPE_NAMES {
        return rename_map(alloc, Follows::Name, content, new_indices, widths);
    }
    if id == FIELD_NAMES {
        return rename_map(alloc, Follows::NameMap, content, new_indices, widths);
    }
    Ok(None)
}

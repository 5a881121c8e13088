//! Maps from types to names.
//!
//! WebAssembly core specification, "Name Section", name maps and indirect name maps.
ghost use Rattle.std.specs.Prelude.{◌≡◌, ◌≤◌, ◌<◌, ◌^◌, ◌++◌, [], length, IfOk, IfSome, IfNone, OnOk, IsErrOf};
ghost use Rattle.std.specs.List.{All};
ghost use Rattle.wasm_module.specs.Changes.{Changes};
ghost use Rattle.wasm_module.specs.NameSections.{IsName, IsNameMap, IsIndexedName, IsTypeMap, RenamesMap};
ghost use Rattle.wasm_module.specs.Steps.NameSections.{Takes, BeginsNone, TakesSized, BeginsUnsized, IsFollowing, TakesEntry, BeginsNoEntry, IsAny, Keeps, IsNewMap, TakesEntries, BeginsNotEntries};
ghost use Rattle.wasm_module.specs.declared.name_maps.NamesError.TheVariants.{Unread, TooLong};

use crate::leb128::{push_u32, read_u32};
use crate::renaming::{Widths, least_width};
use std::alloc::{AllocError, Global};
use std::collections::BTreeMap;
use std::marker::Model;

/// What follows the index of a type in a map.
#[derive(Clone, Copy)]
pub enum Follows {
    /// A name.
    Name,
    /// A map from indices to names.
    NameMap,
}

/// An entry of a map from types. A contract sees its parts.
#[derive(Drop)]
pub struct TypeEntry<'a> {
    // The type's index.
    index: u32,
    // How many bytes the index had.
    width: usize,
    // What follows the index.
    follows: &'a [u8],
}

impl<'a> Model for TypeEntry<'a> {
    ghost use Rattle.wasm_module.specs.NameSections.{TypeEntry as Entry, type_entry};

    ghost Value = { Entry };

    ghost view = { λ e. type_entry e.index e.width e.follows.now };
}

/// Why the names of a section `name` are not written again.
#[derive(Clone, Copy, PartialEq, Eq, Debug)]
pub enum NamesError {
    /// They can't be read.
    Unread,
    /// A subsection would have 2^32 bytes or more.
    TooLong,
    /// Memory was refused.
    Memory,
}

impl From<AllocError> for NamesError {
    ghost use Rattle.wasm_module.specs.declared.name_maps.NamesError.TheVariants.{Memory};

    ghost from_gives = { λ _ e. e ≡ Memory };

    fn from(_: AllocError) -> NamesError {
        NamesError::Memory
    }
}

/// Returns a map from types with other indices of types, or `None` where it has no entries.
pub fn rename_map(
    alloc: Global,
    follows: Follows,
    content: &[u8],
    new_indices: &[Option<u32>],
    widths: Widths,
) -> Result<Option<Vec<u8>>, NamesError>
    ensures stays { IfOk result (λ new. IfNone new (RenamesMap (IsFollowing follows)
        new_indices.now widths content.now content.now [])) }
    ensures changes { IfOk result (λ new. IfSome new (λ bytes.
        Changes (RenamesMap (IsFollowing follows) new_indices.now widths) content.now
        bytes.items)) }
    ensures unread { IsErrOf result Unread →
        ¬ IsTypeMap (IsFollowing follows) (length new_indices.now) content.now }
    ensures short { IsErrOf result TooLong → ⊥ }
{
    let mut rest = content;
    let Some(count) = read_u32(&mut rest) else {
        return Err(NamesError::Unread);
    };
    let width = content.len() - rest.len();
    let kept = take_entries(alloc, follows, count, &mut rest, new_indices)?;
    if !rest.is_empty() {
        return Err(NamesError::Unread);
    }
    if count == 0 {
        return Ok(None);
    }
    let new = write_map(alloc, &kept, least_width(widths, width), widths)?;
    Ok(Some(new))
}

/// Takes this many entries from the front. Returns for each new index the entry that is kept.
fn take_entries<'a>(
    alloc: Global,
    follows: Follows,
    count: u32,
    input: &mut &'a [u8],
    new_indices: &[Option<u32>],
) -> Result<BTreeMap<u32, TypeEntry<'a>>, NamesError>
    ensures taken { IfOk result (λ kept. TakesEntries (IsFollowing follows) new_indices.now count
        kept.entries input.old.now input.new.now) }
    ensures unread { IsErrOf result Unread →
        BeginsNotEntries (IsFollowing follows) (length new_indices.now) count input.old.now }
    ensures short { IsErrOf result TooLong → ⊥ }
{
    let mut kept = BTreeMap::new(alloc);
    for _ in 0..count {
        let Some(entry) = take_entry(follows, input, new_indices.len()) else {
            return Err(NamesError::Unread);
        };
        if let Some(new_index) = new_indices[entry.index as usize] {
            keep(&mut kept, new_index, entry)?;
        }
    }
    Ok(kept)
}

/// Passes over a map from types below `count`.
pub fn skip_map(follows: Follows, input: &mut &[u8], count: usize) -> Option<()>
    ensures taken { IfSome result (λ u.
        Takes (IsTypeMap (IsFollowing follows) count) input.old.now input.new.now) }
    ensures none { IfNone result
        (BeginsNone (IsTypeMap (IsFollowing follows) count) input.old.now) }
{
    let entries = read_u32(input)?;
    for _ in 0..entries {
        take_entry(follows, input, count)?;
    }
    Some(())
}

/// Takes an entry of a type below `count` from the front.
fn take_entry<'a>(follows: Follows, input: &mut &'a [u8], count: usize) -> Option<TypeEntry<'a>>
    ensures taken { IfSome result (λ e.
        TakesEntry (IsFollowing follows) count e input.old.now input.new.now) }
    ensures none { IfNone result (BeginsNoEntry (IsFollowing follows) count input.old.now) }
{
    let before = input.len();
    let index = read_u32(input)?;
    let width = before - input.len();
    if index as usize >= count {
        return None;
    }
    let follows = take_following(follows, input)?;
    Some(TypeEntry {
        index,
        width,
        follows,
    })
}

/// Keeps the entry, unless one of a lower or the same old index has its new index already.
fn keep<'a>(
    kept: &mut BTreeMap<u32, TypeEntry<'a>>,
    new_index: u32,
    entry: TypeEntry<'a>,
) -> Result<(), AllocError>
    ensures { OnOk result (Keeps new_index entry.entry kept.old.entries kept.new.entries) }
{
    if let Some(first) = kept.get(&new_index) {
        if first.index <= entry.index {
            return Ok(());
        }
    }
    kept.insert(new_index, entry)?;
    Ok(())
}

/// Takes what follows the index of a type from the front.
fn take_following<'a>(follows: Follows, input: &mut &'a [u8]) -> Option<&'a [u8]>
    ensures taken { IfSome result (λ text. IsFollowing follows text.now
        × (input.old.now ≡ text.now ++ input.new.now)) }
    ensures none { IfNone result (BeginsNone (IsFollowing follows) input.old.now) }
{
    let start = *input;
    skip_following(follows, input)?;
    Some(&start[..start.len() - input.len()])
}

/// Passes over what follows the index of a type. With `None` the input is left at the first fault.
fn skip_following(follows: Follows, input: &mut &[u8]) -> Option<()>
    ensures taken { IfSome result (λ u.
        Takes (IsFollowing follows) input.old.now input.new.now) }
    ensures none { IfNone result (BeginsNone (IsFollowing follows) input.old.now) }
{
    match follows {
        Follows::Name => skip_name(input),
        Follows::NameMap => skip_name_map(input),
    }
}

/// Passes over a map from indices to names.
fn skip_name_map(input: &mut &[u8]) -> Option<()>
    ensures taken { IfSome result (λ u. Takes IsNameMap input.old.now input.new.now) }
    ensures none { IfNone result (BeginsNone IsNameMap input.old.now) }
{
    let count = read_u32(input)?;
    for _ in 0..count {
        skip_indexed_name(input)?;
    }
    Some(())
}

/// Passes over a name and the index before it.
fn skip_indexed_name(input: &mut &[u8]) -> Option<()>
    ensures taken { IfSome result (λ u. Takes (IsAny IsIndexedName) input.old.now input.new.now) }
    ensures none { IfNone result (BeginsNone (IsAny IsIndexedName) input.old.now) }
{
    read_u32(input)?;
    skip_name(input)
}

/// Passes over a name.
fn skip_name(input: &mut &[u8]) -> Option<()>
    ensures taken { IfSome result (λ u. Takes IsName input.old.now input.new.now) }
    ensures none { IfNone result (BeginsNone IsName input.old.now) }
{
    take_sized(input)?;
    Some(())
}

/// Takes a size and as many bytes from the front. Returns the bytes. With `None` the input is left at
/// the first fault: where the size stops being one, or at the end, where it goes past that.
pub fn take_sized<'a>(input: &mut &'a [u8]) -> Option<&'a [u8]>
    ensures taken { IfSome result (λ content.
        TakesSized content.now input.old.now input.new.now) }
    ensures none { IfNone result (BeginsUnsized input.old.now) }
{
    let size = read_u32(input)? as usize;
    let behind = *input;
    if size > behind.len() {
        *input = &behind[behind.len()..];
        return None;
    }
    let (content, rest) = behind.split_at(size);
    *input = rest;
    Some(content)
}

/// The text of a map: how many entries it has, in this many bytes at least, and the entries.
fn write_map(
    alloc: Global,
    kept: &BTreeMap<u32, TypeEntry<'_>>,
    least: usize,
    widths: Widths,
) -> Result<Vec<u8>, AllocError>
    requires short { least ≤ 5 }
    requires few { length kept.now.entries < 2 ^ 32 }
    requires narrow { All (λ p. p.1.width ≤ 5) kept.now.entries }
    ensures { IfOk result (λ new. IsNewMap widths least kept.now.entries new.items) }
{
    let mut out = Vec::new(alloc);
    push_u32(kept.len() as u32, least, &mut out)?;
    for (new_index, entry) in kept.iter() {
        push_u32(*new_index, least_width(widths, entry.width), &mut out)?;
        out.extend_from_slice(entry.follows)?;
    }
    Ok(out)
}

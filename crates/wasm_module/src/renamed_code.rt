//! Code sections with other indices of types.
//!
//! WebAssembly core specification, "Binary Format", code section.
ghost use Rattle.std.specs.Prelude.{◌≡◌, ℕ, [], IfOk, IfSome, IfNone, IsErrOf};
ghost use Rattle.wasm_module.specs.Bodies.{body};
ghost use Rattle.wasm_module.specs.Changes.{Changes, ChangeAll, BecomesTooLong, InSized, FirstIn};
ghost use Rattle.wasm_module.specs.RenamedSections.{RenamesTexts, RenamesBody, RenamesCode, FirstBodyIn};
ghost use Rattle.wasm_module.specs.Renaming.{NamesUnknown};
ghost use Rattle.wasm_module.specs.Steps.Changes.{KeepsPrefix, ChangesPrefix};
ghost use Rattle.wasm_module.specs.Steps.Contents.{IsNoCode, BeginsWithNoBody, BeginsWithNoBodies};
ghost use Rattle.wasm_module.specs.declared.renaming.RenameError.TheVariants.{Malformed, UnknownType, TooLong};
ghost use Rattle.wasm_module.specs.declared.scan.ScanError.TheVariants as scan;

use crate::append::{append_prefix, prepend};
use crate::leb128::read_u32;
use crate::renaming::{RenameError, Widths, least_width, rename_whole_body};
use crate::scan::place_of;
use crate::sized::push_sized;
use std::alloc::Global;

/// The content of a code section with other indices of types. Returns `None` where its bodies name
/// no type. Places are counted such that the content ends at `end`.
pub fn rename_code(
    alloc: Global,
    content: &[u8],
    end: usize,
    new_indices: &[Option<u32>],
    widths: Widths,
) -> Result<Option<Vec<u8>>, RenameError>
    ensures stays { IfOk result (λ new. IfNone new
        (RenamesCode new_indices.now widths content.now content.now [])) }
    ensures changes { IfOk result (λ new. IfSome new (λ bytes.
        Changes (RenamesCode new_indices.now widths) content.now bytes.items)) }
    ensures malformed { (place : ℕ) → IsErrOf result (Malformed place) → IsNoCode content.now (scan.Malformed place) }
    ensures unknown { (k place : ℕ) → IsErrOf result (UnknownType k place) →
        FirstBodyIn new_indices.now widths
        (λ b. NamesUnknown new_indices.now body b k) content.now }
    ensures too_long { IsErrOf result TooLong → FirstBodyIn new_indices.now widths
        (BecomesTooLong (RenamesTexts new_indices.now widths body)) content.now }
{
    let mut rest = content;
    let Some(count) = read_u32(&mut rest) else {
        return Err(RenameError::Malformed {
            offset: place_of(rest, end),
        });
    };
    let bodies = rest;
    let new_bodies = rename_bodies(alloc, count, &mut rest, end, new_indices, widths)?;
    if !rest.is_empty() {
        return Err(RenameError::Malformed {
            offset: place_of(rest, end),
        });
    }
    let Some(new_bodies) = new_bodies else {
        return Ok(None);
    };
    let new = prepend(&content[..content.len() - bodies.len()], new_bodies)?;
    Ok(Some(new))
}

/// Takes this many function bodies from the front. Returns them with other indices of types, or
/// `None` where they name no type.
fn rename_bodies(
    alloc: Global,
    count: u32,
    input: &mut &[u8],
    end: usize,
    new_indices: &[Option<u32>],
    widths: Widths,
) -> Result<Option<Vec<u8>>, RenameError>
    ensures stays { IfOk result (λ new. IfNone new (KeepsPrefix
        (ChangeAll (RenamesBody new_indices.now widths) count) input.old.now input.new.now)) }
    ensures changes { IfOk result (λ new. IfSome new (λ bytes. ChangesPrefix
        (ChangeAll (RenamesBody new_indices.now widths) count) input.old.now input.new.now
        bytes.items)) }
    ensures malformed { (place : ℕ) → IsErrOf result (Malformed place) →
        BeginsWithNoBodies count input.old.now (scan.Malformed place) }
    ensures unknown { (k place : ℕ) → IsErrOf result (UnknownType k place) →
        FirstIn (RenamesBody new_indices.now widths)
        (InSized (λ b. NamesUnknown new_indices.now body b k)) count input.old.now }
    ensures too_long { IsErrOf result TooLong → FirstIn (RenamesBody new_indices.now widths)
        (InSized (BecomesTooLong (RenamesTexts new_indices.now widths body))) count input.old.now }
{
    let mut out = Vec::new(alloc);
    let mut unwritten = *input;
    for _ in 0..count {
        let before = *input;
        if let Some(new) = rename_sized_body(alloc, input, end, new_indices, widths)? {
            append_prefix(unwritten, unwritten.len() - before.len(), &mut out)?;
            out.extend_from_slice(&new)?;
            unwritten = *input;
        }
    }
    if out.as_slice().is_empty() {
        return Ok(None);
    }
    out.extend_from_slice(&unwritten[..unwritten.len() - input.len()])?;
    Ok(Some(out))
}

/// Takes a function body and its size from the front. Returns both with other indices of types, or
/// `None` where the body names no type.
fn rename_sized_body(
    alloc: Global,
    input: &mut &[u8],
    end: usize,
    new_indices: &[Option<u32>],
    widths: Widths,
) -> Result<Option<Vec<u8>>, RenameError>
    ensures stays { IfOk result (λ new. IfNone new (KeepsPrefix
        (RenamesBody new_indices.now widths) input.old.now input.new.now)) }
    ensures changes { IfOk result (λ new. IfSome new (λ bytes. ChangesPrefix
        (RenamesBody new_indices.now widths) input.old.now input.new.now bytes.items)) }
    ensures malformed { (place : ℕ) → IsErrOf result (Malformed place) →
        BeginsWithNoBody input.old.now (scan.Malformed place) }
    ensures unknown { (k place : ℕ) → IsErrOf result (UnknownType k place) →
        InSized (λ b. NamesUnknown new_indices.now body b k) input.old.now }
    ensures too_long { IsErrOf result TooLong →
        InSized (BecomesTooLong (RenamesTexts new_indices.now widths body)) input.old.now }
{
    let bytes = *input;
    let Some(size) = read_u32(input) else {
        return Err(RenameError::Malformed {
            offset: place_of(input, end),
        });
    };
    let size = size as usize;
    let behind = *input;
    if size > behind.len() {
        return Err(RenameError::Malformed { offset: end });
    }
    let (body, rest) = behind.split_at(size);
    let new_body = rename_whole_body(alloc, body, place_of(rest, end), new_indices, widths)?;
    *input = rest;
    let Some(new_body) = new_body else {
        return Ok(None);
    };
    let least = least_width(widths, bytes.len() - behind.len());
    let mut new = Vec::new(alloc);
    push_sized(&new_body, least, &mut new)?;
    Ok(Some(new))
}

//! How many bytes the indices of types and the sizes in a module have.
//!
//! WebAssembly core specification, "Binary Format", code section and modules.
ghost use Rattle.std.specs.Prelude.{◌≡◌, ◌≤◌, ◌++◌, ◌∷◌, [], length, OnOk, IfOk, IfSome, IfNone, None, Some};
ghost use Rattle.wasm_module.specs.Lengths.{HasTypeLengths, HasCodeLengths, HasContentLengths, HaveLengths, HasContent, HasLengthsInCode, HasLengthsToCodeEnd};
ghost use Rattle.wasm_module.specs.NamedTypes.{code_id};
ghost use Rattle.wasm_module.specs.Sections.{placed};
ghost use Rattle.wasm_module.specs.Steps.Heads.{kinds_or_none};
ghost use Rattle.wasm_module.specs.Steps.Lengths.{TakesBody};
ghost use Rattle.wasm_module.specs.Steps.Renaming.{Appends};
ghost use Rattle.wasm_module.specs.Steps.Tables.{row_kinds};

use crate::contents::section_kinds;
use crate::framing::{Section, sections};
use crate::kind::{Immediates, Kind};
use crate::leb128::read_u32;
use crate::scan::{ScanError, next_type};
use crate::stack::Stack;
use std::alloc::{AllocError, Global};

/// The id of the code section.
const CODE: u8 = 10;

/// The bytes can't be read. Nobody asks where.
const UNREAD: ScanError = ScanError::Malformed { offset: 0 };

/// The lengths of all sections up to the end of the code section. There is none where the module
/// has no code section.
pub fn lengths_to_code_end(alloc: Global, bytes: &[u8]) -> Result<Vec<usize>, ScanError>
    ensures { IfOk result (λ lengths. HasLengthsToCodeEnd bytes.now lengths.items) }
{
    let Ok(found) = sections(bytes) else {
        return Err(UNREAD);
    };
    let mut left = found;
    let mut lengths = Vec::new(alloc);
    while let Some(section) = left.next() {
        measure_section(alloc, section, &mut lengths)?;
        if section.id == CODE {
            return Ok(lengths);
        }
    }
    Ok(Vec::new(alloc))
}

/// The lengths in the code section of a module. There is none where the module has no code section.
pub fn lengths_in_code(alloc: Global, bytes: &[u8]) -> Result<Vec<usize>, ScanError>
    ensures { IfOk result (λ lengths. HasLengthsInCode bytes.now lengths.items) }
{
    let Some(code) = content_of(bytes, CODE)? else {
        return Ok(Vec::new(alloc));
    };
    let mut lengths = Vec::new(alloc);
    measure_content(alloc, CODE, code, &mut lengths)?;
    Ok(lengths)
}

/// The content of the first section of this id, if the module has one.
pub fn content_of<'a>(bytes: &'a [u8], id: u8) -> Result<Option<&'a [u8]>, ScanError>
    ensures found { IfOk result (λ found. IfSome found (λ content.
        HasContent id bytes.now (Some content.now))) }
    ensures none { IfOk result (λ found. IfNone found (HasContent id bytes.now None)) }
{
    let Ok(found) = sections(bytes) else {
        return Err(UNREAD);
    };
    let mut left = found;
    while let Some(section) = left.next() {
        if section.id == id {
            return Ok(Some(section.content));
        }
    }
    Ok(None)
}

/// Puts the lengths of a section at the end: of its id and its size, of its content, and in its
/// content.
fn measure_section(
    alloc: Global,
    section: Section<'_>,
    lengths: &mut Vec<usize>,
) -> Result<(), ScanError>
    requires { section.offset ≤ section.content_offset }
    ensures { OnOk result (Appends (HaveLengths (placed section.entry.offset
        section.entry.content_offset section.entry.id section.entry.content.now ∷ []))
        lengths.old.items lengths.new.items) }
{
    push(section.content_offset - section.offset, lengths)?;
    push(section.content.len(), lengths)?;
    measure_content(alloc, section.id, section.content, lengths)
}

/// Puts the lengths in the content of a section of this id at the end.
fn measure_content(
    alloc: Global,
    id: u8,
    content: &[u8],
    lengths: &mut Vec<usize>,
) -> Result<(), ScanError>
    ensures { OnOk result (Appends (HasContentLengths id content.now)
        lengths.old.items lengths.new.items) }
{
    if id == CODE {
        return measure_code(alloc, content, lengths);
    }
    match section_kinds(id) {
        Immediates::NoInstruction => Ok(()),
        row => measure_text(Stack::from_immediates(alloc, row)?, content, lengths),
    }
}

/// Puts the lengths in the content of a code section at the end.
fn measure_code(alloc: Global, content: &[u8], lengths: &mut Vec<usize>) -> Result<(), ScanError>
    ensures { OnOk result (Appends (HasCodeLengths content.now)
        lengths.old.items lengths.new.items) }
{
    let mut rest = content;
    let Some(count) = read_u32(&mut rest) else {
        return Err(UNREAD);
    };
    for _ in 0..count {
        measure_body(alloc, &mut rest, lengths)?;
    }
    if !rest.is_empty() {
        return Err(UNREAD);
    }
    Ok(())
}

/// Takes a function body and its size from the front. Puts the length of the size and the lengths
/// in the body at the end.
fn measure_body(alloc: Global, input: &mut &[u8], lengths: &mut Vec<usize>) -> Result<(), ScanError>
    ensures { OnOk result (TakesBody input.old.now input.new.now
        lengths.old.items lengths.new.items) }
{
    let bytes = *input;
    let Some(size) = read_u32(input) else {
        return Err(UNREAD);
    };
    let size = size as usize;
    let behind = *input;
    if size > behind.len() {
        return Err(UNREAD);
    }
    let (body, rest) = behind.split_at(size);
    push(bytes.len() - behind.len(), lengths)?;
    let mut kinds = Stack::new(alloc, Kind::Expression);
    kinds.push(Kind::Locals)?;
    measure_text(kinds, body, lengths)?;
    *input = rest;
    Ok(())
}

/// Puts the lengths of the indices of types at the end. The bytes are a text of the kinds on the
/// stack.
fn measure_text(kinds: Stack, bytes: &[u8], lengths: &mut Vec<usize>) -> Result<(), ScanError>
    ensures { OnOk result (Appends (HasTypeLengths kinds bytes.now)
        lengths.old.items lengths.new.items) }
{
    let mut rest = bytes;
    let mut stack = kinds;
    while let Some(found) = next_type(&mut stack, &mut rest, bytes.len())? {
        push(found.length, lengths)?;
    }
    if !rest.is_empty() {
        return Err(UNREAD);
    }
    Ok(())
}

fn push(length: usize, lengths: &mut Vec<usize>) -> Result<(), AllocError>
    ensures { OnOk result (lengths.new.items ≡ lengths.old.items ++ length ∷ []) }
{
    lengths.push(length)?;
    Ok(())
}

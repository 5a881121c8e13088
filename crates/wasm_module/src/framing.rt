//! The sections of a module one by one.
//!
//! WebAssembly core specification, "Binary Format", sections and modules.
ghost use Rattle.std.specs.Prelude.{◌≡◌, ◌+◌, ◌<◌, ◌≤◌, ◌^◌, length, take, drop, IfOk, IfErr, IfSome, IsSome};
ghost use Rattle.std.specs.Iterator.{YieldsFirstBy, item_count};
ghost use Rattle.wasm_binary.specs.Faults.{GoesOn, error_offset};
ghost use Rattle.wasm_binary.specs.Modules.{header, IsModule, IsNoModule, BeginsNoModule};
ghost use Rattle.wasm_module.specs.Sections.{placed, framing, ArePlaced};
ghost use Rattle.wasm_module.specs.Steps.Sections.{Shows, first_at};

use crate::leb128::read_u32;
use std::marker::Model;
use wasm_binary::{DecodeError, type_section};

/// How many bytes come before the first section.
pub const HEADER_LENGTH: usize = 8;

/// A section of a module, and where it is.
#[derive(Clone, Copy, PartialEq, Eq, Debug)]
pub struct Section<'a> {
    /// Which section it is: 0 for a custom one, 1 for types, and so on (WebAssembly core
    /// specification, "Binary Format", "Sections").
    pub id: u8,
    /// The place of the id in the module, counted from 0.
    pub offset: usize,
    /// The place of the first byte after id and size.
    pub content_offset: usize,
    /// What the section has after its id and size.
    pub content: &'a [u8],
}

/// The sections of a module from left to right. A contract sees the list of those that are left.
#[derive(Drop)]
pub struct SectionIter<'a> {
    // What is left of the module.
    rest: &'a [u8],
    // The place of its first byte in the module.
    offset: usize,
}

impl<'a> Model for SectionIter<'a> {
    ghost use Rattle.std.specs.Prelude.{List, ◌+◌, ◌<◌, ◌^◌, length};
    ghost use Rattle.wasm_module.specs.Sections.{PlacedSection};

    ghost Value = { List PlacedSection };

    ghost use Rattle.wasm_module.specs.Steps.Sections.{sections_at};

    ghost view = { λ s. sections_at (length s.rest.now) s.offset s.rest.now };

    ghost invariant = { λ s. s.offset + length s.rest.now < 2 ^ 64 };
}

/// Returns the sections of a module, custom ones too, in the order in which they are there.
///
/// The header, ids, sizes and the order of the sections are checked, for the whole module, before
/// the first section comes. What the sections contain is not. No memory is taken.
///
/// # Errors
///
/// [`DecodeError::Malformed`] says at which byte the bytes stop being a module. It is the error of
/// [`type_section`].
///
/// # How long the code of a module is
///
/// ```
/// let mut length = 0;
/// for section in sections(bytes)? {
///     if section.id == 10 {
///         length = section.content.len();
///     }
/// }
/// ```
pub fn sections(bytes: &[u8]) -> Result<SectionIter<'_>, DecodeError>
    // The bytes are a module of these sections,
    ensures module { IfOk result (λ sections. IsModule bytes.now (framing sections)) }
    // which have these places, from the end of the header on.
    ensures placed { IfOk result (λ sections.
        ArePlaced (length header) (drop (length header) bytes.now) sections) }
    // Bytes that are refused are no module.
    ensures refused { IfErr result (λ e. IsNoModule bytes.now) }
    // Each error has a place: memory is never refused.
    ensures located { IfErr result (λ e. IsSome (error_offset e)) }
    // The place is in the bytes or at their end,
    ensures place { IfErr result (λ e. IfSome (error_offset e) (λ offset.
        offset ≤ length bytes.now)) }
    // and with the byte there no module goes on.
    ensures stuck { IfErr result (λ e. IfSome (error_offset e) (λ offset.
        offset < length bytes.now → BeginsNoModule (take (offset + 1) bytes.now))) }
    // With the bytes before it some module goes on.
    ensures begun { IfErr result (λ e. IfSome (error_offset e) (λ offset.
        GoesOn IsModule (take offset bytes.now))) }
{
    type_section(bytes)?;
    Ok(SectionIter {
        rest: &bytes[HEADER_LENGTH..],
        offset: HEADER_LENGTH,
    })
}

/// Where bytes stop being a module.
pub fn place_of_break(error: DecodeError) -> usize {
    match error {
        DecodeError::Malformed { offset, .. } => offset,
        DecodeError::NotHeld { offset, .. } => offset,
        DecodeError::Memory => 0,
    }
}

/// The place behind the last byte of a section.
pub fn end_of(section: Section<'_>) -> usize {
    section.content_offset.saturating_add(section.content.len())
}

impl<'a> Iterator for SectionIter<'a> {
    type Item = Section<'a>;

    ghost next_gives = { YieldsFirstBy
        (λ s. placed s.offset s.content_offset s.id s.content.now) (λ rest. rest) };

    ghost remaining = { item_count (λ rest. rest) };

    fn next(&mut self) -> Option<Section<'a>> {
        match first_section(self.offset, self.rest) {
            Some((section, rest)) => {
                self.offset = section.content_offset + section.content.len();
                self.rest = rest;
                Some(section)
            }
            None => None,
        }
    }
}

/// The section with which bytes begin, and the bytes after it. They begin at this place of a
/// module.
#[tactic(auto, unfolding(crate::specs::Steps::Sections::first_at))]
fn first_section<'a>(offset: usize, bytes: &'a [u8]) -> Option<(Section<'a>, &'a [u8])>
    requires { offset + length bytes.now < 2 ^ 64 }
    ensures { Shows (λ x. (placed x.0.offset x.0.content_offset x.0.id x.0.content.now, x.1.now))
        result (first_at offset bytes.now) }
{
    let [id, behind @ ..] = bytes else {
        return None;
    };
    let id = *id;
    let mut rest = behind;
    let size = read_u32(&mut rest)? as usize;
    if size > rest.len() {
        return None;
    }
    let content_offset = offset + 1 + (behind.len() - rest.len());
    let (content, rest) = rest.split_at(size);
    Some((
        Section {
            id,
            offset,
            content_offset,
            content,
        },
        rest,
    ))
}

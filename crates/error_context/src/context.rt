//! What is known of the input beside an error.
ghost use Rattle.std.specs.Prelude.{◌≡◌, ℕ, List, drop, IfNone, IfSome};
ghost use Rattle.wasm_binary.specs.CustomSections.{BeginsCustom};
ghost use Rattle.error_context.specs.Contexts.{IsContext, IsErrorContext, IsCodeContext, HasShownName, IsWithProposal, place_within};

use crate::lookalike::{Lookalike, looks_like};
use crate::proposal::{ProposedPart, proposal_at};
use crate::shown_name::{ShownName, shown_name};
use std::fmt;
use std::fmt::Formatter;
use wasm_binary::{
    DecodeError, Expected, NotHeld, SectionPlace, custom_section_name, section_around,
};

/// The id of a custom section.
const CUSTOM: u8 = 0;

/// What is known of the input beside an error.
#[derive(Clone, Copy, PartialEq, Eq, Debug)]
pub enum Context {
    /// It looks like something else than a module.
    Looks(Lookalike),
    /// The error is in this section.
    Within(NamedSection),
    /// The error is in this section, at a byte that looks like a code of a proposal to WebAssembly.
    Proposed(NamedSection, ProposedPart),
    /// Nothing. For instance the header is wrong, or the bytes end where a section may begin.
    Nothing,
}

/// A section of a module, and its name if it is a custom section that has one.
#[derive(Clone, Copy, PartialEq, Eq, Debug)]
pub struct NamedSection {
    /// Where it is.
    pub place: SectionPlace,
    /// Its name.
    pub name: Option<ShownName>,
}

/// What is known beside an error of reading the types of a module: nothing if memory was refused.
pub fn context_of_error(bytes: &[u8], error: DecodeError) -> Context
    ensures { IsErrorContext result bytes.now error }
{
    match error {
        DecodeError::Malformed { offset, expected } => {
            context_of(bytes, place_within(offset, expected))
        }
        // A count is there, which can be the same byte as a code.
        DecodeError::NotHeld {
            offset,
            what: NotHeld::Supertypes,
        } => context_of(bytes, offset),
        DecodeError::NotHeld { offset, .. } => context_of_code(bytes, offset),
        DecodeError::Memory => Context::Nothing,
    }
}

/// A byte of the section that an error is in, which expected this at this place.
fn place_within(offset: usize, expected: Expected) -> usize
    ensures { result ≡ place_within offset expected }
{
    match expected {
        // The section begins there.
        Expected::SectionId | Expected::LaterSection => offset,
        // The section can end there, and the byte before it is in the section.
        _ => offset.saturating_sub(1),
    }
}

/// What is known beside an error at this place, and what the code there would be in a proposal.
fn context_of_code(bytes: &[u8], place: usize) -> Context
    ensures { IsCodeContext result bytes.now place }
{
    context_of(bytes, place).with_proposal(bytes, place)
}

/// What is known beside an error at this place.
pub fn context_of(bytes: &[u8], place: usize) -> Context
    ensures { IsContext result bytes.now place }
{
    if let Some(kind) = looks_like(bytes) {
        return Context::Looks(kind);
    }
    match section_around(bytes, place) {
        Some(section) => Context::Within(NamedSection {
            place: section,
            name: name_of(bytes, section.offset),
        }),
        None => Context::Nothing,
    }
}

/// The name of the custom section that begins at this place.
fn name_of(bytes: &[u8], offset: usize) -> Option<ShownName>
    ensures found { IfSome result (λ shown. HasShownName shown (drop offset bytes.now)) }
    ensures none { IfNone result ((name : List ℕ) → ¬ BeginsCustom name (drop offset bytes.now)) }
{
    match custom_section_name(behind(bytes, offset)) {
        Some(name) => Some(shown_name(name)),
        None => None,
    }
}

/// The bytes from this place on.
fn behind(bytes: &[u8], offset: usize) -> &[u8]
    ensures { result.now ≡ drop offset bytes.now }
{
    if offset > bytes.len() {
        return &[];
    }
    &bytes[offset..]
}

impl Context {
    /// The same context, and what the code at this place would be in a proposal.
    pub fn with_proposal(self, bytes: &[u8], place: usize) -> Context
        ensures { IsWithProposal self bytes.now place result }
    {
        match self {
            Context::Within(section) => match proposal_at(bytes, section.place.id, place) {
                Some(part) => Context::Proposed(section, part),
                None => self,
            },
            _ => self,
        }
    }
}

impl fmt::Display for Context {
    fn fmt<W: fmt::Write>(&self, f: &mut Formatter<W>) -> fmt::Result {
        match self {
            Context::Looks(kind) => write!(f, "; the input looks like {kind}"),
            Context::Within(section) => write!(f, " ({section})"),
            Context::Proposed(section, part) => write!(f, " ({section}); {part}"),
            Context::Nothing => Ok(()),
        }
    }
}

impl fmt::Display for NamedSection {
    fn fmt<W: fmt::Write>(&self, f: &mut Formatter<W>) -> fmt::Result {
        let place = self.place;
        match self.name {
            Some(name) => write!(f, "custom section {name}")?,
            None if place.id == CUSTOM => write!(f, "custom section")?,
            None => write!(f, "section {}", place.id)?,
        }
        write!(f, " at byte {}", place.offset)?;
        match place.size {
            Some(size) => write!(f, ", size {size}"),
            None => Ok(()),
        }
    }
}

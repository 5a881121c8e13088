//! Instructions, types, imports and alignments of proposals to WebAssembly, by their codes.
//!
//! The codes are those of the proposals that [`Proposal`] lists.
ghost use Rattle.std.specs.Prelude.{◌≡◌, ◌↔◌, false, slice_get, IsTrue, IfNone, IfSome};
ghost use Rattle.error_context.specs.Proposals.{HasInstructions, HasTypes, HasGlobalTypes, UsesProposal, IsUnused, get_before, IsPrefix, HasContinuationBit, MayBeInsideInteger, IsCodeAt, IsProposedAt, HasNoneAt};
ghost use Rattle.error_context.specs.declared.proposal.Code.{Code};
ghost use Rattle.error_context.specs.declared.proposal.Code.TheVariants as code;

use std::fmt;
use std::fmt::Formatter;

/// A proposal to WebAssembly, beyond release 3.0 of the specification.
#[derive(Clone, Copy, PartialEq, Eq, Debug)]
pub enum Proposal {
    /// Stack switching: continuations.
    StackSwitching,
    /// Custom descriptors of types.
    CustomDescriptors,
    /// Shared-everything threads.
    SharedEverythingThreads,
    /// Compact imports: several of one module.
    CompactImports,
    /// Memory control: memory that is given back.
    MemoryControl,
    /// Half precision: floats of 16 bits.
    HalfPrecision,
    /// Reference-typed strings.
    ReferenceTypedStrings,
    /// Relaxed atomics, or multibyte array access: bits beside an alignment.
    MemoryAccessBits,
}

/// A part of a module for which proposals have new codes.
#[derive(Clone, Copy, PartialEq, Eq, Debug)]
pub enum Part {
    /// An instruction.
    Instruction,
    /// A type.
    TypeForm,
    /// An import.
    Import,
    /// The alignment of a memory access.
    Alignment,
}

/// The code with which an instruction, a type, an alignment or the description of an import begins.
#[derive(Clone, Copy, PartialEq, Eq, Debug)]
pub enum Code {
    /// A byte.
    Byte(u8),
    /// A number behind a prefix.
    Prefixed {
        /// The prefix.
        prefix: u8,
        /// The first byte of the number, which mostly has no other.
        number: u8,
    },
}

/// What a code would be in a proposal.
#[derive(Clone, Copy, PartialEq, Eq, Debug)]
pub struct ProposedPart {
    /// The code.
    pub code: Code,
    /// What it would begin.
    pub part: Part,
    /// The proposal.
    pub proposal: Proposal,
}

/// The id of the type section.
const TYPE: u8 = 1;

/// The id of the import section.
const IMPORT: u8 = 2;

/// The id of the global section.
const GLOBAL: u8 = 6;

/// The id of the code section.
const CODE: u8 = 10;

/// How many bytes of an integer of 32 bits can have a continuation bit.
const MOST_CONTINUED: usize = 4;

/// Returns what the code at this place of a section would be in a proposal, where the section has
/// this id. The code is the byte at the place, or that byte and the prefix before it.
///
/// Whether such a part may begin there is not looked at. But some codes are left out, because the
/// byte can well be something else: all in data, codes of types that are letters in imports, and each
/// one behind four bytes that have a continuation bit.
pub fn proposal_at(bytes: &[u8], id: u8, place: usize) -> Option<ProposedPart>
    // A proposal has such a code,
    ensures found { IfSome result (λ part. IsProposedAt part id bytes.now place) }
    // or none has.
    ensures none { IfNone result (HasNoneAt id bytes.now place) }
{
    match code_at(bytes, place) {
        Some(code) => part_of(id, code),
        None => None,
    }
}

/// The code at this place.
#[tactic(auto, using(crate::proofs::Codes::one_code))]
fn code_at(bytes: &[u8], place: usize) -> Option<Code>
    ensures found { IfSome result (λ code. IsCodeAt code bytes.now place) }
    ensures alone { IfSome result (λ code. (other : Code) → IsCodeAt other bytes.now place →
        other ≡ code) }
    ensures none { IfNone result ((code : Code) → ¬ IsCodeAt code bytes.now place) }
{
    let Some(byte) = byte_at(bytes, place) else {
        return None;
    };
    if may_be_inside_integer(&bytes[..place]) {
        return None;
    }
    match byte_before(bytes, place) {
        Some(prefix) if is_prefix(prefix) => Some(Code::Prefixed {
            prefix,
            number: byte,
        }),
        _ => Some(Code::Byte(byte)),
    }
}

/// Whether the byte behind these can be the fifth one of an integer, or a later one.
fn may_be_inside_integer(front: &[u8]) -> bool
    ensures { IsTrue result ↔ MayBeInsideInteger front.now }
{
    front.len() >= MOST_CONTINUED
        && front[front.len() - MOST_CONTINUED..]
            .iter()
            .all(|byte| has_continuation_bit(*byte))
}

/// Whether an integer goes on behind this byte of it.
fn has_continuation_bit(byte: u8) -> bool
    ensures { IsTrue result ↔ HasContinuationBit byte }
{
    byte >= 0x80
}

/// Whether a number follows this byte of an instruction.
fn is_prefix(byte: u8) -> bool
    ensures yes { IsTrue result → IsPrefix byte }
    ensures no { result ≡ false → ¬ IsPrefix byte }
{
    byte >= 0xFB && byte <= 0xFE
}

fn byte_at(bytes: &[u8], place: usize) -> Option<u8>
    ensures { result ≡ slice_get bytes.now place }
{
    if place < bytes.len() {
        Some(bytes[place])
    } else {
        None
    }
}

fn byte_before(bytes: &[u8], place: usize) -> Option<u8>
    ensures { result ≡ get_before bytes.now place }
{
    if place == 0 {
        return None;
    }
    byte_at(bytes, place - 1)
}

/// What begins with this code in a section of this id.
fn part_of(id: u8, code: Code) -> Option<ProposedPart>
    ensures code { IfSome result (λ p. p.code ≡ code) }
    ensures found { IfSome result (λ p. UsesProposal p.part p.proposal id code) }
    ensures none { IfNone result (IsUnused id code) }
{
    let (part, proposal) = match code {
        Code::Byte(byte) => part_of_byte(id, byte)?,
        Code::Prefixed { prefix, number } => part_of_number(id, prefix, number)?,
    };
    Some(ProposedPart {
        code,
        part,
        proposal,
    })
}

fn part_of_byte(id: u8, byte: u8) -> Option<(Part, Proposal)>
    ensures found { IfSome result (λ p. UsesProposal p.0 p.1 id (code.Byte byte)) }
    ensures none { IfNone result (IsUnused id (code.Byte byte)) }
{
    match byte {
        0xE0..=0xE6 if has_instructions(id) => Some((Part::Instruction, Proposal::StackSwitching)),
        0x5D if id == TYPE => Some((Part::TypeForm, Proposal::StackSwitching)),
        0x68 | 0x75 if has_types(id) => Some((Part::TypeForm, Proposal::StackSwitching)),
        0x4C | 0x4D if id == TYPE => Some((Part::TypeForm, Proposal::CustomDescriptors)),
        0x65 if has_types(id) => Some((Part::TypeForm, Proposal::SharedEverythingThreads)),
        0x67 if has_types(id) => Some((Part::TypeForm, Proposal::ReferenceTypedStrings)),
        0x02 | 0x03 if has_global_types(id) => Some((
            Part::TypeForm,
            Proposal::SharedEverythingThreads,
        )),
        0x20 if id == IMPORT => Some((Part::Import, Proposal::CustomDescriptors)),
        0x10..=0x14 | 0x20..=0x24 | 0x30..=0x34 if id == CODE => Some((
            Part::Alignment,
            Proposal::MemoryAccessBits,
        )),
        0x7E | 0x7F if id == IMPORT => Some((Part::Import, Proposal::CompactImports)),
        _ => None,
    }
}

fn part_of_number(id: u8, prefix: u8, number: u8) -> Option<(Part, Proposal)>
    ensures found { IfSome result (λ p. UsesProposal p.0 p.1 id (code.Prefixed prefix number)) }
    ensures none { IfNone result (IsUnused id (code.Prefixed prefix number)) }
{
    if !has_instructions(id) {
        return None;
    }
    match (prefix, number) {
        (0xFB, 0x20..=0x26) => Some((Part::Instruction, Proposal::CustomDescriptors)),
        (0xFB, 0x80..=0xB7) => Some((Part::Instruction, Proposal::ReferenceTypedStrings)),
        (0xFC, 0x12) => Some((Part::Instruction, Proposal::MemoryControl)),
        (0xFC, 0x30 | 0x31) => Some((Part::Instruction, Proposal::HalfPrecision)),
        (0xFE, 0x04 | 0x4F..=0x72) => Some((Part::Instruction, Proposal::SharedEverythingThreads)),
        _ => None,
    }
}

/// Whether the section of this id has instructions and no strings: tables, globals, elements or
/// code.
fn has_instructions(id: u8) -> bool
    ensures yes { IsTrue result → HasInstructions id }
    ensures no { result ≡ false → ¬ HasInstructions id }
{
    matches!(id, 4 | 6 | 9 | 10)
}

/// Whether the section of this id has types and no strings.
fn has_types(id: u8) -> bool
    ensures yes { IsTrue result → HasTypes id }
    ensures no { result ≡ false → ¬ HasTypes id }
{
    id == TYPE || has_instructions(id)
}

/// Whether the section of this id says which globals there are, with their types.
fn has_global_types(id: u8) -> bool
    ensures yes { IsTrue result → HasGlobalTypes id }
    ensures no { result ≡ false → ¬ HasGlobalTypes id }
{
    id == IMPORT || id == GLOBAL
}

impl fmt::Display for ProposedPart {
    fn fmt<W: fmt::Write>(&self, f: &mut Formatter<W>) -> fmt::Result {
        let part = self.part;
        let proposal = self.proposal;
        write!(
            f,
            "{} looks like {part} of the {proposal} proposal",
            self.code
        )
    }
}

impl fmt::Display for Code {
    fn fmt<W: fmt::Write>(&self, f: &mut Formatter<W>) -> fmt::Result {
        match self {
            Code::Byte(byte) => write!(f, "0x{byte:02X}"),
            Code::Prefixed { prefix, number } => write!(f, "0x{prefix:02X} 0x{number:02X}"),
        }
    }
}

impl fmt::Display for Part {
    fn fmt<W: fmt::Write>(&self, f: &mut Formatter<W>) -> fmt::Result {
        match self {
            Part::Instruction => write!(f, "an instruction"),
            Part::TypeForm => write!(f, "a type"),
            Part::Import => write!(f, "an import"),
            Part::Alignment => write!(f, "an alignment"),
        }
    }
}

impl fmt::Display for Proposal {
    fn fmt<W: fmt::Write>(&self, f: &mut Formatter<W>) -> fmt::Result {
        match self {
            Proposal::StackSwitching => write!(f, "stack switching"),
            Proposal::CustomDescriptors => write!(f, "custom descriptors"),
            Proposal::SharedEverythingThreads => write!(f, "shared-everything threads"),
            Proposal::CompactImports => write!(f, "compact import section"),
            Proposal::MemoryControl => write!(f, "memory control"),
            Proposal::HalfPrecision => write!(f, "half precision"),
            Proposal::ReferenceTypedStrings => write!(f, "reference-typed strings"),
            Proposal::MemoryAccessBits => { write!(f, "relaxed atomics or multibyte array access") }
        }
    }
}

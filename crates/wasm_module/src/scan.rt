//! Going over instructions and contents of sections by the tables.
ghost use Rattle.std.specs.Prelude.{◌≡◌, ◌≤◌, [], ◌∷◌, ◌++◌, OnOk, IfOk, IfErr};
ghost use Rattle.wasm_module.specs.Immediates.{may_be_index};
ghost use Rattle.wasm_module.specs.Steps.Heads.{seen};
ghost use Rattle.wasm_module.specs.Steps.Scans.{IsScanned, IsRefused, Passes};

use crate::head::{Head, read_head};
use crate::kind::Kind;
use crate::stack::Stack;
use crate::typeless::skip_typeless;
use std::alloc::{AllocError, Global};
use thiserror::Error;

/// Why code, or the content of a section, was not read.
#[derive(Clone, Copy, PartialEq, Eq, Debug, Error)]
pub enum ScanError {
    /// The bytes are no such code, or no such content, by the grammar of WebAssembly.
    #[error("byte {offset}: malformed code or section")]
    Malformed {
        /// Where they stop being one, counted from 0 at the first byte that was given. An integer
        /// stops at the first byte with which no integer goes on. A byte or a number that the
        /// grammar does not have there is at its own first byte. Bytes that end too early stop at
        /// their end, also where a size goes past it.
        offset: usize,
    },
    /// Memory was refused.
    #[error("out of memory")]
    Memory,
}

impl From<AllocError> for ScanError {
    ghost use Rattle.wasm_module.specs.declared.scan.ScanError.TheVariants.{Memory};

    ghost from_gives = { λ _ e. e ≡ Memory };

    fn from(_: AllocError) -> ScanError {
        ScanError::Memory
    }
}

/// An index of a type in code.
#[derive(Clone, Copy)]
pub struct TypeIndex {
    pub index: u32,
    /// It is an `s33`, and not a `u32`.
    pub is_signed: bool,
    /// How many bytes it has.
    pub length: usize,
    /// The place of its first byte.
    pub offset: usize,
}

/// The place of what is left of bytes that end at the place `end`.
pub fn place_of(rest: &[u8], end: usize) -> usize
    ensures { result ≤ end }
{
    end.saturating_sub(rest.len())
}

/// Takes a text of the kinds on the stack from the front. Returns the types that it names, from
/// left to right. The place of an error is counted such that the input ends at `end`.
pub fn scan(
    alloc: Global,
    kinds: Stack,
    input: &mut &[u8],
    end: usize,
) -> Result<Vec<u32>, ScanError>
    ensures found { IfOk result (λ named.
        IsScanned kinds input.old.now input.new.now named.items) }
    ensures refused { IfErr result (λ e. IsRefused kinds input.old.now e) }
{
    let mut named = Vec::new(alloc);
    let mut stack = kinds;
    while let Some(found) = next_type(&mut stack, input, end)? {
        note(found.index, &mut named)?;
    }
    Ok(named)
}

fn note(index: u32, named: &mut Vec<u32>) -> Result<(), AllocError>
    ensures { OnOk result (named.new.items ≡ named.old.items ++ index ∷ []) }
{
    named.push(index)?;
    Ok(())
}

/// Goes on to the next index of a type, which is taken too. Returns `None` at the end of the text.
/// Places are counted such that the input ends at `end`.
pub fn next_type(
    stack: &mut Stack,
    input: &mut &[u8],
    end: usize,
) -> Result<Option<TypeIndex>, ScanError>
    ensures passed { IfOk result (λ found.
        Passes found stack.old stack.new input.old.now input.new.now) }
    ensures refused { IfErr result (λ e. IsRefused stack.old input.old.now e) }
{
    while let Some(kind) = stack.next_kind() {
        skip_typeless(kind, input);
        let before = *input;
        let Some(head) = read_head(kind, input) else {
            return Err(ScanError::Malformed {
                offset: place_of(input, end),
            });
        };
        if let Some(index) = take_in(head, stack)? {
            return Ok(Some(TypeIndex {
                index,
                is_signed: may_be_index(kind),
                length: before.len() - input.len(),
                offset: place_of(before, end),
            }));
        }
    }
    Ok(None)
}

/// Puts what is still to come in front. Returns the type that the beginning of a text names.
pub fn take_in(head: Head, stack: &mut Stack) -> Result<Option<u32>, AllocError>
    ensures stack { OnOk result (stack.new ≡ (seen head).more ++ stack.old) }
    ensures named { IfOk result (λ named. named ≡ (seen head).named) }
{
    match head {
        Head::Named(index) => return Ok(Some(index)),
        Head::Row(row) => stack.push_immediates(row)?,
        Head::Instruction(row, here) => {
            stack.push(here)?;
            stack.push_immediates(row)?;
        }
        Head::Times(count, kind) => stack.push_times(count, kind)?,
    }
    Ok(None)
}

/// An index that such a text is has the form of an `s33`.
fn may_be_index(kind: Kind) -> bool
    ensures { result ≡ may_be_index kind }
{
    match kind {
        Kind::HeapType => true,
        Kind::BlockType => true,
        _ => false,
    }
}

//! Passing over instructions that name no type and open no block.
//!
//! WebAssembly core specification, "Binary Format", instructions.
ghost use Rattle.std.specs.Prelude.{◌≡◌, ◌<◌, [], ◌∷◌, length, None, Ok, IfSome};
ghost use Rattle.wasm_module.specs.declared.kind.Kind.TheVariants as kind;
ghost use Rattle.wasm_module.specs.Steps.Heads.{beginning, begin_at, index_at};
ghost use Rattle.wasm_module.specs.Steps.Scans.{PassesTokens, PassesInstructions};

use crate::head::skip_bytes;
use crate::kind::{Immediates, Kind, Space};
use crate::leb128::{read_u32, skip_s32, skip_s64, skip_u64};
use crate::one_byte_immediates::skip_one_byte_immediates;
use crate::opcodes::instruction;

/// Takes such instructions from the front, where what comes next has this kind. It may leave some.
pub fn skip_typeless(kind: Kind, input: &mut &[u8])
    ensures { PassesTokens (kind ∷ []) (kind ∷ []) input.old.now input.new.now }
{
    match kind {
        Kind::Block => skip_instructions(input),
        Kind::Expression => skip_instructions(input),
        _ => {}
    }
}

fn skip_instructions(input: &mut &[u8])
    ensures { PassesInstructions input.old.now input.new.now }
{
    skip_one_byte_immediates(input);
    while let Some(rest) = behind_instruction(*input) {
        *input = rest;
        skip_one_byte_immediates(input);
    }
}

/// What is behind the first instruction, if it is a plain one.
fn behind_instruction<'a>(bytes: &'a [u8]) -> Option<&'a [u8]>
    ensures passed { IfSome result (λ rest. PassesInstructions bytes.now rest.now) }
    ensures shorter { IfSome result (λ rest. length rest.now < length bytes.now) }
{
    let [opcode, behind @ ..] = bytes else {
        return None;
    };
    match instruction(*opcode) {
        Immediates::Zero => Some(behind),
        Immediates::One(Kind::MemArg(most)) => behind_mem_arg(most, behind),
        Immediates::One(kind) => behind_immediate(kind, behind),
        _ => None,
    }
}

/// What is behind an alignment and an offset, if no index of a memory is between them. The exponent
/// of the alignment is at most the natural one.
fn behind_mem_arg<'a>(most: u8, bytes: &'a [u8]) -> Option<&'a [u8]>
    ensures { IfSome result (λ rest. PassesTokens (kind.MemArg most ∷ []) [] bytes.now rest.now) }
{
    let mut rest = bytes;
    let alignment = read_u32(&mut rest)?;
    if alignment > u32::from(most) {
        return None;
    }
    skip_u64(&mut rest)?;
    Some(rest)
}

/// What is behind an immediate that names no type.
#[tactic(auto, unfolding(crate::specs::Steps::Heads::begin_at))]
fn behind_immediate<'a>(kind: Kind, bytes: &'a [u8]) -> Option<&'a [u8]>
    ensures { IfSome result (λ rest. begin_at kind bytes.now ≡ Ok (beginning None [], rest.now)) }
{
    let mut rest = bytes;
    match kind {
        Kind::Index(space) => skip_index(space, &mut rest)?,
        Kind::S32 => skip_s32(&mut rest)?,
        Kind::S64 => skip_s64(&mut rest)?,
        Kind::Bytes(length) => skip_bytes(length, &mut rest)?,
        _ => return None,
    }
    Some(rest)
}

/// Takes an index that is not one of a type.
#[tactic(auto, unfolding(crate::specs::Steps::Heads::index_at))]
fn skip_index(space: Space, input: &mut &[u8]) -> Option<()>
    ensures { IfSome result (λ u.
        index_at space input.old.now ≡ Ok (beginning None [], input.new.now)) }
{
    match space {
        Space::Type => None,
        _ => {
            read_u32(input)?;
            Some(())
        }
    }
}

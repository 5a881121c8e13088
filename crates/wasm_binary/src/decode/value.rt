//! Value types, reference types and heap types.
//! WebAssembly core specification, "Binary Format", types.
ghost use Rattle.std.specs.Prelude.{◌≡◌};
ghost use Rattle.wasm_binary.specs.Steps.Reading.{Gives, heap_type_of, index_at, heap_at, reference_at, val_at};

use crate::error::{Expected, NotHeld, RawReadError};
use crate::leb128::{read_s33, read_u32};
use walrus_ty::{AbstractHeapType, HeapAt, RefAt, ValAt};

/// Takes a value type from the front.
#[inline(always)]
#[tactic(auto, unfolding(crate::specs::Steps::Reading::val_at))]
pub fn read_val(input: &mut &[u8]) -> Result<ValAt, RawReadError>
    ensures { Gives (λ v. v) result input.new.now (val_at input.old.now) }
{
    match *input {
        [] => Err(RawReadError::expected(Expected::ValType)),
        [0x7F, rest @ ..] => {
            *input = rest;
            Ok(ValAt::I32)
        }
        [0x7E, rest @ ..] => {
            *input = rest;
            Ok(ValAt::I64)
        }
        [0x7D, rest @ ..] => {
            *input = rest;
            Ok(ValAt::F32)
        }
        [0x7C, rest @ ..] => {
            *input = rest;
            Ok(ValAt::F64)
        }
        [0x7B, rest @ ..] => {
            *input = rest;
            Ok(ValAt::V128)
        }
        [_, ..] => {
            let reference = read_reference(input)?;
            Ok(ValAt::Ref(reference))
        }
    }
}

#[tactic(auto, unfolding(crate::specs::Steps::Reading::reference_at))]
fn read_reference(input: &mut &[u8]) -> Result<RefAt, RawReadError>
    ensures { Gives (λ r. r) result input.new.now (reference_at input.old.now) }
{
    let [byte, rest @ ..] = *input else {
        return Err(RawReadError::expected(Expected::ValType));
    };
    let byte = *byte;
    if byte == 0x63 || byte == 0x64 {
        *input = rest;
        let heap_type = read_heap(input)?;
        let nullable = byte == 0x63;
        return Ok(RefAt {
            nullable,
            heap_type,
        });
    }
    match abstract_heap_type(byte) {
        Some(heap_type) => {
            *input = rest;
            let heap_type = HeapAt::Abstract(heap_type);
            Ok(RefAt {
                nullable: true,
                heap_type,
            })
        }
        None if byte == 0x65 => Err(RawReadError::not_held(NotHeld::Shared)),
        None if byte == 0x68 || byte == 0x75 => Err(RawReadError::not_held(NotHeld::Continuation)),
        None => Err(RawReadError::expected(Expected::ValType)),
    }
}

#[inline(always)]
#[tactic(auto, unfolding(crate::specs::Steps::Reading::heap_at))]
fn read_heap(input: &mut &[u8]) -> Result<HeapAt, RawReadError>
    ensures { Gives (λ h. h) result input.new.now (heap_at input.old.now) }
{
    let [byte, rest @ ..] = *input else {
        return Err(RawReadError::expected(Expected::HeapType));
    };
    let byte = *byte;
    if byte == 0x62 {
        *input = rest;
        let index = read_u32(input)?;
        return Ok(HeapAt::Exact(index));
    }
    match abstract_heap_type(byte) {
        Some(heap_type) => {
            *input = rest;
            Ok(HeapAt::Abstract(heap_type))
        }
        None => read_index(byte, input),
    }
}

/// A heap type whose first byte is not the code of an abstract one.
#[inline(always)]
#[tactic(auto, unfolding(crate::specs::Steps::Reading::index_at))]
fn read_index(byte: u8, input: &mut &[u8]) -> Result<HeapAt, RawReadError>
    ensures { Gives (λ h. h) result input.new.now (index_at byte input.old.now) }
{
    if byte < 0x40 || byte >= 0x80 {
        let index = read_s33(input)?;
        return Ok(HeapAt::Concrete(index));
    }
    match byte {
        0x65 => Err(RawReadError::not_held(NotHeld::Shared)),
        0x68 => Err(RawReadError::not_held(NotHeld::Continuation)),
        0x75 => Err(RawReadError::not_held(NotHeld::Continuation)),
        _ => Err(RawReadError::expected(Expected::HeapType)),
    }
}

/// The abstract heap type with this code.
#[tactic(auto, unfolding(crate::specs::Steps::Reading::heap_type_of))]
fn abstract_heap_type(byte: u8) -> Option<AbstractHeapType>
    ensures { result ≡ heap_type_of byte }
{
    match byte {
        0x74 => Some(AbstractHeapType::NoExn),
        0x73 => Some(AbstractHeapType::NoFunc),
        0x72 => Some(AbstractHeapType::NoExtern),
        0x71 => Some(AbstractHeapType::None),
        0x70 => Some(AbstractHeapType::Func),
        0x6F => Some(AbstractHeapType::Extern),
        0x6E => Some(AbstractHeapType::Any),
        0x6D => Some(AbstractHeapType::Eq),
        0x6C => Some(AbstractHeapType::I31),
        0x6B => Some(AbstractHeapType::Struct),
        0x6A => Some(AbstractHeapType::Array),
        0x69 => Some(AbstractHeapType::Exn),
        _ => None,
    }
}

//! Value types, reference types and heap types.
//! WebAssembly core specification, "Binary Format", types.
ghost use Rattle.std.specs.Prelude.{◌≡◌, ◌++◌, OnOk, true};
ghost use Rattle.wasm_binary.specs.Grammar.{IsHeapType, IsRefType, IsValType, heap_code, reference};
ghost use Rattle.wasm_binary.specs.Steps.Writing.{heap_text, nullable_text, reference_text, val_text};

use crate::leb128::{push_s33, push_u32};
use std::alloc::AllocError;
use walrus_ty::{AbstractHeapType, HeapAt, RefAt, ValAt};

/// Puts a value type at the end.
pub fn write_val(out: &mut Vec<u8>, value: ValAt) -> Result<(), AllocError>
    ensures appends { OnOk result (out.new.items ≡ out.old.items ++ val_text value) }
    ensures text { OnOk result (IsValType (val_text value) value) }
{
    match value {
        ValAt::I32 => out.push(0x7F)?,
        ValAt::I64 => out.push(0x7E)?,
        ValAt::F32 => out.push(0x7D)?,
        ValAt::F64 => out.push(0x7C)?,
        ValAt::V128 => out.push(0x7B)?,
        ValAt::Ref(reference) => write_reference(out, reference)?,
    }
    Ok(())
}

fn write_reference(out: &mut Vec<u8>, reference: RefAt) -> Result<(), AllocError>
    ensures appends { OnOk result (out.new.items ≡ out.old.items ++ reference_text reference) }
    ensures text { OnOk result (IsRefType (reference_text reference) reference) }
{
    if reference.nullable {
        return write_nullable(out, reference.heap_type);
    }
    out.push(0x64)?;
    write_heap(out, reference.heap_type)
}

/// A reference that may be null; one to an abstract heap type is abbreviated.
fn write_nullable(out: &mut Vec<u8>, heap_type: HeapAt) -> Result<(), AllocError>
    ensures appends { OnOk result (out.new.items ≡ out.old.items ++ nullable_text heap_type) }
    ensures text { OnOk result (IsRefType (nullable_text heap_type) (reference true heap_type)) }
{
    if !matches!(heap_type, HeapAt::Abstract(_)) {
        out.push(0x63)?;
    }
    write_heap(out, heap_type)
}

fn write_heap(out: &mut Vec<u8>, heap_type: HeapAt) -> Result<(), AllocError>
    ensures appends { OnOk result (out.new.items ≡ out.old.items ++ heap_text heap_type) }
    ensures text { OnOk result (IsHeapType (heap_text heap_type) heap_type) }
{
    match heap_type {
        HeapAt::Abstract(heap_type) => {
            out.push(heap_type_code(heap_type))?;
            Ok(())
        }
        HeapAt::Concrete(index) => push_s33(index, out),
        HeapAt::Exact(index) => {
            out.push(0x62)?;
            push_u32(index, out)
        }
    }
}

/// The code of an abstract heap type, one byte.
fn heap_type_code(heap_type: AbstractHeapType) -> u8
    ensures { result ≡ heap_code heap_type }
{
    match heap_type {
        AbstractHeapType::NoExn => 0x74,
        AbstractHeapType::NoFunc => 0x73,
        AbstractHeapType::NoExtern => 0x72,
        AbstractHeapType::None => 0x71,
        AbstractHeapType::Func => 0x70,
        AbstractHeapType::Extern => 0x6F,
        AbstractHeapType::Any => 0x6E,
        AbstractHeapType::Eq => 0x6D,
        AbstractHeapType::I31 => 0x6C,
        AbstractHeapType::Struct => 0x6B,
        AbstractHeapType::Array => 0x6A,
        AbstractHeapType::Exn => 0x69,
    }
}

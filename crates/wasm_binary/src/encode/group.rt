//! Definitions and recursion groups.
//! WebAssembly core specification, "Binary Format", types.
ghost use Rattle.std.specs.Prelude.{◌≡◌, ◌++◌, OnOk, IsErrOf};
ghost use Rattle.walrus_ty.specs.Definition.{supertype_names};
ghost use Rattle.wasm_binary.specs.Faults.{HasNoText};
ghost use Rattle.wasm_binary.specs.Leb128.{IsU32};
ghost use Rattle.wasm_binary.specs.Grammar.{IsVec, IsSubType, IsRecType};
ghost use Rattle.wasm_binary.specs.Steps.Writing.{supertype_text, entry_text, group_text};
ghost use Rattle.wasm_binary.specs.declared.error.EncodeError.TheVariants.{TooMany};

use crate::encode::composite::write_comp;
use crate::encode::list::{Encode, write_vec};
use crate::error::EncodeError;
use crate::leb128::push_u32;
use std::alloc::AllocError;
use walrus_ty::{EntryAt, GroupAt};

fn write_group(out: &mut Vec<u8>, group: &GroupAt) -> Result<(), EncodeError>
    ensures appends { OnOk result (out.new.items ≡ out.old.items ++ group_text group.now) }
    ensures text { OnOk result (IsRecType (group_text group.now) group.now) }
    ensures too_many { IsErrOf result TooMany → HasNoText IsRecType group.now }
{
    match group {
        GroupAt::Single(entry) => write_entry(out, entry),
        GroupAt::Rec(entries) => {
            out.push(0x4E)?;
            write_vec(out, entries.as_slice())
        }
    }
}

fn write_entry(out: &mut Vec<u8>, entry: &EntryAt) -> Result<(), EncodeError>
    ensures appends { OnOk result (out.new.items ≡ out.old.items ++ entry_text entry.now) }
    ensures text { OnOk result (IsSubType (entry_text entry.now) entry.now) }
    ensures too_many { IsErrOf result TooMany → HasNoText IsSubType entry.now }
{
    if entry.is_final && entry.supertype.is_none() {
        return write_comp(out, &entry.comp);
    }
    out.push(if entry.is_final { 0x4F } else { 0x50 })?;
    write_supertype(out, entry.supertype)?;
    write_comp(out, &entry.comp)
}

fn write_supertype(out: &mut Vec<u8>, supertype: Option<u32>) -> Result<(), AllocError>
    ensures appends { OnOk result (out.new.items ≡ out.old.items ++ supertype_text supertype) }
    ensures text { OnOk result (IsVec IsU32 (supertype_text supertype)
        (supertype_names supertype)) }
{
    match supertype {
        None => {
            out.push(0)?;
            Ok(())
        }
        Some(index) => {
            out.push(1)?;
            push_u32(index, out)
        }
    }
}

impl Encode for EntryAt {
    ghost texts = { IsSubType };

    ghost text = { entry_text };

    fn write(&self, out: &mut Vec<u8>) -> Result<(), EncodeError> {
        write_entry(out, self)
    }
}

impl Encode for GroupAt {
    ghost texts = { IsRecType };

    ghost text = { group_text };

    fn write(&self, out: &mut Vec<u8>) -> Result<(), EncodeError> {
        write_group(out, self)
    }
}

//! Fields and composite types.
//! WebAssembly core specification, "Binary Format", types.
ghost use Rattle.std.specs.Prelude.{◌≡◌, ◌++◌, OnOk, IsErrOf};
ghost use Rattle.wasm_binary.specs.Faults.{HasNoText};
ghost use Rattle.wasm_binary.specs.Grammar.{IsValType, IsStorageType, IsFieldType, IsCompType};
ghost use Rattle.wasm_binary.specs.Steps.Writing.{val_text, storage_text, field_text, comp_text};
ghost use Rattle.wasm_binary.specs.declared.error.EncodeError.TheVariants.{TooMany};

use crate::encode::list::{Encode, write_vec};
use crate::encode::value::write_val;
use crate::error::EncodeError;
use std::alloc::AllocError;
use walrus_ty::{CompAt, FieldAt, StorageAt, ValAt};

/// Puts a composite type at the end.
pub fn write_comp(out: &mut Vec<u8>, comp: &CompAt) -> Result<(), EncodeError>
    ensures appends { OnOk result (out.new.items ≡ out.old.items ++ comp_text comp.now) }
    ensures text { OnOk result (IsCompType (comp_text comp.now) comp.now) }
    ensures too_many { IsErrOf result TooMany → HasNoText IsCompType comp.now }
{
    match comp {
        CompAt::Function { params, results } => {
            out.push(0x60)?;
            write_vec(out, params.as_slice())?;
            write_vec(out, results.as_slice())
        }
        CompAt::Struct { fields } => {
            out.push(0x5F)?;
            write_vec(out, fields.as_slice())
        }
        CompAt::Array { field } => {
            out.push(0x5E)?;
            write_field(out, *field)?;
            Ok(())
        }
    }
}

fn write_field(out: &mut Vec<u8>, field: FieldAt) -> Result<(), AllocError>
    ensures appends { OnOk result (out.new.items ≡ out.old.items ++ field_text field) }
    ensures text { OnOk result (IsFieldType (field_text field) field) }
{
    write_storage(out, field.element_type)?;
    out.push(if field.mutable { 0x01 } else { 0x00 })?;
    Ok(())
}

fn write_storage(out: &mut Vec<u8>, storage: StorageAt) -> Result<(), AllocError>
    ensures appends { OnOk result (out.new.items ≡ out.old.items ++ storage_text storage) }
    ensures text { OnOk result (IsStorageType (storage_text storage) storage) }
{
    match storage {
        StorageAt::I8 => out.push(0x78)?,
        StorageAt::I16 => out.push(0x77)?,
        StorageAt::Val(value) => write_val(out, value)?,
    }
    Ok(())
}

impl Encode for ValAt {
    ghost texts = { IsValType };

    ghost text = { val_text };

    fn write(&self, out: &mut Vec<u8>) -> Result<(), EncodeError> {
        write_val(out, *self)?;
        Ok(())
    }
}

impl Encode for FieldAt {
    ghost texts = { IsFieldType };

    ghost text = { field_text };

    fn write(&self, out: &mut Vec<u8>) -> Result<(), EncodeError> {
        write_field(out, *self)?;
        Ok(())
    }
}

//! Fields and composite types.
//! WebAssembly core specification, "Binary Format", types.
ghost use Rattle.std.specs.Prelude.{◌≡◌};
ghost use Rattle.wasm_binary.specs.Steps.Reading.{Gives, Leads};
ghost use Rattle.wasm_binary.specs.Steps.Reading.{val_at, storage_at, mutability_at, field_at};
ghost use Rattle.wasm_binary.specs.Steps.Reading.{function_at, struct_at, array_at};
ghost use Rattle.wasm_binary.specs.Steps.Reading.{comp_behind, comp_at};

use crate::decode::list::{Decode, read_vec};
use crate::decode::value::read_val;
use crate::error::{Expected, NotHeld, RawReadError};
use std::alloc::Global;
use walrus_ty::{CompAt, FieldAt, Listed, StorageAt, ValAt};

/// What a composite type is by its first byte.
#[derive(Clone, Copy)]
pub enum Form {
    Function,
    Struct,
    Array,
}

/// Takes the first byte of a composite type from the front.
#[inline(always)]
#[tactic(auto, unfolding(crate::specs::Steps::Reading::comp_at))]
pub fn read_form(input: &mut &[u8]) -> Result<Form, RawReadError>
    ensures { Leads comp_behind result input.new.now (comp_at input.old.now) }
{
    match *input {
        [] => Err(RawReadError::expected(Expected::CompType)),
        [0x60, rest @ ..] => {
            *input = rest;
            Ok(Form::Function)
        }
        [0x5F, rest @ ..] => {
            *input = rest;
            Ok(Form::Struct)
        }
        [0x5E, rest @ ..] => {
            *input = rest;
            Ok(Form::Array)
        }
        [0x5D, ..] => Err(RawReadError::not_held(NotHeld::Continuation)),
        [0x65, ..] => Err(RawReadError::not_held(NotHeld::Shared)),
        [0x4C, ..] => Err(RawReadError::not_held(NotHeld::Descriptor)),
        [0x4D, ..] => Err(RawReadError::not_held(NotHeld::Descriptor)),
        [_, ..] => Err(RawReadError::expected(Expected::CompType)),
    }
}

/// Takes what a composite type has behind its first byte.
pub fn read_comp(alloc: Global, form: Form, input: &mut &[u8]) -> Result<CompAt, RawReadError>
    ensures { Gives (λ c. c) result input.new.now (comp_behind form input.old.now) }
{
    match form {
        Form::Function => read_function(alloc, input),
        Form::Struct => read_struct(alloc, input),
        Form::Array => read_array(input),
    }
}

/// Takes what a function type has behind its first byte.
#[inline(always)]
#[tactic(auto, unfolding(crate::specs::Steps::Reading::function_at))]
pub fn read_function(alloc: Global, input: &mut &[u8]) -> Result<CompAt, RawReadError>
    ensures { Gives (λ c. c) result input.new.now (function_at input.old.now) }
{
    let params = Listed::from_vec(read_vec(alloc, input)?);
    let results = Listed::from_vec(read_vec(alloc, input)?);
    Ok(CompAt::Function { params, results })
}

/// Takes what a struct type has behind its first byte.
#[inline(always)]
pub fn read_struct(alloc: Global, input: &mut &[u8]) -> Result<CompAt, RawReadError>
    ensures { Gives (λ c. c) result input.new.now (struct_at input.old.now) }
{
    let fields = Listed::from_vec(read_vec(alloc, input)?);
    Ok(CompAt::Struct { fields })
}

/// Takes what an array type has behind its first byte.
#[inline(always)]
pub fn read_array(input: &mut &[u8]) -> Result<CompAt, RawReadError>
    ensures { Gives (λ c. c) result input.new.now (array_at input.old.now) }
{
    let field = read_field(input)?;
    Ok(CompAt::Array { field })
}

#[inline(always)]
#[tactic(auto, unfolding(crate::specs::Steps::Reading::field_at))]
fn read_field(input: &mut &[u8]) -> Result<FieldAt, RawReadError>
    ensures { Gives (λ f. f) result input.new.now (field_at input.old.now) }
{
    let element_type = read_storage(input)?;
    let mutable = read_mutability(input)?;
    Ok(FieldAt {
        element_type,
        mutable,
    })
}

#[inline(always)]
#[tactic(auto, unfolding(crate::specs::Steps::Reading::storage_at))]
fn read_storage(input: &mut &[u8]) -> Result<StorageAt, RawReadError>
    ensures { Gives (λ s. s) result input.new.now (storage_at input.old.now) }
{
    match *input {
        [] => Err(RawReadError::expected(Expected::StorageType)),
        [0x78, rest @ ..] => {
            *input = rest;
            Ok(StorageAt::I8)
        }
        [0x77, rest @ ..] => {
            *input = rest;
            Ok(StorageAt::I16)
        }
        [_, ..] => {
            let value = read_val(input)?;
            Ok(StorageAt::Val(value))
        }
    }
}

#[inline(always)]
#[tactic(auto, unfolding(crate::specs::Steps::Reading::mutability_at))]
fn read_mutability(input: &mut &[u8]) -> Result<bool, RawReadError>
    ensures { Gives (λ m. m) result input.new.now (mutability_at input.old.now) }
{
    match *input {
        [0x00, rest @ ..] => {
            *input = rest;
            Ok(false)
        }
        [0x01, rest @ ..] => {
            *input = rest;
            Ok(true)
        }
        _ => Err(RawReadError::expected(Expected::Mutability)),
    }
}

impl Decode for ValAt {
    ghost reading = { val_at };

    fn read(_alloc: Global, input: &mut &[u8]) -> Result<ValAt, RawReadError> {
        read_val(input)
    }
}

impl Decode for FieldAt {
    ghost reading = { field_at };

    fn read(_alloc: Global, input: &mut &[u8]) -> Result<FieldAt, RawReadError> {
        read_field(input)
    }
}

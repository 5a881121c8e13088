//! Definitions and recursion groups.
//! WebAssembly core specification, "Binary Format", types.
ghost use Rattle.std.specs.Prelude.{◌≡◌};
ghost use Rattle.wasm_binary.specs.Steps.Reading.{Gives, Leads, entry_of, entry_behind};
ghost use Rattle.wasm_binary.specs.Steps.Reading.{supertype_at, declared_at, entry_at};
ghost use Rattle.wasm_binary.specs.Steps.Reading.{rec_at, single_at, group_at};

use crate::decode::composite::{
    Form, read_array, read_comp, read_form, read_function, read_struct,
};
use crate::decode::list::{Decode, read_vec};
use crate::error::{Expected, NotHeld, RawReadError};
use crate::leb128::read_u32;
use std::alloc::Global;
use walrus_ty::{CompAt, EntryAt, GroupAt, Listed};

/// Takes a recursion group from the front: several definitions behind `rec`, or one alone.
///
/// A group is large, and moving it costs more than reading it. So it is put together in this
/// function alone, from parts that are small. Whatever would return a whole group to it is inlined.
#[inline(never)]
#[tactic(auto, unfolding(crate::specs::Steps::Reading::group_at))]
pub fn read_group(alloc: Global, input: &mut &[u8]) -> Result<GroupAt, RawReadError>
    ensures { Gives (λ g. g) result input.new.now (group_at input.old.now) }
{
    match *input {
        [] => Err(RawReadError::expected(Expected::RecType)),
        [0x4E, rest @ ..] => {
            *input = rest;
            read_rec(alloc, input)
        }
        [_, ..] => read_single(alloc, input),
    }
}

#[inline(always)]
fn read_rec(alloc: Global, input: &mut &[u8]) -> Result<GroupAt, RawReadError>
    ensures { Gives (λ g. g) result input.new.now (rec_at input.old.now) }
{
    let entries = Listed::from_vec(read_vec(alloc, input)?);
    Ok(GroupAt::Rec(entries))
}

#[inline(always)]
fn read_single(alloc: Global, input: &mut &[u8]) -> Result<GroupAt, RawReadError>
    ensures { Gives (λ g. g) result input.new.now (single_at input.old.now) }
{
    let head = read_head(input)?;
    match head.form {
        Form::Function => {
            let comp = read_function(alloc, input)?;
            Ok(GroupAt::Single(head.entry(comp)))
        }
        Form::Struct => {
            let comp = read_struct(alloc, input)?;
            Ok(GroupAt::Single(head.entry(comp)))
        }
        Form::Array => {
            let comp = read_array(input)?;
            Ok(GroupAt::Single(head.entry(comp)))
        }
    }
}

/// Takes a definition from the front.
fn read_entry(alloc: Global, input: &mut &[u8]) -> Result<EntryAt, RawReadError>
    ensures { Gives (λ e. e) result input.new.now (entry_at input.old.now) }
{
    let head = read_head(input)?;
    let comp = read_comp(alloc, head.form, input)?;
    Ok(head.entry(comp))
}

/// What a definition says before the parts of its type.
#[derive(Clone, Copy)]
struct Head {
    form: Form,
    is_final: bool,
    supertype: Option<u32>,
}

impl Head {
    /// The definition that has this head.
    #[inline(always)]
    fn entry(self, comp: CompAt) -> EntryAt
        ensures { result ≡ entry_of self comp }
    {
        EntryAt {
            comp,
            is_final: self.is_final,
            supertype: self.supertype,
        }
    }
}

/// Takes the head of a definition from the front.
#[inline(always)]
#[tactic(auto, unfolding(crate::specs::Steps::Reading::entry_at))]
fn read_head(input: &mut &[u8]) -> Result<Head, RawReadError>
    ensures { Leads entry_behind result input.new.now (entry_at input.old.now) }
{
    match *input {
        [] => Err(RawReadError::expected(Expected::RecType)),
        [0x50, rest @ ..] => {
            *input = rest;
            read_declared(false, input)
        }
        [0x4F, rest @ ..] => {
            *input = rest;
            read_declared(true, input)
        }
        [_, ..] => {
            let form = read_form(input)?;
            Ok(Head {
                form,
                is_final: true,
                supertype: None,
            })
        }
    }
}

/// The head behind `sub` or `sub final`, which fewer definitions have.
#[inline(never)]
#[tactic(auto, unfolding(crate::specs::Steps::Reading::declared_at))]
fn read_declared(is_final: bool, input: &mut &[u8]) -> Result<Head, RawReadError>
    ensures { Leads entry_behind result input.new.now (declared_at is_final input.old.now) }
{
    let supertype = read_supertype(input)?;
    let form = read_form(input)?;
    Ok(Head {
        form,
        is_final,
        supertype,
    })
}

/// The one supertype, if there is one. The error for several has the place where their count
/// begins.
#[inline(always)]
#[tactic(auto, unfolding(crate::specs::Steps::Reading::supertype_at))]
fn read_supertype(input: &mut &[u8]) -> Result<Option<u32>, RawReadError>
    ensures { Gives (λ s. s) result input.new.now (supertype_at input.old.now) }
{
    let start = *input;
    match read_u32(input)? {
        0 => Ok(None),
        1 => {
            let index = read_u32(input)?;
            Ok(Some(index))
        }
        _ => {
            *input = start;
            Err(RawReadError::not_held(NotHeld::Supertypes))
        }
    }
}

impl Decode for EntryAt {
    ghost reading = { entry_at };

    fn read(alloc: Global, input: &mut &[u8]) -> Result<EntryAt, RawReadError> {
        read_entry(alloc, input)
    }
}

impl Decode for GroupAt {
    ghost reading = { group_at };

    fn read(alloc: Global, input: &mut &[u8]) -> Result<GroupAt, RawReadError> {
        read_group(alloc, input)
    }
}

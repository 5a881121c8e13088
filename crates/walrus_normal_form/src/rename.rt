//! Renaming the indices of a record in place.
ghost use Rattle.std.specs.Prelude.{◌≡◌, map};
ghost use Rattle.walrus_ty.specs.Definition.{rename, rename_composite};
ghost use Rattle.walrus_sections.specs.NormalForm.{image};
ghost use Rattle.walrus_ty.specs.Records.{entry_definition, comp_composite};
ghost use Rattle.walrus_ty.specs.Value.{rename_heap, rename_val, rename_field};

use walrus_ty::{CompAt, EntryAt, FieldAt, HeapAt, Listed, RefAt, StorageAt, ValAt};

/// Replaces each index that the record names by the number that the list has for it.
pub(crate) fn rename_entry(entry: &mut EntryAt, numbers: &[u32])
    ensures { entry_definition entry.new ≡
        rename (image numbers.now) (entry_definition entry.old) }
{
    rename_comp(&mut entry.comp, numbers);
    if let Some(index) = entry.supertype {
        entry.supertype = Some(rename_index(index, numbers));
    }
}

fn rename_comp(comp: &mut CompAt, numbers: &[u32])
    ensures { comp_composite comp.new ≡
        rename_composite (image numbers.now) (comp_composite comp.old) }
{
    match comp {
        CompAt::Function { params, results } => {
            rename_vals(params, numbers);
            rename_vals(results, numbers);
        }
        CompAt::Struct { fields } => rename_fields(fields, numbers),
        CompAt::Array { field } => *field = rename_field(*field, numbers),
    }
}

fn rename_vals(vals: &mut Listed<ValAt>, numbers: &[u32])
    ensures { vals.new ≡ map (rename_val (image numbers.now)) vals.old }
{
    for at in 0..vals.len() {
        // Most values name nothing, and need not be written again.
        if vals[at].name().is_some() {
            vals[at] = rename_val(vals[at], numbers);
        }
    }
}

fn rename_fields(fields: &mut Listed<FieldAt>, numbers: &[u32])
    ensures { fields.new ≡ map (rename_field (image numbers.now)) fields.old }
{
    for at in 0..fields.len() {
        if fields[at].name().is_some() {
            fields[at] = rename_field(fields[at], numbers);
        }
    }
}

fn rename_field(field: FieldAt, numbers: &[u32]) -> FieldAt
    ensures { result ≡ rename_field (image numbers.now) field }
{
    let element_type = match field.element_type {
        StorageAt::Val(val) => StorageAt::Val(rename_val(val, numbers)),
        StorageAt::I8 => StorageAt::I8,
        StorageAt::I16 => StorageAt::I16,
    };
    FieldAt {
        element_type,
        mutable: field.mutable,
    }
}

fn rename_val(val: ValAt, numbers: &[u32]) -> ValAt
    ensures { result ≡ rename_val (image numbers.now) val }
{
    match val {
        ValAt::I32 => ValAt::I32,
        ValAt::I64 => ValAt::I64,
        ValAt::F32 => ValAt::F32,
        ValAt::F64 => ValAt::F64,
        ValAt::V128 => ValAt::V128,
        ValAt::Ref(reference) => ValAt::Ref(RefAt {
            nullable: reference.nullable,
            heap_type: rename_heap(reference.heap_type, numbers),
        }),
    }
}

fn rename_heap(heap: HeapAt, numbers: &[u32]) -> HeapAt
    ensures { result ≡ rename_heap (image numbers.now) heap }
{
    match heap {
        HeapAt::Abstract(abstract_type) => HeapAt::Abstract(abstract_type),
        HeapAt::Concrete(index) => HeapAt::Concrete(rename_index(index, numbers)),
        HeapAt::Exact(index) => HeapAt::Exact(rename_index(index, numbers)),
    }
}

/// What the list has for the index. It has 0 where it is too short.
pub(crate) fn rename_index(index: u32, numbers: &[u32]) -> u32
    ensures { result ≡ image numbers.now index }
{
    match numbers.get(index as usize) {
        Some(number) => *number,
        None => 0,
    }
}

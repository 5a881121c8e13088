//! An entry with each index replaced by the one that a map has for it.
ghost use Rattle.std.specs.Prelude.{◌≡◌, IfOk, map};
ghost use Rattle.walrus_ty.specs.Definition.{rename, rename_composite};
ghost use Rattle.walrus_sections.specs.NormalForm.{image};
ghost use Rattle.walrus_ty.specs.Records.{entry_definition, comp_composite};
ghost use Rattle.walrus_ty.specs.Value.{rename_heap, rename_val, rename_field};

use std::alloc::{AllocError, Global};
use walrus_ty::{CompAt, EntryAt, FieldAt, HeapAt, Listed, RefAt, StorageAt, ValAt};

/// The entry with each index that it names sent through the map.
pub(crate) fn rename_entry(
    alloc: Global,
    entry: &EntryAt,
    indices: &[u32],
) -> Result<EntryAt, AllocError>
    ensures { IfOk result (λ e. entry_definition e ≡ rename (image indices.now)
        (entry_definition entry.now)) }
{
    let comp = rename_comp(alloc, &entry.comp, indices)?;
    Ok(EntryAt {
        comp,
        is_final: entry.is_final,
        supertype: match entry.supertype {
            Some(index) => Some(rename_index(index, indices)),
            None => None,
        },
    })
}

fn rename_comp(alloc: Global, comp: &CompAt, indices: &[u32]) -> Result<CompAt, AllocError>
    ensures { IfOk result (λ c. comp_composite c ≡ rename_composite (image indices.now)
        (comp_composite comp.now)) }
{
    match comp {
        CompAt::Function { params, results } => {
            let params = rename_vals(alloc, params.as_slice(), indices)?;
            let results = rename_vals(alloc, results.as_slice(), indices)?;
            Ok(CompAt::Function {
                params: Listed::from_vec(params),
                results: Listed::from_vec(results),
            })
        }
        CompAt::Struct { fields } => {
            let fields = rename_fields(alloc, fields.as_slice(), indices)?;
            Ok(CompAt::Struct {
                fields: Listed::from_vec(fields),
            })
        }
        CompAt::Array { field } => Ok(CompAt::Array {
            field: rename_field(*field, indices),
        }),
    }
}

fn rename_vals(alloc: Global, vals: &[ValAt], indices: &[u32]) -> Result<Vec<ValAt>, AllocError>
    ensures { IfOk result (λ v. v.items ≡ map (rename_val (image indices.now)) vals.now) }
{
    let mut all = Vec::new(alloc);
    for val in vals {
        all.push(rename_val(*val, indices))?;
    }
    Ok(all)
}

fn rename_fields(
    alloc: Global,
    fields: &[FieldAt],
    indices: &[u32],
) -> Result<Vec<FieldAt>, AllocError>
    ensures { IfOk result (λ v. v.items ≡ map (rename_field (image indices.now)) fields.now) }
{
    let mut all = Vec::new(alloc);
    for field in fields {
        all.push(rename_field(*field, indices))?;
    }
    Ok(all)
}

fn rename_field(field: FieldAt, indices: &[u32]) -> FieldAt
    ensures { result ≡ rename_field (image indices.now) field }
{
    let element_type = match field.element_type {
        StorageAt::Val(val) => StorageAt::Val(rename_val(val, indices)),
        StorageAt::I8 => StorageAt::I8,
        StorageAt::I16 => StorageAt::I16,
    };
    FieldAt {
        element_type,
        mutable: field.mutable,
    }
}

fn rename_val(val: ValAt, indices: &[u32]) -> ValAt
    ensures { result ≡ rename_val (image indices.now) val }
{
    match val {
        ValAt::I32 => ValAt::I32,
        ValAt::I64 => ValAt::I64,
        ValAt::F32 => ValAt::F32,
        ValAt::F64 => ValAt::F64,
        ValAt::V128 => ValAt::V128,
        ValAt::Ref(reference) => ValAt::Ref(RefAt {
            nullable: reference.nullable,
            heap_type: rename_heap(reference.heap_type, indices),
        }),
    }
}

fn rename_heap(heap: HeapAt, indices: &[u32]) -> HeapAt
    ensures { result ≡ rename_heap (image indices.now) heap }
{
    match heap {
        HeapAt::Abstract(abstract_type) => HeapAt::Abstract(abstract_type),
        HeapAt::Concrete(index) => HeapAt::Concrete(rename_index(index, indices)),
        HeapAt::Exact(index) => HeapAt::Exact(rename_index(index, indices)),
    }
}

fn rename_index(index: u32, indices: &[u32]) -> u32
    ensures { result ≡ image indices.now index }
{
    match indices.get(index as usize) {
        Some(image) => *image,
        None => 0,
    }
}

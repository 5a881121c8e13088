//! Tables of which types are deleted.
use std::alloc::{AllocError, Global};
use std::process::Abort;
use walrus_passes::delete_unused_types;
use walrus_types::{
    AddRecGroupError, CompositeType, Field, FieldType, Heap, Listed, ModuleTypes, Reference,
    Storage, StructType, TypeId, Val, ValType,
};

// A struct with a nullable reference to the type with this id, or without fields.
fn structure(alloc: Global, name: Option<usize>) -> Result<CompositeType, AllocError> {
    let mut fields = Vec::new(alloc);
    if let Some(index) = name {
        fields.push(reference_field(TypeId::from_index(index)))?;
    }
    Ok(CompositeType::Struct(StructType {
        fields: Listed::from_vec(fields),
    }))
}

fn reference_field(id: TypeId) -> FieldType {
    Field {
        element_type: Storage::Val(Val::Ref(Reference {
            nullable: true,
            heap_type: Heap::Concrete(id),
        })),
        mutable: false,
    }
}

fn two_members(alloc: Global) -> Result<Vec<(CompositeType, bool, Option<TypeId>)>, AllocError> {
    let mut members = Vec::new(alloc);
    members.push((structure(alloc, Some(2))?, true, None))?;
    members.push((structure(alloc, None)?, true, None))?;
    Ok(members)
}

// 0: an open struct; 1: a subtype of it; 2: a function type; 3 and 4: a group, in which 3 names 2;
// 5: the type of a body that leaves an `i32`.
pub(crate) fn table(alloc: Global) -> Result<ModuleTypes, AddRecGroupError> {
    let mut types = ModuleTypes::new(alloc);
    types.add_composite(structure(alloc, None)?, false, None)?;
    types.add_composite(structure(alloc, None)?, true, Some(TypeId::from_index(0)))?;
    types.add(&[ValType::I32], &[])?;
    types.add_rec_group(2, |_| two_members(alloc))?;
    types.add_entry_ty(&[ValType::I32])?;
    Ok(types)
}

// Deletes what this type does not need.
pub(crate) fn delete_all_but(
    rt: &impl Abort,
    alloc: Global,
    types: &mut ModuleTypes,
    index: usize,
) -> Result<Vec<TypeId>, AllocError> {
    let root = TypeId::from_index(index);
    assert!(rt; types.contains(root));
    delete_unused_types(alloc, types, &[root])
}

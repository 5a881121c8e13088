//! What no contract says: that calls succeed with ample memory, what a refused call leaves, and
//! worked rows.
ghost use Rattle.std.specs.Prelude.{◌≡◌, OnErr};

use std::alloc::{AllocError, Global};
use std::process::Abort;
use walrus_types::{
    AddRecGroupError, CompositeType, Field, FieldType, FunctionType, Heap, Listed, ModuleTypes,
    Reference, Storage, StructType, Type, TypeId, Val, ValType,
};

mod adding;
pub(crate) mod calls;
mod cloning;
mod deleting;
mod finding;
mod grouping;
mod reading;
mod refusals;
mod writing;

pub(crate) fn field(of: ValType) -> FieldType {
    Field {
        element_type: Storage::Val(of),
        mutable: false,
    }
}

// A nullable reference to the type with the id of this index.
pub(crate) fn reference(index: usize) -> ValType {
    Val::Ref(Reference {
        nullable: true,
        heap_type: Heap::Concrete(TypeId::from_index(index)),
    })
}

// The function type without parameters and results.
fn function(alloc: Global) -> CompositeType {
    CompositeType::Function(FunctionType::new(Vec::new(alloc), Vec::new(alloc)))
}

// Whether these are the ids of these indices.
pub(crate) fn are(ids: &[TypeId], indices: &[usize]) -> bool {
    ids.len() == indices.len()
        && ids
            .iter()
            .zip(indices)
            .all(|(id, index)| id.index() == *index)
}

// A final type of a group, without supertype.
fn member(kind: CompositeType) -> (CompositeType, bool, Option<TypeId>) {
    (kind, true, None)
}

// A final function type whose one parameter names the type with this id.
fn namer(
    alloc: Global,
    id: Option<&TypeId>,
) -> Result<(CompositeType, bool, Option<TypeId>), AllocError> {
    let mut params = Vec::new(alloc);
    if let Some(id) = id {
        params.push(reference(id.index()))?;
    }
    let function = FunctionType::new(params, Vec::new(alloc));
    Ok(member(CompositeType::Function(function)))
}

// Two types, of which each names the other.
fn two_namers(
    alloc: Global,
    ids: &[TypeId],
) -> Result<Vec<(CompositeType, bool, Option<TypeId>)>, AllocError> {
    Ok(vec![in alloc; namer(alloc, ids.get(1))?, namer(alloc, ids.first())?]?)
}

// Adds a group of two types that name each other, where this many types are wanted.
pub(crate) fn add_pair(
    alloc: Global,
    types: &mut ModuleTypes,
    count: usize,
) -> Result<Vec<TypeId>, AddRecGroupError>
    ensures err { OnErr result (types.new ≡ types.old) }
{
    types.add_rec_group(count, |ids| two_namers(alloc, ids))
}

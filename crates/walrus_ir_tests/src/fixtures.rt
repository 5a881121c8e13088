//! Types that name others, lists, and calls that are made again after a refusal.
use std::alloc::{AllocError, Global};
use walrus_ty::{FieldType, Heap, Id, Reference, Storage, TypeId, Val, ValType};

/// A nullable reference to the type with the id of this index.
pub(crate) fn reference(index: usize) -> ValType {
    Val::Ref(Reference {
        nullable: true,
        heap_type: Heap::Concrete(TypeId::from_index(index)),
    })
}

/// A field that can't be written to.
pub(crate) fn field(of: ValType) -> FieldType {
    FieldType {
        element_type: Storage::Val(of),
        mutable: false,
    }
}

/// Whether these are the ids of these indices.
pub(crate) fn are<T>(ids: &[Id<T>], indices: &[usize]) -> bool {
    ids.len() == indices.len()
        && ids
            .iter()
            .zip(indices)
            .all(|(id, index)| id.index() == *index)
}

/// A list of these items. It is made again after a refusal.
pub(crate) fn list<T: Copy>(alloc: Global, items: &[T]) -> Result<Vec<T>, AllocError> {
    match items.to_vec(alloc) {
        Ok(list) => Ok(list),
        Err(_) => items.to_vec(alloc),
    }
}

/// A clone of the value. It is cloned again after a refusal.
pub(crate) fn clone_again<T: Clone>(value: &T) -> Result<T, AllocError> {
    match value.clone() {
        Ok(copy) => Ok(copy),
        Err(_) => value.clone(),
    }
}

/// The name `x`. It is made again after a refusal.
pub(crate) fn name_again(alloc: Global) -> Result<String, AllocError> {
    match String::from_str(alloc, "x") {
        Ok(name) => Ok(name),
        Err(_) => String::from_str(alloc, "x"),
    }
}

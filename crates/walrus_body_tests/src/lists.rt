//! Lists of ids.
use std::alloc::{AllocError, Global};
use std::process::Abort;
use walrus_arena::Id;

/// Whether these are the ids of the first of these indices.
pub(crate) fn begin<T>(ids: &[Id<T>], indices: &[usize]) -> bool {
    ids.len() <= indices.len()
        && ids
            .iter()
            .zip(indices)
            .all(|(id, index)| id.index() == *index)
}

/// Whether these are the ids of these indices.
pub(crate) fn are<T>(ids: &[Id<T>], indices: &[usize]) -> bool {
    ids.len() == indices.len() && begin(ids, indices)
}

/// These are the ids of these indices, in this order.
pub(crate) fn hold<T>(rt: &impl Abort, ids: &[Id<T>], indices: &[usize]) {
    assert!(rt; are(ids, indices));
}

/// A list of these items. It is made again after a refusal.
pub(crate) fn list<T: Copy>(alloc: Global, items: &[T]) -> Result<Vec<T>, AllocError> {
    match items.to_vec(alloc) {
        Ok(list) => Ok(list),
        Err(_) => items.to_vec(alloc),
    }
}

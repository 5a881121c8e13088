//! A section with a repeat.
use crate::sections::{Group, section};
use std::alloc::Global;
use walrus_types::{HashKeys, ModuleTypes, ReadError, TypeId, parse_types};

// As functions come first where sections are written, the function gets the index 0, and the
// struct, under both of its old indices, the index 1.
pub(crate) const TWICE: [Group; 3] = [Group::Struct, Group::Function, Group::Struct];

pub(crate) fn read(alloc: Global) -> Result<(ModuleTypes, Vec<TypeId>), ReadError> {
    parse_types(alloc, HashKeys::fixed(), section(alloc, &TWICE)?.as_slice())
}

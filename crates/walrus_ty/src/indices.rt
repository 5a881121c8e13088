//! The names of things by id, what each id is the id of, and the maps between ids and the indices
//! of a binary module.
mod ids_to_indices;
mod indices_to_ids;

use crate::Type;
pub use ids_to_indices::IdsToIndices;
pub use indices_to_ids::IndicesToIds;
use walrus_id::Id;

/// A function of a module, of which this layer knows only ids.
#[derive(Clone, Copy, PartialEq, Eq, PartialOrd, Ord, Hash, Debug)]
pub struct Function;

/// A global of a module, of which this layer knows only ids.
#[derive(Clone, Copy, PartialEq, Eq, PartialOrd, Ord, Hash, Debug)]
pub struct Global;

/// A memory of a module, of which this layer knows only ids.
#[derive(Clone, Copy, PartialEq, Eq, PartialOrd, Ord, Hash, Debug)]
pub struct Memory;

/// A table of a module, of which this layer knows only ids.
#[derive(Clone, Copy, PartialEq, Eq, PartialOrd, Ord, Hash, Debug)]
pub struct Table;

/// A data segment of a module, of which this layer knows only ids.
#[derive(Clone, Copy, PartialEq, Eq, PartialOrd, Ord, Hash, Debug)]
pub struct Data;

/// An element segment of a module, of which this layer knows only ids.
#[derive(Clone, Copy, PartialEq, Eq, PartialOrd, Ord, Hash, Debug)]
pub struct Element;

/// A tag of a module, of which this layer knows only ids.
#[derive(Clone, Copy, PartialEq, Eq, PartialOrd, Ord, Hash, Debug)]
pub struct Tag;

/// The id of a type in a `ModuleTypes`.
pub type TypeId = Id<Type>;

/// The id of a function.
pub type FunctionId = Id<Function>;

/// The id of a global.
pub type GlobalId = Id<Global>;

/// The id of a memory.
pub type MemoryId = Id<Memory>;

/// The id of a table.
pub type TableId = Id<Table>;

/// The id of a data segment.
pub type DataId = Id<Data>;

/// The id of an element segment.
pub type ElementId = Id<Element>;

/// The id of a tag.
pub type TagId = Id<Tag>;

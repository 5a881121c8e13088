//! Types of WebAssembly as data, the records of a type section, and the way between them.
//!
//! - [`Val`], [`Heap`] and their like are generic in what names a type: an index in a section, an
//!   id in a module.
//! - [`Type`] is a type of a module, which names others by id.
//! - [`GroupAt`] and [`EntryAt`] are the records of a type section, which name types by index.
//! - [`IndicesToIds`] and [`IdsToIndices`] lead from records to types, and back.
//! - [`Listed`] is a list that contracts see as a list.
//! - [`laws`] and [`record_laws`] have the theorems: how types and records compare, and that two
//!   with the same text or the same contents are equal.
//!
//! A record is read as a type through a map from indices to ids, and written again through a map
//! from ids to indices:
//!
//! ```
//! fn both_ways(alloc: Global, comp: &CompAt) -> Result<CompAt, Fail> {
//!     let read = CompositeType::from_record(alloc, comp, &ids(alloc)?)?;
//!     Ok(read.to_record(alloc, &indices(alloc)?)?)
//! }
//! ```
#![tactic(auto)]

mod convert;
mod error;
mod function_types;
mod indices;
pub mod laws;
mod listed;
pub mod record_laws;
mod records;
mod ty;

pub use convert::SubType;
pub use error::{FromRecordError, NoIndex, ToRecordError, UnknownIndex};
pub use function_types::FunctionTypes;
pub use indices::{
    Data, DataId, Element, ElementId, Function, FunctionId, Global, GlobalId, IdsToIndices,
    IndicesToIds, Memory, MemoryId, Table, TableId, Tag, TagId, TypeId,
};
pub use listed::Listed;
pub use records::{CompAt, EntryAt, FieldAt, GroupAt, HeapAt, RefAt, StorageAt, ValAt};
pub use ty::{
    AbstractHeapType, ArrayType, CompositeType, Field, FieldType, FunctionType, Heap, HeapType,
    RefType, Reference, Storage, StorageType, StructType, Type, Val, ValType,
};
pub use walrus_id::Id;

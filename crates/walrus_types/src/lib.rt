//! Types of WebAssembly modules, the records of a type section, and the normal form of a section.
//!
//! - [`Type`] is a type of a module, which names others by id, and [`ModuleTypes`] is the table of
//!   them.
//! - [`GroupAt`] and [`EntryAt`] are the records of a type section, which name types by index.
//!   [`IndicesToIds`] and [`IdsToIndices`] lead from one to the other.
//! - [`SectionReader`] and [`parse_types`] read a section into a table, and [`ModuleTypes::emit`]
//!   writes a table as a section.
//! - [`normalise`] returns the normal form of a section, which it makes of the records alone, and
//!   [`normalise_by_table`] the same by reading, then emitting.
//!   [`is_normal_form`] judges a normal form, and [`same_up_to_moves`] compares two sections.
//!   [`first_difference`] shows where two normal forms differ.
//! - [`laws`] and [`record_laws`] have the theorems.
//!
//! For a section `groups`, `wanted` is the normal form, and `map` has the new index of each entry,
//! as [`is_normal_form`] says too:
//!
//! ```
//! let (output, places) = normalise(alloc, HashKeys::fixed(), groups.as_slice())?;
//! assert!(rt; output == wanted);
//! assert_eq!(rt; places.as_slice(), map);
//! assert!(rt; is_normal_form(alloc, groups.as_slice(), wanted.as_slice(), map)?);
//! ```
//!
//! A type outside a recursion group is called a lone type. Groups keep their order and are never
//! merged, and a group of one is not the lone type. The map is applied to nothing else: the rest of
//! a module still names the old indices.
//!
//! Nothing here validates: for example, a supertype may be final, or not match.
#![tactic(auto)]

mod difference;
mod emit;
mod error;
pub mod laws;
mod moves;
mod read_then_emit;
mod section_reader;
mod table;

pub use difference::{entries_before, first_difference};
pub use error::EmitError;
pub use moves::same_up_to_moves;
pub use read_then_emit::normalise_by_table;
pub use section_reader::{SectionReader, parse_types};
pub use table::{AddRecGroupError, ModuleTypes, RecGroup, RecGroupId, TypesIter};
pub use walrus_arena::{HashKeys, Id};
pub use walrus_normal_form::{normalise, normalise_owned};
pub use walrus_normal_form_check::is_normal_form;
pub use walrus_sections::ReadError;
pub use walrus_ty::{
    AbstractHeapType, ArrayType, CompAt, CompositeType, Data, DataId, Element, ElementId, EntryAt,
    Field, FieldAt, FieldType, FromRecordError, Function, FunctionId, FunctionType, FunctionTypes,
    Global, GlobalId, GroupAt, Heap, HeapAt, HeapType, IdsToIndices, IndicesToIds, Listed, Memory,
    MemoryId, NoIndex, RefAt, RefType, Reference, Storage, StorageAt, StorageType, StructType,
    Table, TableId, Tag, TagId, ToRecordError, Type, TypeId, UnknownIndex, Val, ValAt, ValType,
    record_laws,
};

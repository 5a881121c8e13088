//! A type section as data, in which types are named by their index in the section.
//! WebAssembly core specification, "Types", and "Binary Format", type section.
use crate::{Field, Heap, Listed, Reference, Storage, Val};

/// A heap type of a section.
pub type HeapAt = Heap<u32>;

/// A reference type of a section.
pub type RefAt = Reference<u32>;

/// A value type of a section.
pub type ValAt = Val<u32>;

/// A storage type of a section.
pub type StorageAt = Storage<u32>;

/// A field type of a section.
pub type FieldAt = Field<u32>;

/// A composite type of a section: `comptype` in the WebAssembly specification.
#[derive(Clone, PartialEq, Eq, PartialOrd, Ord, Hash, Debug, Drop)]
pub enum CompAt {
    Function {
        params: Listed<ValAt>,
        results: Listed<ValAt>,
    },
    Struct {
        fields: Listed<FieldAt>,
    },
    Array {
        field: FieldAt,
    },
}

/// One definition of a section: `subtype` in the WebAssembly specification.
#[derive(Clone, PartialEq, Eq, PartialOrd, Ord, Hash, Debug, Drop)]
pub struct EntryAt {
    /// What the type is made of.
    pub comp: CompAt,
    /// Whether no type may name this one as its supertype.
    pub is_final: bool,
    /// The index of the type that this one is declared to be a subtype of.
    pub supertype: Option<u32>,
}

/// One recursion group of a section: `rectype` in the WebAssembly specification.
#[derive(Clone, PartialEq, Eq, Debug, Drop)]
pub enum GroupAt {
    /// A lone type: a definition outside a group. It is not the same as a `Rec` of that definition,
    /// although WebAssembly treats the two as equal.
    Single(EntryAt),
    /// Definitions that may name each other.
    Rec(Listed<EntryAt>),
}

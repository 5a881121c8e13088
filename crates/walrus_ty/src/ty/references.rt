//! Value types and what they are made of, in which types of a module are named by id, and the
//! reference types that have names of their own in the WebAssembly specification.
use super::{AbstractHeapType, Field, Heap, Reference, Storage, Val};
use crate::TypeId;

/// A heap type of a module.
pub type HeapType = Heap<TypeId>;

/// A reference type of a module.
pub type RefType = Reference<TypeId>;

/// A value type of a module.
pub type ValType = Val<TypeId>;

/// A storage type of a module.
pub type StorageType = Storage<TypeId>;

/// A field type of a module.
pub type FieldType = Field<TypeId>;

// Nullable references to abstract heap types.
impl Reference<TypeId> {
    /// The type of all internal references: structs, arrays, small integers, and what
    /// `any.convert_extern` gives.
    pub const ANYREF: RefType = Reference {
        nullable: true,
        heap_type: Heap::Abstract(AbstractHeapType::Any),
    };

    /// The type of references that can be compared.
    pub const EQREF: RefType = Reference {
        nullable: true,
        heap_type: Heap::Abstract(AbstractHeapType::Eq),
    };

    /// The type of references to functions.
    pub const FUNCREF: RefType = Reference {
        nullable: true,
        heap_type: Heap::Abstract(AbstractHeapType::Func),
    };

    /// The type of references that the host gives.
    pub const EXTERNREF: RefType = Reference {
        nullable: true,
        heap_type: Heap::Abstract(AbstractHeapType::Extern),
    };

    /// The type of references that are small integers.
    pub const I31REF: RefType = Reference {
        nullable: true,
        heap_type: Heap::Abstract(AbstractHeapType::I31),
    };

    /// The type of references to arrays.
    pub const ARRAYREF: RefType = Reference {
        nullable: true,
        heap_type: Heap::Abstract(AbstractHeapType::Array),
    };

    /// The type of references to structs.
    pub const STRUCTREF: RefType = Reference {
        nullable: true,
        heap_type: Heap::Abstract(AbstractHeapType::Struct),
    };

    /// The type of references to exceptions.
    pub const EXNREF: RefType = Reference {
        nullable: true,
        heap_type: Heap::Abstract(AbstractHeapType::Exn),
    };

    /// The type of the null reference of the types below `anyref`.
    pub const NULLREF: RefType = Reference {
        nullable: true,
        heap_type: Heap::Abstract(AbstractHeapType::None),
    };

    /// The type of the null reference of the types below `externref`.
    pub const NULLEXTERNREF: RefType = Reference {
        nullable: true,
        heap_type: Heap::Abstract(AbstractHeapType::NoExtern),
    };

    /// The type of the null reference of the types below `funcref`.
    pub const NULLFUNCREF: RefType = Reference {
        nullable: true,
        heap_type: Heap::Abstract(AbstractHeapType::NoFunc),
    };
}

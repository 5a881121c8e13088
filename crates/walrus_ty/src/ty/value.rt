//! Value types, heap types and fields, generic in the name of a type: an id in a module, an index
//! in a section. WebAssembly core specification, "Types".
ghost use Rattle.std.specs.Prelude.{◌≡◌};
ghost use Rattle.walrus_ty.specs.Definition.{supertype_names};
ghost use Rattle.walrus_ty.specs.Value.{heap_name, reference_name, val_name, storage_name, field_name};
ghost use Rattle.walrus_ty.specs.Value.{heap_names, reference_names, val_names, storage_names, field_names};

mod display;
mod views;

use walrus_id::Id;

/// A heap type of the WebAssembly core specification that no module defines.
#[derive(Clone, Copy, PartialEq, Eq, PartialOrd, Ord, Hash, Debug)]
pub enum AbstractHeapType {
    Func,
    Extern,
    Any,
    None,
    NoExtern,
    NoFunc,
    Eq,
    Struct,
    Array,
    I31,
    Exn,
    NoExn,
}

/// What a reference points at, where `N` names a type: `heaptype`.
#[derive(Clone, Copy, PartialEq, Eq, PartialOrd, Ord, Hash, Debug)]
pub enum Heap<N> {
    /// A type that the specification defines.
    Abstract(AbstractHeapType),
    /// A type of the section, or a subtype of it.
    Concrete(N),
    /// A type of the section, and no subtype of it: `exact` in the custom descriptors proposal.
    Exact(N),
}

/// A reference type, where `N` names a type: `reftype`.
#[derive(Clone, Copy, PartialEq, Eq, PartialOrd, Ord, Hash, Debug)]
pub struct Reference<N> {
    /// Whether the null reference is one of its values.
    pub nullable: bool,
    /// What it points at.
    pub heap_type: Heap<N>,
}

/// A value type, where `N` names a type: `valtype`.
#[derive(Clone, Copy, PartialEq, Eq, PartialOrd, Ord, Hash, Debug)]
pub enum Val<N> {
    I32,
    I64,
    F32,
    F64,
    V128,
    Ref(Reference<N>),
}

/// What a field holds, where `N` names a type: `storagetype`.
#[derive(Clone, Copy, PartialEq, Eq, PartialOrd, Ord, Hash, Debug)]
pub enum Storage<N> {
    Val(Val<N>),
    I8,
    I16,
}

/// A field of a struct or of an array, where `N` names a type: `fieldtype`.
#[derive(Clone, Copy, PartialEq, Eq, PartialOrd, Ord, Hash, Debug)]
pub struct Field<N> {
    /// What it holds.
    pub element_type: Storage<N>,
    /// Whether it can be written after it was made.
    pub mutable: bool,
}

impl<N: Copy> Heap<N> {
    /// The name in it, an index or an id; `None` for an abstract heap type.
    pub fn name(&self) -> Option<N>
        ensures { result ≡ heap_name self.now }
    {
        match self {
            Heap::Abstract(_) => None,
            Heap::Concrete(name) => Some(*name),
            Heap::Exact(name) => Some(*name),
        }
    }
}

impl<N: Copy> Reference<N> {
    /// The name in its heap type, if there is one.
    pub fn name(&self) -> Option<N>
        ensures { result ≡ reference_name self.now }
    {
        self.heap_type.name()
    }
}

impl<N: Copy> Val<N> {
    /// The name in it; `None` where it is no reference, or one to an abstract heap type.
    pub fn name(&self) -> Option<N>
        ensures { result ≡ val_name self.now }
    {
        match self {
            Val::Ref(reference) => reference.name(),
            Val::I32 => None,
            Val::I64 => None,
            Val::F32 => None,
            Val::F64 => None,
            Val::V128 => None,
        }
    }
}

impl<N: Copy> Storage<N> {
    /// The name in its value type; `None` where it is packed or names nothing.
    pub fn name(&self) -> Option<N>
        ensures { result ≡ storage_name self.now }
    {
        match self {
            Storage::Val(value) => value.name(),
            Storage::I8 => None,
            Storage::I16 => None,
        }
    }
}

impl<N: Copy> Field<N> {
    /// The name in what it holds, if there is one.
    pub fn name(&self) -> Option<N>
        ensures { result ≡ field_name self.now }
    {
        self.element_type.name()
    }
}

impl<T> Heap<Id<T>> {
    /// The type of the module that it names; `None` for an abstract heap type.
    ///
    /// ```
    /// let id: Id<bool> = Id::from_index(3);
    /// assert_eq!(rt; Heap::Exact(id).type_id(), Some(id));
    /// let func: Heap<Id<bool>> = Heap::Abstract(AbstractHeapType::Func);
    /// assert_eq!(rt; func.type_id(), None);
    /// ```
    #[tactic(auto, using(crate::proofs::Names::InLists::heap_named))]
    pub fn type_id(&self) -> Option<Id<T>>
        ensures name { result ≡ heap_name self.now }
        ensures all { supertype_names result ≡ heap_names self.now }
    {
        Heap::name(self)
    }
}

impl<T> Reference<Id<T>> {
    /// The type of the module that it points at; `None` where that is an abstract heap type.
    #[tactic(auto, using(crate::proofs::Names::InLists::reference_named))]
    pub fn type_id(&self) -> Option<Id<T>>
        ensures name { result ≡ reference_name self.now }
        ensures all { supertype_names result ≡ reference_names self.now }
    {
        Reference::name(self)
    }
}

impl<T> Val<Id<T>> {
    /// The type of the module that it names: what a reference points at, where that is no
    /// abstract heap type.
    #[tactic(auto, using(crate::proofs::Names::InLists::val_named))]
    pub fn type_id(&self) -> Option<Id<T>>
        ensures name { result ≡ val_name self.now }
        ensures all { supertype_names result ≡ val_names self.now }
    {
        Val::name(self)
    }
}

impl<T> Storage<Id<T>> {
    /// The type of the module that its value type names; `None` where it is packed.
    #[tactic(auto, using(crate::proofs::Names::InLists::storage_named))]
    pub fn type_id(&self) -> Option<Id<T>>
        ensures name { result ≡ storage_name self.now }
        ensures all { supertype_names result ≡ storage_names self.now }
    {
        Storage::name(self)
    }
}

impl<T> Field<Id<T>> {
    /// The type of the module that is named in what it holds.
    #[tactic(auto, using(crate::proofs::Names::InLists::field_named))]
    pub fn type_id(&self) -> Option<Id<T>>
        ensures name { result ≡ field_name self.now }
        ensures all { supertype_names result ≡ field_names self.now }
    {
        Field::name(self)
    }
}

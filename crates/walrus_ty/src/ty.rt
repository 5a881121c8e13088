//! Value types, and types as a module holds them: their definition, and what a module remembers of
//! them beside it.
ghost use Rattle.std.specs.Prelude.{◌≡◌, [], true, false, IsSome, IsSomeAnd, None};
ghost use Rattle.std.specs.Borrow.{Lends, sem};
ghost use Rattle.walrus_ty.specs.Types.{unnamed_type, function, signature_of, with_kind};
ghost use Rattle.walrus_ty.specs.contracts.ty.«Type».{the_row};
ghost use Rattle.walrus_ty.specs.contracts.ty.composite.CompositeType.{the_row as kind_row};

mod composite;
mod display;
mod names;
mod referenced;
mod references;
mod value;
mod views;

use crate::TypeId;
pub use composite::{ArrayType, CompositeType, FunctionType, StructType};
pub use references::{FieldType, HeapType, RefType, StorageType, ValType};
use std::alloc::Global;
use std::marker::Model;
pub use value::{AbstractHeapType, Field, Heap, Reference, Storage, Val};
use walrus_id::Tombstone;

/// A type of a module: a composite type, whether it is final, and its supertype.
///
/// Types compare and hash by composite, finality, supertype and the mark of a function entry, in
/// this order. The id and the name do not count.
#[derive(Clone, Drop)]
#[derive_where(PartialEq, Eq, PartialOrd, Ord, Hash, Debug)]
pub struct Type {
    pub(crate) kind: CompositeType,
    /// Whether no type may name this one as its supertype.
    pub is_final: bool,
    /// The type that this one is declared to be a subtype of.
    pub supertype: Option<TypeId>,
    is_for_function_entry: bool,
    #[derive_where(skip(EqHashOrd))]
    id: TypeId,
    /// The name that debug information gives the type.
    #[derive_where(skip(EqHashOrd))]
    pub name: Option<String>,
    // Where lists are made when it is deleted. It takes no room.
    #[derive_where(skip)]
    alloc: Global,
}

impl Model for Type {
    ghost use Rattle.walrus_ty.specs.Types.{ModuleType};

    ghost Value = { ModuleType };

    ghost view = { λ t. record {
      kind = t.kind;
      is_final = t.is_final;
      supertype = t.supertype;
      is_for_function_entry = t.is_for_function_entry;
      id = t.id;
      name = t.name;
    } };

    ghost inverse = { λ t. record {
      kind = t.kind;
      is_final = t.is_final;
      supertype = t.supertype;
      is_for_function_entry = t.is_for_function_entry;
      id = t.id;
      name = t.name;
      alloc = record { memory = record { seal = tt } };
    } };
}

impl Type {
    /// A type without a name and without the mark of a function entry. It takes no memory: `alloc`
    /// is needed when the type is deleted.
    pub fn new(
        alloc: Global,
        id: TypeId,
        kind: CompositeType,
        is_final: bool,
        supertype: Option<TypeId>,
    ) -> Type
        ensures { result ≡ unnamed_type kind is_final supertype false id }
    {
        Type {
            kind,
            is_final,
            supertype,
            is_for_function_entry: false,
            id,
            name: None,
            alloc,
        }
    }

    /// The function type without parameters that marks the results of a function body.
    pub fn for_function_entry(id: TypeId, results: Vec<ValType>) -> Type
        ensures { result ≡ unnamed_type (function [] results.items) true None true id }
    {
        let function = FunctionType::new(Vec::new(*results.allocator()), results);
        Type {
            alloc: function.allocator(),
            kind: CompositeType::Function(function),
            is_final: true,
            supertype: None,
            is_for_function_entry: true,
            id,
            name: None,
        }
    }

    /// The id that it was made with.
    pub fn id(&self) -> TypeId
        ensures { result ≡ self.now.id }
    {
        self.id
    }

    /// What it is made of.
    pub fn kind(&self) -> &CompositeType
        ensures { result.now ≡ self.now.kind }
    {
        &self.kind
    }

    /// What it is made of, for writing.
    pub fn kind_mut(&mut self) -> &mut CompositeType
        ensures* writes_back { sem 𝓛
            (Lends the_row kind_row self.entry result (with_kind self.old)) }
        ensures value { result.now ≡ self.old.kind }
    {
        &mut self.kind
    }

    /// The parameters of a function type.
    pub fn params(&self) -> &[ValType]
        requires { IsSome (signature_of self.now.kind) }
        ensures { IsSomeAnd (signature_of self.now.kind) (λ f. result.now ≡ f.params) }
    {
        self.kind.unwrap_function().params()
    }

    /// The results of a function type.
    pub fn results(&self) -> &[ValType]
        requires { IsSome (signature_of self.now.kind) }
        ensures { IsSomeAnd (signature_of self.now.kind) (λ f. result.now ≡ f.results) }
    {
        self.kind.unwrap_function().results()
    }

    /// Whether it marks the block type of a function body. Such a type is not a definition of its
    /// module's section.
    pub fn is_for_function_entry(&self) -> bool
        ensures { result ≡ self.now.is_for_function_entry }
    {
        self.is_for_function_entry
    }
}

impl Tombstone for Type {
    /// Frees the lists that it holds. Whatever it was, it becomes the function type without
    /// parameters and results.
    fn on_delete(&mut self)
        ensures { self.new ≡ with_kind self.old (function [] []) }
    {
        let nothing = FunctionType::new(Vec::new(self.alloc), Vec::new(self.alloc));
        self.kind = CompositeType::Function(nothing);
    }
}

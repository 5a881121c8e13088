//! What `Hash` looks at.
ghost use Rattle.std.specs.Prelude.{ℕ};
ghost use Rattle.walrus_ty.specs.Comparison.{type_parts};
ghost use Rattle.walrus_ty.specs.HashInput.{CompositeFits, DefinitionFits, Fits, HashesBy, ListFits};
ghost use Rattle.walrus_ty.specs.Records.{comp_composite, entry_definition};
ghost use Rattle.walrus_ty.specs.Signature.{Signature};
ghost use Rattle.walrus_ty.specs.Types.{kind_composite, type_definition};
ghost use Rattle.walrus_ty.specs.Value.{heap_name, reference_name, val_name, storage_name, field_name};
ghost use Rattle.walrus_ty.specs.declared.records.CompAt.{CompAt as CompShape};
ghost use Rattle.walrus_ty.specs.declared.records.EntryAt.{EntryAt as EntryShape};
ghost use Rattle.walrus_ty.specs.declared.ty.composite.ArrayType.{ArrayType as ArrayShape};
ghost use Rattle.walrus_ty.specs.declared.ty.composite.CompositeType.{CompositeType as CompositeKind};
ghost use Rattle.walrus_ty.specs.declared.ty.composite.StructType.{StructType as StructShape};
ghost use Rattle.walrus_ty.specs.declared.ty.value.Field.{Field};
ghost use Rattle.walrus_ty.specs.declared.ty.value.Heap.{Heap};
ghost use Rattle.walrus_ty.specs.declared.ty.value.Reference.{Reference};
ghost use Rattle.walrus_ty.specs.declared.ty.value.Storage.{Storage};
ghost use Rattle.walrus_ty.specs.declared.ty.value.Val as value;

use crate::{
    ArrayType, CompAt, CompositeType, EntryAt, FieldAt, FieldType, FunctionType, HeapAt, HeapType,
    RefAt, RefType, StorageAt, StorageType, StructType, Type, ValAt, ValType,
};
use std::hash::Hash;

/// `Hash` looks at what `==` looks at. Take two of the types that a program can hold, or of their
/// parts. They feed a hasher the same exactly where every part is the same. For a `Type` these are
/// four parts, without its id and its name.
pub fn hashes_agree()
    ensures heap_types { HashesBy (λ (h : Heap ℕ). h) (λ h. Fits 64 (heap_name h))
        ⟦<HeapType as Hash>⟧.hash_input }
    ensures references { HashesBy (λ (r : Reference ℕ). r) (λ r. Fits 64 (reference_name r))
        ⟦<RefType as Hash>⟧.hash_input }
    ensures vals { HashesBy (λ (v : value.Val ℕ). v) (λ v. Fits 64 (val_name v))
        ⟦<ValType as Hash>⟧.hash_input }
    ensures storages { HashesBy (λ (s : Storage ℕ). s) (λ s. Fits 64 (storage_name s))
        ⟦<StorageType as Hash>⟧.hash_input }
    ensures fields { HashesBy (λ (f : Field ℕ). f) (λ f. Fits 64 (field_name f))
        ⟦<FieldType as Hash>⟧.hash_input }
    ensures functions { HashesBy (λ (f : Signature). f)
        (λ f. ListFits val_name 64 f.params × ListFits val_name 64 f.results)
        ⟦<FunctionType as Hash>⟧.hash_input }
    ensures structs { HashesBy (λ (s : StructShape). s) (λ s. ListFits field_name 64 s.fields)
        ⟦<StructType as Hash>⟧.hash_input }
    ensures arrays { HashesBy (λ (a : ArrayShape). a) (λ a. Fits 64 (field_name a.field))
        ⟦<ArrayType as Hash>⟧.hash_input }
    ensures kinds { HashesBy (λ (k : CompositeKind). k)
        (λ k. CompositeFits 64 (kind_composite k))
        ⟦<CompositeType as Hash>⟧.hash_input }
    ensures types { HashesBy type_parts (λ t. DefinitionFits 64 (type_definition t))
        ⟦<Type as Hash>⟧.hash_input }
{}

/// `Hash` looks at every part of the records of a section.
pub fn record_hashes_agree()
    ensures heap_types { HashesBy (λ (h : Heap ℕ). h) (λ h. Fits 32 (heap_name h))
        ⟦<HeapAt as Hash>⟧.hash_input }
    ensures references { HashesBy (λ (r : Reference ℕ). r) (λ r. Fits 32 (reference_name r))
        ⟦<RefAt as Hash>⟧.hash_input }
    ensures vals { HashesBy (λ (v : value.Val ℕ). v) (λ v. Fits 32 (val_name v))
        ⟦<ValAt as Hash>⟧.hash_input }
    ensures storages { HashesBy (λ (s : Storage ℕ). s) (λ s. Fits 32 (storage_name s))
        ⟦<StorageAt as Hash>⟧.hash_input }
    ensures fields { HashesBy (λ (f : Field ℕ). f) (λ f. Fits 32 (field_name f))
        ⟦<FieldAt as Hash>⟧.hash_input }
    ensures comps { HashesBy (λ (c : CompShape). c) (λ c. CompositeFits 32 (comp_composite c))
        ⟦<CompAt as Hash>⟧.hash_input }
    ensures entries { HashesBy (λ (e : EntryShape). e)
        (λ e. DefinitionFits 32 (entry_definition e))
        ⟦<EntryAt as Hash>⟧.hash_input }
{}

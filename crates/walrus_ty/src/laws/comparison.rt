//! That comparisons agree, and what they look at.
ghost use Rattle.std.specs.Ordering.{ordering_then};
ghost use Rattle.std.specs.Prelude.{◌≡◌, ℕ};
ghost use Rattle.std.specs.Cmp.Lexicographic.{slice_cmp};
ghost use Rattle.walrus_ty.specs.Comparison.{ComparesBy, type_parts};
ghost use Rattle.walrus_ty.specs.Definition.{composite_cmp};
ghost use Rattle.walrus_ty.specs.Records.{comp_composite};
ghost use Rattle.walrus_ty.specs.Signature.{Signature};
ghost use Rattle.walrus_ty.specs.Types.{kind_composite};
ghost use Rattle.walrus_ty.specs.Value.{heap_cmp, reference_cmp, storage_cmp, val_cmp, field_cmp};
ghost use Rattle.walrus_ty.specs.declared.records.CompAt.{CompAt as CompShape};
ghost use Rattle.walrus_ty.specs.declared.records.EntryAt.{EntryAt as EntryShape};
ghost use Rattle.walrus_ty.specs.declared.ty.composite.ArrayType.{ArrayType as ArrayShape};
ghost use Rattle.walrus_ty.specs.declared.ty.composite.CompositeType.{CompositeType as CompositeKind};
ghost use Rattle.walrus_ty.specs.declared.ty.composite.StructType.{StructType as StructShape};
ghost use Rattle.walrus_ty.specs.declared.ty.value.Field.{Field};
ghost use Rattle.walrus_ty.specs.declared.ty.value.Heap.{Heap};
ghost use Rattle.walrus_ty.specs.declared.ty.value.Reference.{Reference};
ghost use Rattle.walrus_ty.specs.declared.ty.value.Storage.{Storage};
ghost use Rattle.walrus_ty.specs.declared.ty.value.Val as value;

use crate::{
    ArrayType, CompAt, CompositeType, EntryAt, FieldAt, FieldType, FunctionType, HeapAt, HeapType,
    RefAt, RefType, StorageAt, StorageType, StructType, Type, ValAt, ValType,
};

/// `==` and the order agree, for types and for what they are made of. They look at every part, and
/// at four parts of a `Type`: its id and its name do not count.
pub fn comparisons_agree()
    ensures heap_types { ComparesBy (λ (h : Heap ℕ). h)
        ⟦<HeapType as PartialEq>⟧.eq ⟦<HeapType as Ord>⟧.cmp }
    ensures references { ComparesBy (λ (r : Reference ℕ). r)
        ⟦<RefType as PartialEq>⟧.eq ⟦<RefType as Ord>⟧.cmp }
    ensures vals { ComparesBy (λ (v : value.Val ℕ). v)
        ⟦<ValType as PartialEq>⟧.eq ⟦<ValType as Ord>⟧.cmp }
    ensures storages { ComparesBy (λ (s : Storage ℕ). s)
        ⟦<StorageType as PartialEq>⟧.eq ⟦<StorageType as Ord>⟧.cmp }
    ensures fields { ComparesBy (λ (f : Field ℕ). f)
        ⟦<FieldType as PartialEq>⟧.eq ⟦<FieldType as Ord>⟧.cmp }
    ensures functions { ComparesBy (λ (f : Signature). f)
        ⟦<FunctionType as PartialEq>⟧.eq ⟦<FunctionType as Ord>⟧.cmp }
    ensures structs { ComparesBy (λ (s : StructShape). s)
        ⟦<StructType as PartialEq>⟧.eq ⟦<StructType as Ord>⟧.cmp }
    ensures arrays { ComparesBy (λ (a : ArrayShape). a)
        ⟦<ArrayType as PartialEq>⟧.eq ⟦<ArrayType as Ord>⟧.cmp }
    ensures kinds { ComparesBy (λ (k : CompositeKind). k)
        ⟦<CompositeType as PartialEq>⟧.eq ⟦<CompositeType as Ord>⟧.cmp }
    ensures types { ComparesBy type_parts
        ⟦<Type as PartialEq>⟧.eq ⟦<Type as Ord>⟧.cmp }
{}

/// `==` and the order of records of a section agree, and look at every part.
pub fn record_comparisons_agree()
    ensures heap_types { ComparesBy (λ (h : Heap ℕ). h)
        ⟦<HeapAt as PartialEq>⟧.eq ⟦<HeapAt as Ord>⟧.cmp }
    ensures references { ComparesBy (λ (r : Reference ℕ). r)
        ⟦<RefAt as PartialEq>⟧.eq ⟦<RefAt as Ord>⟧.cmp }
    ensures vals { ComparesBy (λ (v : value.Val ℕ). v)
        ⟦<ValAt as PartialEq>⟧.eq ⟦<ValAt as Ord>⟧.cmp }
    ensures storages { ComparesBy (λ (s : Storage ℕ). s)
        ⟦<StorageAt as PartialEq>⟧.eq ⟦<StorageAt as Ord>⟧.cmp }
    ensures fields { ComparesBy (λ (f : Field ℕ). f)
        ⟦<FieldAt as PartialEq>⟧.eq ⟦<FieldAt as Ord>⟧.cmp }
    ensures comps { ComparesBy (λ (c : CompShape). c)
        ⟦<CompAt as PartialEq>⟧.eq ⟦<CompAt as Ord>⟧.cmp }
    ensures entries { ComparesBy (λ (e : EntryShape). e)
        ⟦<EntryAt as PartialEq>⟧.eq ⟦<EntryAt as Ord>⟧.cmp }
{}

/// The parts of types compare by their cases, in the order of declaration, and then by their own
/// parts from left to right. Lists compare as words in a dictionary.
pub fn parts_in_order()
    ensures heap_types { (h g : Heap ℕ) → ⟦<HeapType as Ord>⟧.cmp h g ≡ heap_cmp h g }
    ensures references { (r q : Reference ℕ) → ⟦<RefType as Ord>⟧.cmp r q ≡ reference_cmp r q }
    ensures storages { (s t : Storage ℕ) → ⟦<StorageType as Ord>⟧.cmp s t ≡ storage_cmp s t }
    ensures functions { (f g : Signature) → ⟦<FunctionType as Ord>⟧.cmp f g ≡
        ordering_then (slice_cmp val_cmp f.params g.params)
        (slice_cmp val_cmp f.results g.results) }
    ensures structs { (s t : StructShape) → ⟦<StructType as Ord>⟧.cmp s t ≡
        slice_cmp field_cmp s.fields t.fields }
    ensures arrays { (a b : ArrayShape) → ⟦<ArrayType as Ord>⟧.cmp a b ≡
        field_cmp a.field b.field }
    ensures kinds { (k l : CompositeKind) → ⟦<CompositeType as Ord>⟧.cmp k l ≡
        composite_cmp (kind_composite k) (kind_composite l) }
    ensures section_heap_types { (h g : Heap ℕ) → ⟦<HeapAt as Ord>⟧.cmp h g ≡ heap_cmp h g }
    ensures section_references { (r q : Reference ℕ) →
        ⟦<RefAt as Ord>⟧.cmp r q ≡ reference_cmp r q }
    ensures section_storages { (s t : Storage ℕ) →
        ⟦<StorageAt as Ord>⟧.cmp s t ≡ storage_cmp s t }
    ensures comps { (c d : CompShape) → ⟦<CompAt as Ord>⟧.cmp c d ≡
        composite_cmp (comp_composite c) (comp_composite d) }
{}

//! Laws of types, of section records and of their texts. Each function does nothing, or returns
//! what its clause speaks of. Its clauses are theorems, which a caller gets by calling it.
ghost use Rattle.std.specs.Ordering.{ordering_reverse, ordering_then};
ghost use Rattle.std.specs.Prelude.{◌<◌, ◌^◌, ◌≡◌, ◌↔◌, IsTrue, List, ℕ};
ghost use Rattle.std.specs.declared.cmp.Ordering.TheVariants.{Equal, Less};
ghost use Rattle.walrus_ty.specs.Definition.{Definition, definition_cmp};
ghost use Rattle.walrus_ty.specs.declared.records.GroupAt.{GroupAt};
ghost use Rattle.walrus_ty.specs.Text.{HasPlaces, val_text};
ghost use Rattle.walrus_ty.specs.Types.{ModuleType, type_definition};
ghost use Rattle.walrus_ty.specs.Value.{bool_cmp, field_cmp, val_cmp};
ghost use Rattle.walrus_ty.specs.Views.{constant_of};
ghost use Rattle.walrus_ty.specs.Records.{entry_definition, section_of};
ghost use Rattle.walrus_ty.specs.declared.records.EntryAt.{EntryAt};
ghost use Rattle.walrus_ty.specs.declared.records.CompAt.{CompAt as CompShape};
ghost use Rattle.walrus_ty.specs.declared.ty.composite.CompositeType.{CompositeType as CompositeKind};
ghost use Rattle.walrus_ty.specs.declared.ty.value.Field.{Field};
ghost use Rattle.walrus_ty.specs.declared.ty.value.Heap.{Heap as HeapShape};
ghost use Rattle.walrus_ty.specs.declared.ty.value.Reference.{Reference as ReferenceShape};
ghost use Rattle.walrus_ty.specs.declared.ty.value.Storage.{Storage as StorageShape};
ghost use Rattle.walrus_ty.specs.Signature.{Signature};
ghost use Rattle.walrus_ty.specs.declared.ty.value.Val as value;

mod comparison;
mod hashes;

use crate::{
    AbstractHeapType, CompAt, CompositeType, EntryAt, FieldAt, FieldType, FunctionType, GroupAt,
    Heap, HeapAt, HeapType, RefAt, RefType, StorageAt, StorageType, Type, TypeId, Val, ValAt,
    ValType,
};
pub use comparison::{comparisons_agree, parts_in_order, record_comparisons_agree};
pub use hashes::{hashes_agree, record_hashes_agree};

/// The order of definitions is total, and only a definition itself is equal to it.
pub fn definitions_in_order()
    ensures reversed { (d e : Definition) →
        definition_cmp d e ≡ ordering_reverse (definition_cmp e d) }
    ensures transitive { (d e f : Definition) → definition_cmp d e ≡ Less →
        definition_cmp e f ≡ Less →
        definition_cmp d f ≡ Less }
    ensures exact { (d e : Definition) → (definition_cmp d e ≡ Equal ↔ d ≡ e) }
{}

/// Types compare as what they define, and then by the mark of a function entry.
pub fn types_in_order()
    ensures order { (t u : ModuleType) →
        ⟦<Type as Ord>⟧.cmp t u ≡
        ordering_then (definition_cmp (type_definition t) (type_definition u))
        (bool_cmp t.is_for_function_entry u.is_for_function_entry) }
    ensures equal { (t u : ModuleType) →
        (IsTrue (⟦<Type as PartialEq>⟧.eq t u) ↔
        ((type_definition t ≡ type_definition u) ×
        (t.is_for_function_entry ≡ u.is_for_function_entry))) }
{}

/// Value types and fields, of a module and of a section, compare by their cases, in the order of
/// declaration, and then by their parts from left to right.
pub fn value_types_in_order()
    ensures vals { (v w : value.Val ℕ) → ⟦<ValType as Ord>⟧.cmp v w ≡ val_cmp v w }
    ensures fields { (f g : Field ℕ) → ⟦<FieldType as Ord>⟧.cmp f g ≡ field_cmp f g }
    ensures section_vals { (v w : value.Val ℕ) → ⟦<ValAt as Ord>⟧.cmp v w ≡ val_cmp v w }
    ensures section_fields { (f g : Field ℕ) → ⟦<FieldAt as Ord>⟧.cmp f g ≡ field_cmp f g }
{}

/// Section records compare as what they define.
pub fn entries_in_order()
    ensures order { (d e : EntryAt) →
        ⟦<EntryAt as Ord>⟧.cmp d e ≡ definition_cmp (entry_definition d) (entry_definition e) }
    ensures equal { (d e : EntryAt) →
        (IsTrue (⟦<EntryAt as PartialEq>⟧.eq d e) ↔ (entry_definition d ≡ entry_definition e)) }
{}

/// Section records with the same contents are the same. So what the laws say of contents holds of
/// records.
pub fn contents_tell_records()
    ensures entry { (d e : EntryAt) → entry_definition d ≡ entry_definition e → d ≡ e }
    ensures section { (gs hs : List GroupAt) → section_of gs ≡ section_of hs → gs ≡ hs }
{}

/// Equal types of a module are the same in every part, whatever it is of: heap types, references,
/// value types, storages and fields, and the composite types that are made of them.
pub fn equal_value_types_are_the_same()
    ensures heap_types { (h g : HeapShape ℕ) →
        (IsTrue (⟦<HeapType as PartialEq>⟧.eq h g) ↔ (h ≡ g)) }
    ensures references { (r q : ReferenceShape ℕ) →
        (IsTrue (⟦<RefType as PartialEq>⟧.eq r q) ↔ (r ≡ q)) }
    ensures vals { (v w : value.Val ℕ) → (IsTrue (⟦<ValType as PartialEq>⟧.eq v w) ↔ (v ≡ w)) }
    ensures storages { (s t : StorageShape ℕ) →
        (IsTrue (⟦<StorageType as PartialEq>⟧.eq s t) ↔ (s ≡ t)) }
    ensures fields { (f g : Field ℕ) → (IsTrue (⟦<FieldType as PartialEq>⟧.eq f g) ↔ (f ≡ g)) }
    ensures functions { (f g : Signature) →
        (IsTrue (⟦<FunctionType as PartialEq>⟧.eq f g) ↔ (f ≡ g)) }
    ensures kinds { (c d : CompositeKind) →
        (IsTrue (⟦<CompositeType as PartialEq>⟧.eq c d) ↔ (c ≡ d)) }
{}

/// Equal records of a section are the same in every part.
pub fn equal_records_are_the_same()
    ensures heap_types { (h g : HeapShape ℕ) →
        (IsTrue (⟦<HeapAt as PartialEq>⟧.eq h g) ↔ (h ≡ g)) }
    ensures references { (r q : ReferenceShape ℕ) →
        (IsTrue (⟦<RefAt as PartialEq>⟧.eq r q) ↔ (r ≡ q)) }
    ensures vals { (v w : value.Val ℕ) → (IsTrue (⟦<ValAt as PartialEq>⟧.eq v w) ↔ (v ≡ w)) }
    ensures storages { (s t : StorageShape ℕ) →
        (IsTrue (⟦<StorageAt as PartialEq>⟧.eq s t) ↔ (s ≡ t)) }
    ensures fields { (f g : Field ℕ) → (IsTrue (⟦<FieldAt as PartialEq>⟧.eq f g) ↔ (f ≡ g)) }
    ensures comps { (c d : CompShape) → (IsTrue (⟦<CompAt as PartialEq>⟧.eq c d) ↔ (c ≡ d)) }
    ensures entries { (d e : EntryAt) → (IsTrue (⟦<EntryAt as PartialEq>⟧.eq d e) ↔ (d ≡ e)) }
    ensures groups { (g h : GroupAt) → (IsTrue (⟦<GroupAt as PartialEq>⟧.eq g h) ↔ (g ≡ h)) }
{}

/// Two value types with the same text are equal, where the names in them are places. The ids of a
/// `ValType` are, so [`same_text`] says it of any two of them.
pub fn text_tells_value_types()
    ensures { (v w : value.Val ℕ) → HasPlaces v → HasPlaces w → val_text v ≡ val_text w → v ≡ w }
{}

/// Two value types with the same text are equal: the law above, for these two.
pub fn same_text(v: &ValType, w: &ValType)
    ensures { val_text v.now ≡ val_text w.now → v.now ≡ w.now }
{
    has_places(v);
    has_places(w);
}

/// What each constant such as `RefType::ANYREF` is: the nullable reference to the heap type
/// of its name. `NoExn` has no constant.
pub fn reference_constant(name: AbstractHeapType) -> Option<RefType>
    ensures { result ≡ constant_of name }
{
    match name {
        AbstractHeapType::Func => Some(RefType::FUNCREF),
        AbstractHeapType::Extern => Some(RefType::EXTERNREF),
        AbstractHeapType::Any => Some(RefType::ANYREF),
        AbstractHeapType::None => Some(RefType::NULLREF),
        AbstractHeapType::NoExtern => Some(RefType::NULLEXTERNREF),
        AbstractHeapType::NoFunc => Some(RefType::NULLFUNCREF),
        AbstractHeapType::Eq => Some(RefType::EQREF),
        AbstractHeapType::Struct => Some(RefType::STRUCTREF),
        AbstractHeapType::Array => Some(RefType::ARRAYREF),
        AbstractHeapType::I31 => Some(RefType::I31REF),
        AbstractHeapType::Exn => Some(RefType::EXNREF),
        AbstractHeapType::NoExn => None,
    }
}

// Its ids are places in an arena, which are `usize`.
fn has_places(v: &ValType)
    ensures { HasPlaces v.now }
{
    let Val::Ref(reference) = v else {
        return;
    };
    match reference.heap_type {
        Heap::Abstract(_) => {}
        Heap::Concrete(id) => place(id),
        Heap::Exact(id) => place(id),
    }
}

fn place(id: TypeId)
    ensures { id < 2 ^ 64 }
{
    id.index();
}

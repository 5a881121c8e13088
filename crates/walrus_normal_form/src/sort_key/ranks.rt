//! Ranks of value types and fields: less for a lesser one.
ghost use Rattle.std.specs.Prelude.{◌≡◌, ◌≤◌};
ghost use Rattle.walrus_normal_form.specs.SortKeys.{heap_place, val_place, storage_place, is_open, val_rank, field_rank, marked_items, item_rank, first_rank, after_first};
ghost use Rattle.walrus_ty.specs.Value.{abstract_index};

use std::marker::Model;
use walrus_ty::{AbstractHeapType, Field, Heap, Storage, Val};

// The place of the first reference type, behind five of numbers and vectors.
const FIRST_REFERENCE: u8 = 5;

// The place of the first reference type that may be null, behind those that can't.
const FIRST_NULLABLE: u8 = FIRST_REFERENCE + HEAP_TYPES;

// The place of the first packed type, behind the references.
const FIRST_PACKED: u8 = FIRST_NULLABLE + HEAP_TYPES;

// The abstract heap types, and one place for all that name a type.
const HEAP_TYPES: u8 = NAMED_HEAP + 1;

const NAMED_HEAP: u8 = 12;

// The ranks of a reference to a type and of a nullable one, which do not determine the type.
const NAMED: u8 = 2 * (FIRST_REFERENCE + NAMED_HEAP + 1);

const NAMED_OR_NULL: u8 = 2 * (FIRST_NULLABLE + NAMED_HEAP + 1);

/// The rank of the mark between parameters and results, which is less than theirs.
pub const MARK: u8 = 1;

// What is left to look at of a function type: values, and if they are marked, behind a mark further
// values.
#[derive(Drop)]
pub(super) struct Items<'a, N> {
    vals: &'a [Val<N>],
    is_marked: bool,
    further: &'a [Val<N>],
}

impl<'a, N> Model for Items<'a, N> {
    ghost use Rattle.std.specs.Prelude.{List, Option};
    ghost use Rattle.walrus_ty.specs.declared.ty.value.Val.{Val};
    ghost use Rattle.walrus_normal_form.specs.SortKeys.{marked_items};

    ghost Value = { List (Option (Val N)) };

    ghost view = { λ s. marked_items s.vals.now s.is_marked s.further.now };
}

impl<'a, N> Items<'a, N> {
    pub(super) fn new(vals: &'a [Val<N>], is_marked: bool, further: &'a [Val<N>]) -> Items<'a, N>
        ensures { result ≡ marked_items vals.now is_marked further.now }
    {
        Items {
            vals,
            is_marked,
            further,
        }
    }

    // The rank of the first, and what is left to look at.
    pub(super) fn first(self) -> (u8, Items<'a, N>)
        ensures first { result.0 ≡ first_rank item_rank self.entry }
        ensures after { result.1 ≡ after_first item_rank self.entry }
    {
        match self.vals {
            [] => {
                if self.is_marked {
                    (MARK, Items::new(self.further, false, &[]))
                } else {
                    (0, Items::new(&[], false, &[]))
                }
            }
            [val, rest @ ..] => {
                let rank = rank_of_val(val);
                if is_open(rank) {
                    (rank, Items::new(&[], false, &[]))
                } else {
                    (rank, Items::new(rest, self.is_marked, self.further))
                }
            }
        }
    }
}

// The rank of the first, and what is left to look at.
pub(super) fn first_field<N>(fields: &[Field<N>]) -> (u8, &[Field<N>])
    ensures first { result.0 ≡ first_rank field_rank fields.now }
    ensures after { result.1.now ≡ after_first field_rank fields.now }
{
    match fields {
        [] => (0, fields),
        [field, rest @ ..] => {
            let rank = rank_of_field(field);
            (rank, if is_open(rank) { &[] } else { rest })
        }
    }
}

fn place_of_abstract(heap: AbstractHeapType) -> u8
    ensures { result ≡ abstract_index heap }
{
    match heap {
        AbstractHeapType::Func => 0,
        AbstractHeapType::Extern => 1,
        AbstractHeapType::Any => 2,
        AbstractHeapType::None => 3,
        AbstractHeapType::NoExtern => 4,
        AbstractHeapType::NoFunc => 5,
        AbstractHeapType::Eq => 6,
        AbstractHeapType::Struct => 7,
        AbstractHeapType::Array => 8,
        AbstractHeapType::I31 => 9,
        AbstractHeapType::Exn => 10,
        AbstractHeapType::NoExn => 11,
    }
}

fn place_of_heap<N>(heap: &Heap<N>) -> u8
    ensures place { result ≡ heap_place heap.now }
    ensures small { result ≤ 12 }
{
    match heap {
        Heap::Abstract(heap) => place_of_abstract(*heap),
        Heap::Concrete(_) => NAMED_HEAP,
        Heap::Exact(_) => NAMED_HEAP,
    }
}

// The place of a value type in the order, where all references to types have one place, and
// nullable ones another.
fn place_of_val<N>(val: &Val<N>) -> u8
    ensures place { result ≡ val_place val.now }
    ensures small { result ≤ 30 }
{
    match val {
        Val::I32 => 0,
        Val::I64 => 1,
        Val::F32 => 2,
        Val::F64 => 3,
        Val::V128 => 4,
        Val::Ref(reference) => {
            let first = if reference.nullable {
                FIRST_NULLABLE
            } else {
                FIRST_REFERENCE
            };
            first + place_of_heap(&reference.heap_type)
        }
    }
}

fn place_of_storage<N>(storage: &Storage<N>) -> u8
    ensures place { result ≡ storage_place storage.now }
    ensures small { result ≤ 32 }
{
    match storage {
        Storage::Val(val) => place_of_val(val),
        Storage::I8 => FIRST_PACKED,
        Storage::I16 => FIRST_PACKED + 1,
    }
}

// Whether this is the rank of something that names a type. Such a rank does not say which type.
fn is_open(rank: u8) -> bool
    ensures { result ≡ is_open rank }
{
    rank == NAMED || rank == NAMED_OR_NULL
}

fn rank_of_val<N>(val: &Val<N>) -> u8
    ensures { result ≡ val_rank val.now }
{
    2 * (place_of_val(val) + 1)
}

pub(super) fn rank_of_field<N>(field: &Field<N>) -> u8
    ensures { result ≡ field_rank field.now }
{
    let rank = 2 * (place_of_storage(&field.element_type) + 1);
    if is_open(rank) {
        rank
    } else {
        rank + u8::from(field.mutable)
    }
}

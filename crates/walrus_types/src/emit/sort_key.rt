//! Types with their sort keys. Of two types the one with the lesser key is less.
ghost use Rattle.std.specs.Prelude.{◌≡◌};
ghost use Rattle.walrus_ty.specs.contracts.ty.TypeEq.TheImpl.Laws as type_eq;
ghost use Rattle.walrus_ty.specs.contracts.ty.TypeOrd.TheImpl.Laws as type_ord;
ghost use Rattle.walrus_ty.specs.contracts.ty.TypePartialEq.TheImpl.Laws as type_partial_eq;
ghost use Rattle.walrus_ty.specs.contracts.ty.TypePartialOrd.TheImpl.Laws as type_partial_ord;
ghost use Rattle.walrus_types.specs.Steps.SortKeys.{type_sort_key};

use crate::{CompositeType, Type};
use std::cmp::Ordering;
use std::marker::Model;
use walrus_normal_form::sort_key::{
    SortKey, array_sort_key, compare_keys, function_sort_key, struct_sort_key,
};

// A type with its key. It compares as the type does.
#[derive(Drop)]
pub(super) struct KeyedType<'a> {
    key: SortKey,
    ty: &'a Type,
}

impl<'a> Model for KeyedType<'a> {
    ghost use Rattle.std.specs.Prelude.{◌≡◌};
    ghost use Rattle.walrus_types.specs.Steps.SortKeys.{type_sort_key};
    ghost use Rattle.walrus_ty.specs.Types.{ModuleType};

    ghost Value = { ModuleType };

    ghost view = { λ s. s.ty.now };

    ghost invariant = { λ s. s.key ≡ type_sort_key s.ty.now };
}

impl<'a> KeyedType<'a> {
    pub(super) fn new(ty: &'a Type) -> KeyedType<'a>
        ensures { result ≡ ty.now }
    {
        KeyedType {
            key: sort_key_of(ty),
            ty,
        }
    }
}

impl<'a> PartialEq for KeyedType<'a> {
    ghost eq = { ⟦<Type as PartialEq>⟧.eq };

    ghost laws = { type_partial_eq.laws-law };

    fn eq(&self, other: &Self) -> bool {
        self.ty == other.ty
    }
}

impl<'a> Eq for KeyedType<'a> {
    ghost laws = { type_eq.laws-law };
}

impl<'a> PartialOrd for KeyedType<'a> {
    ghost partial_cmp = { ⟦<Type as PartialOrd>⟧.partial_cmp };

    ghost laws = { type_partial_ord.laws-law };

    fn partial_cmp(&self, other: &Self) -> Option<Ordering> {
        self.ty.partial_cmp(other.ty)
    }
}

impl<'a> Ord for KeyedType<'a> {
    ghost cmp = { ⟦<Type as Ord>⟧.cmp };

    ghost total = { type_ord.total-law };

    ghost matches_partial_cmp = { type_ord.matches_partial_cmp-law };

    ghost matches_eq = { type_ord.matches_eq-law };

    fn cmp(&self, other: &Self) -> Ordering {
        match compare_keys(self.key, other.key) {
            Ordering::Equal => compare_types(self.ty, other.ty),
            Ordering::Less => Ordering::Less,
            Ordering::Greater => Ordering::Greater,
        }
    }
}

fn sort_key_of(ty: &Type) -> SortKey
    ensures { result ≡ type_sort_key ty.now }
{
    match ty.kind() {
        CompositeType::Function(function) => {
            function_sort_key(function.params(), function.results())
        }
        CompositeType::Struct(of) => struct_sort_key(of.fields.as_slice()),
        CompositeType::Array(of) => array_sort_key(&of.field),
    }
}

// Few comparisons get here. Inlined, it would make all the others save registers.
#[inline(never)]
fn compare_types(ty: &Type, other: &Type) -> Ordering
    ensures { result ≡ ⟦<Type as Ord>⟧.cmp ty.now other.now }
{
    ty.cmp(other)
}

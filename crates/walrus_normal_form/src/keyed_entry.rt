//! Records with their sort keys.
ghost use Rattle.std.specs.Prelude.{◌≡◌};
ghost use Rattle.walrus_ty.specs.contracts.records.EntryAtEq.TheImpl.Laws as entry_eq;
ghost use Rattle.walrus_ty.specs.contracts.records.EntryAtOrd.TheImpl.Laws as entry_ord;
ghost use Rattle.walrus_ty.specs.contracts.records.EntryAtPartialEq.TheImpl.Laws as entry_partial_eq;
ghost use Rattle.walrus_ty.specs.contracts.records.EntryAtPartialOrd.TheImpl.Laws as entry_partial_ord;
ghost use Rattle.walrus_ty.specs.Records.{comp_composite};
ghost use Rattle.walrus_normal_form.specs.SortKeys.{composite_sort_key};
ghost use Rattle.walrus_normal_form.specs.Steps.KeyNumbers.{AreBytes, number_of};

use crate::sort_key::{SortKey, array_sort_key, function_sort_key, struct_sort_key};
use std::cmp::Ordering;
use std::marker::Model;
use walrus_ty::{CompAt, EntryAt};

// A record with its key as one number. It compares as the record does.
#[derive(Drop)]
pub(crate) struct KeyedEntry<'a> {
    key: u64,
    entry: &'a EntryAt,
}

impl<'a> Model for KeyedEntry<'a> {
    ghost use Rattle.std.specs.Prelude.{◌≡◌};
    ghost use Rattle.walrus_ty.specs.declared.records.EntryAt.{EntryAt};
    ghost use Rattle.walrus_ty.specs.Records.{comp_composite};
    ghost use Rattle.walrus_normal_form.specs.SortKeys.{composite_sort_key};
    ghost use Rattle.walrus_normal_form.specs.Steps.KeyNumbers.{AreBytes, number_of};

    ghost Value = { EntryAt };

    ghost view = { λ s. s.entry.now };

    ghost invariant = { λ s. (s.key ≡ number_of (composite_sort_key (comp_composite s.entry.now.comp))) ×
        AreBytes (composite_sort_key (comp_composite s.entry.now.comp)) };
}

impl<'a> KeyedEntry<'a> {
    pub(crate) fn new(entry: &'a EntryAt) -> KeyedEntry<'a>
        ensures { result ≡ entry.now }
    {
        let key = number_of(sort_key_of(&entry.comp));
        KeyedEntry { key, entry }
    }
}

impl<'a> PartialEq for KeyedEntry<'a> {
    ghost eq = { ⟦<EntryAt as PartialEq>⟧.eq };

    ghost laws = { entry_partial_eq.laws-law };

    fn eq(&self, other: &Self) -> bool {
        self.entry == other.entry
    }
}

impl<'a> Eq for KeyedEntry<'a> {
    ghost laws = { entry_eq.laws-law };
}

impl<'a> PartialOrd for KeyedEntry<'a> {
    ghost partial_cmp = { ⟦<EntryAt as PartialOrd>⟧.partial_cmp };

    ghost laws = { entry_partial_ord.laws-law };

    fn partial_cmp(&self, other: &Self) -> Option<Ordering> {
        self.entry.partial_cmp(other.entry)
    }
}

impl<'a> Ord for KeyedEntry<'a> {
    ghost cmp = { ⟦<EntryAt as Ord>⟧.cmp };

    ghost total = { entry_ord.total-law };

    ghost matches_partial_cmp = { entry_ord.matches_partial_cmp-law };

    ghost matches_eq = { entry_ord.matches_eq-law };

    fn cmp(&self, other: &Self) -> Ordering {
        match self.key.cmp(&other.key) {
            Ordering::Equal => compare_entries(self.entry, other.entry),
            Ordering::Less => Ordering::Less,
            Ordering::Greater => Ordering::Greater,
        }
    }
}

fn sort_key_of(comp: &CompAt) -> SortKey
    ensures key { result ≡ composite_sort_key (comp_composite comp.now) }
    ensures bytes { AreBytes result }
{
    match comp {
        CompAt::Function { params, results } => {
            function_sort_key(params.as_slice(), results.as_slice())
        }
        CompAt::Struct { fields } => struct_sort_key(fields.as_slice()),
        CompAt::Array { field } => array_sort_key(field),
    }
}

// A byte for each part, of which the first counts most.
fn number_of(key: SortKey) -> u64
    ensures { result ≡ number_of key }
{
    let (kind, first, second, third, fourth, fifth) = key;
    let number = u64::from(kind);
    let number = number * 256 + u64::from(first);
    let number = number * 256 + u64::from(second);
    let number = number * 256 + u64::from(third);
    let number = number * 256 + u64::from(fourth);
    number * 256 + u64::from(fifth)
}

// Few comparisons get here. Inlined, it would make all the others save registers.
#[inline(never)]
fn compare_entries(entry: &EntryAt, other: &EntryAt) -> Ordering
    ensures { result ≡ ⟦<EntryAt as Ord>⟧.cmp entry.now other.now }
{
    entry.cmp(other)
}

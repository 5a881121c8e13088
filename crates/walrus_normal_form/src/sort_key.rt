//! Sort keys of composite types: a few small numbers, by which most types differ before their lists
//! are compared.
//!
//! Of two types the one with the lesser key is less, in the order of records and of types of a
//! module. Types with equal keys may differ: in what comes after the ranked parts, and in the types
//! that they name. WebAssembly core specification, "Types", composite types.
ghost use Rattle.std.specs.Prelude.{◌≡◌, true, [], ◌∷◌};
ghost use Rattle.std.specs.declared.cmp.Ordering.TheVariants.{Less, Greater};
ghost use Rattle.walrus_ty.specs.Definition.{Definition, definition_cmp};
ghost use Rattle.walrus_normal_form.specs.SortKeys.{composite_sort_key, field_rank, item_rank, marked_items, ranks, sort_key_cmp};

mod ranks;

pub use ranks::MARK;
use ranks::{Items, first_field, rank_of_field};
use std::cmp::Ordering;
use walrus_ty::{Field, Val};

/// The kind of a composite type and five ranks.
///
/// The kind is 0 for a function, 1 for a struct and 2 for an array. A struct or an array has a rank
/// for each of its first five fields. A function has ranks for its parameters, then [`MARK`], and
/// then ranks for its results, as far as five go. The lesser of two fields or values has the lesser
/// rank. The ranks after that of the first part that names a type are 0, and so are the ranks of
/// parts that are not there.
pub type SortKey = (u8, u8, u8, u8, u8, u8);

/// The key of a function type with these parameters and results.
///
/// ```
/// let key = function_sort_key::<u32>(&[Val::I32], &[]);
/// assert_eq!(rt; key, (0, 2, MARK, 0, 0, 0));
/// ```
pub fn function_sort_key<N>(params: &[Val<N>], results: &[Val<N>]) -> SortKey
    ensures { result ≡ ranks 0 item_rank (marked_items params.now true results.now) }
{
    let (first, left) = Items::new(params, true, results).first();
    let (second, left) = left.first();
    let (third, left) = left.first();
    let (fourth, left) = left.first();
    let (fifth, _) = left.first();
    (0, first, second, third, fourth, fifth)
}

/// The key of a struct type with these fields.
pub fn struct_sort_key<N>(fields: &[Field<N>]) -> SortKey
    ensures { result ≡ ranks 1 field_rank fields.now }
{
    let (first, rest) = first_field(fields);
    let (second, rest) = first_field(rest);
    let (third, rest) = first_field(rest);
    let (fourth, rest) = first_field(rest);
    let (fifth, _) = first_field(rest);
    (1, first, second, third, fourth, fifth)
}

/// The key of an array type with this field.
pub fn array_sort_key<N>(field: &Field<N>) -> SortKey
    ensures { result ≡ ranks 2 field_rank (field.now ∷ []) }
{
    (2, rank_of_field(field), 0, 0, 0, 0)
}

/// How two keys compare: of two types the one with the lesser key is less. Types with equal keys
/// may differ.
#[inline]
pub fn compare_keys(key: SortKey, other: SortKey) -> Ordering
    ensures order { result ≡ sort_key_cmp key other }
    ensures less { (d e : Definition) → key ≡ composite_sort_key d.composite →
        other ≡ composite_sort_key e.composite → result ≡ Less → definition_cmp d e ≡ Less }
    ensures greater { (d e : Definition) → key ≡ composite_sort_key d.composite →
        other ≡ composite_sort_key e.composite → result ≡ Greater → definition_cmp d e ≡ Greater }
{
    key.cmp(&other)
}

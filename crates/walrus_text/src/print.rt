//! A section and the places of its entries as text.
ghost use Rattle.std.specs.Prelude.{◌≡◌, ◌++◌, ◌∷◌, [], map, codes, decimal, if◌then◌else◌, IfOk, IfErr, OnOk, OnErr, IsSome};
ghost use Rattle.std.specs.List.{flat_map};
ghost use Rattle.std.specs.Io.KnownBytes.{Appends};
ghost use Rattle.walrus_ty.specs.declared.records.CompAt.TheVariants as comp;
ghost use Rattle.walrus_ty.specs.declared.ty.value.Val.TheVariants as val;
ghost use Rattle.walrus_ty.specs.declared.ty.value.Storage.TheVariants as stored;
ghost use Rattle.walrus_text.specs.Words.{space_before_each, line_text, text_of};
ghost use Rattle.walrus_text.specs.Text.{name_word, heap_word, val_word, storage_word, field_word, composite_words, entry_words, rec_lines, group_lines, section_lines, map_words, output_text};

use crate::kept_error::{Failed, kept_error, write_bytes};
use crate::numbers::{write_number, write_spaced_number};
use std::io;
use std::io::Write;
use walrus_ty::{
    AbstractHeapType, CompAt, EntryAt, FieldAt, GroupAt, HeapAt, RefAt, StorageAt, ValAt,
};

/// Writes the lines of the groups in the grammar of [this crate](crate), each with a line feed.
/// Where there are no groups it writes nothing. Words are written piece by piece, so an unbuffered
/// writer is slow. The writer is not flushed.
///
/// # Errors
///
/// An error comes where a write fails. Then a part of the text may have been written.
///
/// # The text of a section
///
/// ```
/// let mut reader = b"rec\n end".as_slice();
/// let groups = read_section(alloc, &mut reader)?;
/// let mut out: Vec<u8> = Vec::new(alloc);
/// write_section(&mut out, groups.as_slice())?;
/// assert_eq!(rt; out.as_slice(), b"rec\nend\n".as_slice());
/// ```
pub fn write_section<W: Write>(out: &mut W, groups: &[GroupAt]) -> io::Result<()>
    ensures { OnOk result (Appends (W.contents out.old) (W.contents out.new)
        (text_of (section_lines groups.now))) }
{
    let mut error = None;
    match write_groups(out, groups, &mut error) {
        Ok(()) => Ok(()),
        Err(Failed) => kept_error(error),
    }
}

/// Writes the lines of the groups, as [`write_section`] does, and then the line `map`. It has an
/// index for each entry of another section: the new index of that entry in these groups.
/// [`read_section`](crate::read_section) accepts no such line.
///
/// # Errors
///
/// An error comes where a write fails. Then a part of the text may have been written.
///
/// # Two entries that changed places
///
/// ```
/// write_output(&mut out, groups.as_slice(), &[1, 0])?;
/// ```
pub fn write_output<W: Write>(out: &mut W, groups: &[GroupAt], map: &[u32]) -> io::Result<()>
    ensures { OnOk result (Appends (W.contents out.old) (W.contents out.new)
        (output_text groups.now map.now)) }
{
    let mut error = None;
    match write_groups_and_map(out, groups, map, &mut error) {
        Ok(()) => Ok(()),
        Err(Failed) => kept_error(error),
    }
}

fn write_groups_and_map<W: Write>(
    out: &mut W,
    groups: &[GroupAt],
    map: &[u32],
    error: &mut Option<io::Error>,
) -> Result<(), Failed>
    ensures ok { OnOk result (Appends (W.contents out.old) (W.contents out.new)
        (output_text groups.now map.now)) }
    ensures err { OnErr result (IsSome error.new) }
{
    write_groups(out, groups, error)?;
    write_map(out, map, error)
}

fn write_groups<W: Write>(
    out: &mut W,
    groups: &[GroupAt],
    error: &mut Option<io::Error>,
) -> Result<(), Failed>
    ensures ok { OnOk result (Appends (W.contents out.old) (W.contents out.new)
        (text_of (section_lines groups.now))) }
    ensures err { OnErr result (IsSome error.new) }
{
    for group in groups {
        write_group(out, group, error)?;
    }
    Ok(())
}

fn write_map<W: Write>(
    out: &mut W,
    map: &[u32],
    error: &mut Option<io::Error>,
) -> Result<(), Failed>
    ensures ok { OnOk result (Appends (W.contents out.old) (W.contents out.new)
        (line_text (map_words map.now) ++ 10 ∷ [])) }
    ensures err { OnErr result (IsSome error.new) }
{
    write_bytes(out, b"map", error)?;
    for index in map {
        write_spaced_number(out, *index, error)?;
    }
    write_bytes(out, b"\n", error)
}

fn write_group<W: Write>(
    out: &mut W,
    group: &GroupAt,
    error: &mut Option<io::Error>,
) -> Result<(), Failed>
    ensures ok { OnOk result (Appends (W.contents out.old) (W.contents out.new)
        (text_of (group_lines group.now))) }
    ensures err { OnErr result (IsSome error.new) }
{
    match group {
        GroupAt::Single(entry) => write_entry(out, entry, error),
        GroupAt::Rec(entries) => write_rec(out, entries.as_slice(), error),
    }
}

fn write_rec<W: Write>(
    out: &mut W,
    entries: &[EntryAt],
    error: &mut Option<io::Error>,
) -> Result<(), Failed>
    ensures ok { OnOk result (Appends (W.contents out.old) (W.contents out.new)
        (text_of (rec_lines entries.now))) }
    ensures err { OnErr result (IsSome error.new) }
{
    write_bytes(out, b"rec\n", error)?;
    for entry in entries {
        write_entry(out, entry, error)?;
    }
    write_bytes(out, b"end\n", error)
}

fn write_entry<W: Write>(
    out: &mut W,
    entry: &EntryAt,
    error: &mut Option<io::Error>,
) -> Result<(), Failed>
    ensures ok { OnOk result (Appends (W.contents out.old) (W.contents out.new)
        (line_text (entry_words entry.now) ++ 10 ∷ [])) }
    ensures err { OnErr result (IsSome error.new) }
{
    if !entry.is_final {
        write_bytes(out, b"open ", error)?;
    }
    if let Some(number) = entry.supertype {
        write_supertype(out, number, error)?;
    }
    write_composite(out, &entry.comp, error)?;
    write_bytes(out, b"\n", error)
}

/// Writes the supertype and a space.
fn write_supertype<W: Write>(
    out: &mut W,
    number: u32,
    error: &mut Option<io::Error>,
) -> Result<(), Failed>
    ensures ok { OnOk result (Appends (W.contents out.old) (W.contents out.new)
        (codes "sub:" ++ (decimal number ++ 32 ∷ []))) }
    ensures err { OnErr result (IsSome error.new) }
{
    write_bytes(out, b"sub:", error)?;
    write_number(out, number, error)?;
    write_bytes(out, b" ", error)
}

fn write_composite<W: Write>(
    out: &mut W,
    comp: &CompAt,
    error: &mut Option<io::Error>,
) -> Result<(), Failed>
    ensures ok { OnOk result (Appends (W.contents out.old) (W.contents out.new)
        (line_text (composite_words comp.now))) }
    ensures err { OnErr result (IsSome error.new) }
{
    match comp {
        CompAt::Function { params, results } => {
            write_function(out, params.as_slice(), results.as_slice(), error)
        }
        CompAt::Struct { fields } => write_struct(out, fields.as_slice(), error),
        CompAt::Array { field } => write_array(out, field, error),
    }
}

fn write_function<W: Write>(
    out: &mut W,
    params: &[ValAt],
    results: &[ValAt],
    error: &mut Option<io::Error>,
) -> Result<(), Failed>
    ensures ok { OnOk result (Appends (W.contents out.old) (W.contents out.new)
        (line_text (composite_words (comp.Function params.now results.now)))) }
    ensures err { OnErr result (IsSome error.new) }
{
    write_bytes(out, b"func", error)?;
    write_values(out, params, error)?;
    write_bytes(out, b" ->", error)?;
    write_values(out, results, error)
}

fn write_struct<W: Write>(
    out: &mut W,
    fields: &[FieldAt],
    error: &mut Option<io::Error>,
) -> Result<(), Failed>
    ensures ok { OnOk result (Appends (W.contents out.old) (W.contents out.new)
        (line_text (composite_words (comp.Struct fields.now)))) }
    ensures err { OnErr result (IsSome error.new) }
{
    write_bytes(out, b"struct", error)?;
    write_fields(out, fields, error)
}

fn write_array<W: Write>(
    out: &mut W,
    field: &FieldAt,
    error: &mut Option<io::Error>,
) -> Result<(), Failed>
    ensures ok { OnOk result (Appends (W.contents out.old) (W.contents out.new)
        (line_text (composite_words (comp.Array field.now)))) }
    ensures err { OnErr result (IsSome error.new) }
{
    write_bytes(out, b"array", error)?;
    write_field(out, field, error)
}

fn write_values<W: Write>(
    out: &mut W,
    values: &[ValAt],
    error: &mut Option<io::Error>,
) -> Result<(), Failed>
    ensures ok { OnOk result (Appends (W.contents out.old) (W.contents out.new)
        (space_before_each (map val_word values.now))) }
    ensures err { OnErr result (IsSome error.new) }
{
    for value in values {
        write_spaced_value(out, value, error)?;
    }
    Ok(())
}

/// Writes a space and the value type.
#[inline(always)]
fn write_spaced_value<W: Write>(
    out: &mut W,
    value: &ValAt,
    error: &mut Option<io::Error>,
) -> Result<(), Failed>
    ensures ok { OnOk result (Appends (W.contents out.old) (W.contents out.new)
        (32 ∷ val_word value.now)) }
    ensures err { OnErr result (IsSome error.new) }
{
    match spaced_name(value) {
        Ok(text) => write_bytes(out, text, error),
        Err(reference) => {
            let start = reference_start(false, reference.nullable);
            write_reference(out, start, &reference.heap_type, error)
        }
    }
}

/// A space and the name of a value type. A reference has none, and is returned itself.
fn spaced_name(value: &ValAt) -> Result<&'static [u8], &RefAt>
    ensures name { IfOk result (λ text. text.now ≡ 32 ∷ val_word value.now) }
    ensures reference { IfErr result (λ reference. value.now ≡ val.Ref reference.now) }
{
    match value {
        ValAt::I32 => Ok(b" i32"),
        ValAt::I64 => Ok(b" i64"),
        ValAt::F32 => Ok(b" f32"),
        ValAt::F64 => Ok(b" f64"),
        ValAt::V128 => Ok(b" v128"),
        ValAt::Ref(reference) => Err(reference),
    }
}

fn write_fields<W: Write>(
    out: &mut W,
    fields: &[FieldAt],
    error: &mut Option<io::Error>,
) -> Result<(), Failed>
    ensures ok { OnOk result (Appends (W.contents out.old) (W.contents out.new)
        (space_before_each (map field_word fields.now))) }
    ensures err { OnErr result (IsSome error.new) }
{
    for field in fields {
        write_field(out, field, error)?;
    }
    Ok(())
}

/// Writes a space and the field.
#[inline(always)]
fn write_field<W: Write>(
    out: &mut W,
    field: &FieldAt,
    error: &mut Option<io::Error>,
) -> Result<(), Failed>
    ensures ok { OnOk result (Appends (W.contents out.old) (W.contents out.new)
        (32 ∷ field_word field.now)) }
    ensures err { OnErr result (IsSome error.new) }
{
    match spaced_field(field) {
        Ok(text) => write_bytes(out, text, error),
        Err(reference) => {
            let start = reference_start(field.mutable, reference.nullable);
            write_reference(out, start, &reference.heap_type, error)
        }
    }
}

/// A space and the field if its type has a name. A reference has none, and is returned itself.
fn spaced_field(field: &FieldAt) -> Result<&'static [u8], &RefAt>
    ensures name { IfOk result (λ text. text.now ≡ 32 ∷ field_word field.now) }
    ensures reference { IfErr result (λ reference.
        field.now.element_type ≡ stored.Val (val.Ref reference.now)) }
{
    if field.mutable {
        spaced_mutable(&field.element_type)
    } else {
        spaced_constant(&field.element_type)
    }
}

fn spaced_mutable(storage: &StorageAt) -> Result<&'static [u8], &RefAt>
    ensures name { IfOk result (λ text. text.now ≡ codes " mut:" ++ storage_word storage.now) }
    ensures reference { IfErr result (λ reference.
        storage.now ≡ stored.Val (val.Ref reference.now)) }
{
    match storage {
        StorageAt::Val(ValAt::I32) => Ok(b" mut:i32"),
        StorageAt::Val(ValAt::I64) => Ok(b" mut:i64"),
        StorageAt::Val(ValAt::F32) => Ok(b" mut:f32"),
        StorageAt::Val(ValAt::F64) => Ok(b" mut:f64"),
        StorageAt::Val(ValAt::V128) => Ok(b" mut:v128"),
        StorageAt::Val(ValAt::Ref(reference)) => Err(reference),
        StorageAt::I8 => Ok(b" mut:i8"),
        StorageAt::I16 => Ok(b" mut:i16"),
    }
}

fn spaced_constant(storage: &StorageAt) -> Result<&'static [u8], &RefAt>
    ensures name { IfOk result (λ text. text.now ≡ 32 ∷ storage_word storage.now) }
    ensures reference { IfErr result (λ reference.
        storage.now ≡ stored.Val (val.Ref reference.now)) }
{
    match storage {
        StorageAt::Val(value) => spaced_name(value),
        StorageAt::I8 => Ok(b" i8"),
        StorageAt::I16 => Ok(b" i16"),
    }
}

/// A space, and what the text of a field or value has before the heap type of a reference.
fn reference_start(mutable: bool, nullable: bool) -> &'static [u8]
    ensures { result.now ≡ 32 ∷ ((if mutable then codes "mut:" else [])
        ++ (if nullable then codes "null:" else codes "ref:")) }
{
    match (mutable, nullable) {
        (false, false) => b" ref:",
        (false, true) => b" null:",
        (true, false) => b" mut:ref:",
        (true, true) => b" mut:null:",
    }
}

/// Writes the start of a reference and its heap type.
fn write_reference<W: Write>(
    out: &mut W,
    start: &[u8],
    heap_type: &HeapAt,
    error: &mut Option<io::Error>,
) -> Result<(), Failed>
    ensures ok { OnOk result (Appends (W.contents out.old) (W.contents out.new)
        (start.now ++ heap_word heap_type.now)) }
    ensures err { OnErr result (IsSome error.new) }
{
    write_bytes(out, start, error)?;
    write_heap_type(out, heap_type, error)
}

fn write_heap_type<W: Write>(
    out: &mut W,
    heap_type: &HeapAt,
    error: &mut Option<io::Error>,
) -> Result<(), Failed>
    ensures ok { OnOk result (Appends (W.contents out.old) (W.contents out.new)
        (heap_word heap_type.now)) }
    ensures err { OnErr result (IsSome error.new) }
{
    match heap_type {
        HeapAt::Abstract(name) => write_bytes(out, name_text(*name), error),
        HeapAt::Concrete(number) => write_number(out, *number, error),
        HeapAt::Exact(number) => {
            write_bytes(out, b"exact:", error)?;
            write_number(out, *number, error)
        }
    }
}

/// The name of an abstract heap type.
fn name_text(name: AbstractHeapType) -> &'static [u8]
    ensures { result.now ≡ name_word name }
{
    match name {
        AbstractHeapType::Func => b"func",
        AbstractHeapType::Extern => b"extern",
        AbstractHeapType::Any => b"any",
        AbstractHeapType::None => b"none",
        AbstractHeapType::NoExtern => b"noextern",
        AbstractHeapType::NoFunc => b"nofunc",
        AbstractHeapType::Eq => b"eq",
        AbstractHeapType::Struct => b"struct",
        AbstractHeapType::Array => b"array",
        AbstractHeapType::I31 => b"i31",
        AbstractHeapType::Exn => b"exn",
        AbstractHeapType::NoExn => b"noexn",
    }
}

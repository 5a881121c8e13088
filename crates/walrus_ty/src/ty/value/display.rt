//! Value types as text, in the words of the WebAssembly text format. A type of the module is
//! written as the number of its id.
ghost use Rattle.std.specs.Prelude.{◌≡◌, Some};
ghost use Rattle.std.specs.Fmt.{WritesOnOk};
ghost use Rattle.walrus_ty.specs.Text.{abstract_text, heap_text, nullable_text, reference_text, val_text, storage_text, field_text};
ghost use Rattle.walrus_ty.specs.declared.ty.value.Heap.TheVariants as heap;

use super::{AbstractHeapType, Field, Heap, Reference, Storage, Val};
use std::fmt;
use walrus_id::Key;

/// `func`, `3` or `exact 3`.
impl<P> fmt::Display for Heap<Key<P>> {
    ghost output = { λ h. Some (heap_text h) };

    fn fmt<W: fmt::Write>(&self, f: &mut fmt::Formatter<W>) -> fmt::Result {
        match self {
            Heap::Abstract(name) => f.write_str(abstract_name(*name)),
            Heap::Concrete(id) => write!(f, "{}", id.place()),
            Heap::Exact(id) => write!(f, "exact {}", id.place()),
        }
    }
}

fn abstract_name(name: AbstractHeapType) -> &'static str
    ensures { result.now ≡ abstract_text name }
{
    match name {
        AbstractHeapType::Func => "func",
        AbstractHeapType::Extern => "extern",
        AbstractHeapType::Any => "any",
        AbstractHeapType::None => "none",
        AbstractHeapType::NoExtern => "noextern",
        AbstractHeapType::NoFunc => "nofunc",
        AbstractHeapType::Eq => "eq",
        AbstractHeapType::Struct => "struct",
        AbstractHeapType::Array => "array",
        AbstractHeapType::I31 => "i31",
        AbstractHeapType::Exn => "exn",
        AbstractHeapType::NoExn => "noexn",
    }
}

/// `funcref`, `(ref func)`, `(ref null 3)` or `(ref exact 3)`.
impl<P> fmt::Display for Reference<Key<P>> {
    ghost output = { λ r. Some (reference_text r) };

    fn fmt<W: fmt::Write>(&self, f: &mut fmt::Formatter<W>) -> fmt::Result {
        if self.nullable {
            write_nullable(f, &self.heap_type)
        } else {
            write!(f, "(ref {})", self.heap_type)
        }
    }
}

fn write_nullable<P, W: fmt::Write>(
    f: &mut fmt::Formatter<W>,
    heap_type: &Heap<Key<P>>,
) -> fmt::Result
    ensures { WritesOnOk W.write_str_gives f.old result (nullable_text heap_type.now) f.new }
{
    match heap_type {
        Heap::Abstract(name) => f.write_str(nullable_name(*name)),
        Heap::Concrete(_) | Heap::Exact(_) => write!(f, "(ref null {heap_type})"),
    }
}

fn nullable_name(name: AbstractHeapType) -> &'static str
    ensures { result.now ≡ nullable_text (heap.Abstract name) }
{
    match name {
        AbstractHeapType::Func => "funcref",
        AbstractHeapType::Extern => "externref",
        AbstractHeapType::Any => "anyref",
        AbstractHeapType::None => "nullref",
        AbstractHeapType::NoExtern => "nullexternref",
        AbstractHeapType::NoFunc => "nullfuncref",
        AbstractHeapType::Eq => "eqref",
        AbstractHeapType::Struct => "structref",
        AbstractHeapType::Array => "arrayref",
        AbstractHeapType::I31 => "i31ref",
        AbstractHeapType::Exn => "exnref",
        AbstractHeapType::NoExn => "nullexnref",
    }
}

/// `i32`, `i64`, `f32`, `f64`, `v128` or a reference type.
impl<P> fmt::Display for Val<Key<P>> {
    ghost output = { λ v. Some (val_text v) };

    fn fmt<W: fmt::Write>(&self, f: &mut fmt::Formatter<W>) -> fmt::Result {
        match self {
            Val::I32 => f.write_str("i32"),
            Val::I64 => f.write_str("i64"),
            Val::F32 => f.write_str("f32"),
            Val::F64 => f.write_str("f64"),
            Val::V128 => f.write_str("v128"),
            Val::Ref(reference) => fmt::Display::fmt(reference, f),
        }
    }
}

/// A value type, `i8` or `i16`.
impl<P> fmt::Display for Storage<Key<P>> {
    ghost output = { λ s. Some (storage_text s) };

    fn fmt<W: fmt::Write>(&self, f: &mut fmt::Formatter<W>) -> fmt::Result {
        match self {
            Storage::Val(value) => fmt::Display::fmt(value, f),
            Storage::I8 => f.write_str("i8"),
            Storage::I16 => f.write_str("i16"),
        }
    }
}

/// `i8`, or `(mut i8)` where it can be written after it was made.
impl<P> fmt::Display for Field<Key<P>> {
    ghost output = { λ f. Some (field_text f) };

    fn fmt<W: fmt::Write>(&self, f: &mut fmt::Formatter<W>) -> fmt::Result {
        if self.mutable {
            write!(f, "(mut {})", self.element_type)
        } else {
            fmt::Display::fmt(&self.element_type, f)
        }
    }
}

//! Composite types as text, in the words of the WebAssembly text format. A type of the module is
//! written as the number of its id.
ghost use Rattle.std.specs.Prelude.{Some};
ghost use Rattle.std.specs.Fmt.{WritesOnOk};
ghost use Rattle.walrus_ty.specs.Text.{part_text, fields_text, function_text, struct_text, array_text, composite_text};
ghost use Rattle.walrus_ty.specs.Types.{kind_composite};

use super::{ArrayType, CompositeType, FunctionType, StructType};
use crate::{FieldType, ValType};
use std::fmt;

/// `(func)`, `(func (param i32 i64))` or `(func (param i32 i64) (result f32))`.
impl fmt::Display for FunctionType {
    ghost output = { λ f. Some (function_text f.params f.results) };

    fn fmt<W: fmt::Write>(&self, f: &mut fmt::Formatter<W>) -> fmt::Result {
        f.write_str("(func")?;
        write_part(f, "param", self.params())?;
        write_part(f, "result", self.results())?;
        f.write_str(")")
    }
}

// The parameters or the results, after this word.
fn write_part<W: fmt::Write>(
    f: &mut fmt::Formatter<W>,
    word: &str,
    values: &[ValType],
) -> fmt::Result
    ensures { WritesOnOk W.write_str_gives f.old result (part_text word.now values.now) f.new }
{
    if values.is_empty() {
        return Ok(());
    }
    write!(f, " ({word}")?;
    for value in values {
        write!(f, " {value}")?;
    }
    f.write_str(")")
}

/// `(struct)` or `(struct (field i32) (field (mut i8)))`.
impl fmt::Display for StructType {
    ghost output = { λ s. Some (struct_text s.fields) };

    fn fmt<W: fmt::Write>(&self, f: &mut fmt::Formatter<W>) -> fmt::Result {
        f.write_str("(struct")?;
        write_fields(f, self.fields.as_slice())?;
        f.write_str(")")
    }
}

fn write_fields<W: fmt::Write>(f: &mut fmt::Formatter<W>, fields: &[FieldType]) -> fmt::Result
    ensures { WritesOnOk W.write_str_gives f.old result (fields_text fields.now) f.new }
{
    for field in fields {
        write!(f, " (field {field})")?;
    }
    Ok(())
}

/// `(array i8)` or `(array (mut i8))`.
impl fmt::Display for ArrayType {
    ghost output = { λ a. Some (array_text a.field) };

    fn fmt<W: fmt::Write>(&self, f: &mut fmt::Formatter<W>) -> fmt::Result {
        write!(f, "(array {})", self.field)
    }
}

/// What the function, struct or array type prints.
impl fmt::Display for CompositeType {
    ghost output = { λ c. Some (composite_text (kind_composite c)) };

    fn fmt<W: fmt::Write>(&self, f: &mut fmt::Formatter<W>) -> fmt::Result {
        match self {
            CompositeType::Function(function) => write!(f, "{function}"),
            CompositeType::Struct(fields) => write!(f, "{fields}"),
            CompositeType::Array(array) => write!(f, "{array}"),
        }
    }
}

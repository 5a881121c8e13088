//! The constants of number and vector types.
ghost use Rattle.std.specs.Prelude.{Some};
ghost use Rattle.ir_operators.specs.Values.{value_text};

use std::fmt;

/// A constant of a number type or of the vector type. A float is stored as its bits, so two
/// constants are equal where their bits are.
///
/// It prints as its number in decimal. A float prints as its bits, `0x` and eight or sixteen
/// hexadecimal digits.
#[derive(Clone, Copy, PartialEq, Eq, Debug)]
pub enum Value {
    I32(i32),
    I64(i64),
    /// The bits of an `f32`.
    F32(u32),
    /// The bits of an `f64`.
    F64(u64),
    /// The bits of a `v128`, lane 0 in the lowest ones.
    V128(u128),
}

impl fmt::Display for Value {
    ghost output = { λ value. Some (value_text value) };

    #[tactic(auto, using(crate::proofs::HexText::hex_8, crate::proofs::HexText::hex_16))]
    fn fmt<W: fmt::Write>(&self, f: &mut fmt::Formatter<W>) -> fmt::Result {
        match *self {
            Value::I32(n) => write!(f, "{n}"),
            Value::I64(n) => write!(f, "{n}"),
            Value::F32(bits) => write!(f, "0x{bits:08x}"),
            Value::F64(bits) => write!(f, "0x{bits:016x}"),
            Value::V128(n) => write!(f, "{n}"),
        }
    }
}

//! Operators on three values.
//! WebAssembly core specification, "Vector Instructions".

use std::fmt;

/// An operator on three values.
///
/// Names follow the text format: `F32x4RelaxedMadd` is `f32x4.relaxed_madd`.
#[derive(Clone, Copy, PartialEq, Eq)]
pub enum TernaryOp {
    // Products with a third vector added, or taken from it, whose rounding may differ between
    // machines.
    F32x4RelaxedMadd,
    F32x4RelaxedNmadd,
    F64x2RelaxedMadd,
    F64x2RelaxedNmadd,

    // Lanes of two vectors, chosen by a third.
    I8x16RelaxedLaneselect,
    I16x8RelaxedLaneselect,
    I32x4RelaxedLaneselect,
    I64x2RelaxedLaneselect,

    // Sums of neighbouring products with a third vector added.
    I32x4RelaxedDotI8x16I7x16AddS,
}

impl fmt::Debug for TernaryOp {
    fn fmt<W: fmt::Write>(&self, f: &mut fmt::Formatter<W>) -> fmt::Result {
        f.write_str("TernaryOp")
    }
}

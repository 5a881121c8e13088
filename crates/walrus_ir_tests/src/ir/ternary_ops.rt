//! How many operators on three values there are.
use super::all_differ;
use walrus_ir::TernaryOp;

const ALL: [TernaryOp; 9] = [
    // Products with a third vector added, or taken from it.
    TernaryOp::F32x4RelaxedMadd,
    TernaryOp::F32x4RelaxedNmadd,
    TernaryOp::F64x2RelaxedMadd,
    TernaryOp::F64x2RelaxedNmadd,

    // Lanes of two vectors, chosen by a third.
    TernaryOp::I8x16RelaxedLaneselect,
    TernaryOp::I16x8RelaxedLaneselect,
    TernaryOp::I32x4RelaxedLaneselect,
    TernaryOp::I64x2RelaxedLaneselect,

    // Sums of neighbouring products with a third vector added.
    TernaryOp::I32x4RelaxedDotI8x16I7x16AddS,
];

#[test]
fn there_are_9(rt: HostRuntime) {
    assert!(rt; all_differ(&ALL));
}

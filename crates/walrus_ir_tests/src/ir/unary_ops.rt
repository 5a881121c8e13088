//! How many operators on one value there are.
use super::all_differ;
use walrus_ir::UnaryOp;

const ALL: [UnaryOp; 137] = [
    // Tests and bit counts of integers.
    UnaryOp::I32Eqz,
    UnaryOp::I32Clz,
    UnaryOp::I32Ctz,
    UnaryOp::I32Popcnt,
    UnaryOp::I64Eqz,
    UnaryOp::I64Clz,
    UnaryOp::I64Ctz,
    UnaryOp::I64Popcnt,

    // Sign, rounding and roots of floats.
    UnaryOp::F32Abs,
    UnaryOp::F32Neg,
    UnaryOp::F32Ceil,
    UnaryOp::F32Floor,
    UnaryOp::F32Trunc,
    UnaryOp::F32Nearest,
    UnaryOp::F32Sqrt,
    UnaryOp::F64Abs,
    UnaryOp::F64Neg,
    UnaryOp::F64Ceil,
    UnaryOp::F64Floor,
    UnaryOp::F64Trunc,
    UnaryOp::F64Nearest,
    UnaryOp::F64Sqrt,

    // Integers of another width.
    UnaryOp::I32WrapI64,
    UnaryOp::I64ExtendSI32,
    UnaryOp::I64ExtendUI32,
    UnaryOp::I32Extend8S,
    UnaryOp::I32Extend16S,
    UnaryOp::I64Extend8S,
    UnaryOp::I64Extend16S,
    UnaryOp::I64Extend32S,

    // Floats as integers, with a trap where none fits.
    UnaryOp::I32TruncSF32,
    UnaryOp::I32TruncUF32,
    UnaryOp::I32TruncSF64,
    UnaryOp::I32TruncUF64,
    UnaryOp::I64TruncSF32,
    UnaryOp::I64TruncUF32,
    UnaryOp::I64TruncSF64,
    UnaryOp::I64TruncUF64,

    // Floats as integers, saturated.
    UnaryOp::I32TruncSSatF32,
    UnaryOp::I32TruncUSatF32,
    UnaryOp::I32TruncSSatF64,
    UnaryOp::I32TruncUSatF64,
    UnaryOp::I64TruncSSatF32,
    UnaryOp::I64TruncUSatF32,
    UnaryOp::I64TruncSSatF64,
    UnaryOp::I64TruncUSatF64,

    // Integers as floats.
    UnaryOp::F32ConvertSI32,
    UnaryOp::F32ConvertUI32,
    UnaryOp::F32ConvertSI64,
    UnaryOp::F32ConvertUI64,
    UnaryOp::F64ConvertSI32,
    UnaryOp::F64ConvertUI32,
    UnaryOp::F64ConvertSI64,
    UnaryOp::F64ConvertUI64,

    // Floats of another width.
    UnaryOp::F32DemoteF64,
    UnaryOp::F64PromoteF32,

    // The same bits as another type.
    UnaryOp::I32ReinterpretF32,
    UnaryOp::I64ReinterpretF64,
    UnaryOp::F32ReinterpretI32,
    UnaryOp::F64ReinterpretI64,

    // A vector of one value, and a lane of a vector.
    UnaryOp::I8x16Splat,
    UnaryOp::I8x16ExtractLaneS { idx: 0 },
    UnaryOp::I8x16ExtractLaneU { idx: 0 },
    UnaryOp::I16x8Splat,
    UnaryOp::I16x8ExtractLaneS { idx: 0 },
    UnaryOp::I16x8ExtractLaneU { idx: 0 },
    UnaryOp::I32x4Splat,
    UnaryOp::I32x4ExtractLane { idx: 0 },
    UnaryOp::I64x2Splat,
    UnaryOp::I64x2ExtractLane { idx: 0 },
    UnaryOp::F32x4Splat,
    UnaryOp::F32x4ExtractLane { idx: 0 },
    UnaryOp::F64x2Splat,
    UnaryOp::F64x2ExtractLane { idx: 0 },

    // Bits of a whole vector.
    UnaryOp::V128Not,
    UnaryOp::V128AnyTrue,

    // Signs, tests and bit counts of integer lanes.
    UnaryOp::I8x16Abs,
    UnaryOp::I8x16Popcnt,
    UnaryOp::I8x16Neg,
    UnaryOp::I8x16AllTrue,
    UnaryOp::I8x16Bitmask,
    UnaryOp::I16x8Abs,
    UnaryOp::I16x8Neg,
    UnaryOp::I16x8AllTrue,
    UnaryOp::I16x8Bitmask,
    UnaryOp::I32x4Abs,
    UnaryOp::I32x4Neg,
    UnaryOp::I32x4AllTrue,
    UnaryOp::I32x4Bitmask,
    UnaryOp::I64x2Abs,
    UnaryOp::I64x2Neg,
    UnaryOp::I64x2AllTrue,
    UnaryOp::I64x2Bitmask,

    // Sign, roots and rounding of float lanes.
    UnaryOp::F32x4Abs,
    UnaryOp::F32x4Neg,
    UnaryOp::F32x4Sqrt,
    UnaryOp::F32x4Ceil,
    UnaryOp::F32x4Floor,
    UnaryOp::F32x4Trunc,
    UnaryOp::F32x4Nearest,
    UnaryOp::F64x2Abs,
    UnaryOp::F64x2Neg,
    UnaryOp::F64x2Sqrt,
    UnaryOp::F64x2Ceil,
    UnaryOp::F64x2Floor,
    UnaryOp::F64x2Trunc,
    UnaryOp::F64x2Nearest,

    // Sums of neighbouring lanes, in lanes of twice the width.
    UnaryOp::I16x8ExtAddPairwiseI8x16S,
    UnaryOp::I16x8ExtAddPairwiseI8x16U,
    UnaryOp::I32x4ExtAddPairwiseI16x8S,
    UnaryOp::I32x4ExtAddPairwiseI16x8U,

    // Half of the lanes, in lanes of twice the width.
    UnaryOp::I16x8WidenLowI8x16S,
    UnaryOp::I16x8WidenLowI8x16U,
    UnaryOp::I16x8WidenHighI8x16S,
    UnaryOp::I16x8WidenHighI8x16U,
    UnaryOp::I32x4WidenLowI16x8S,
    UnaryOp::I32x4WidenLowI16x8U,
    UnaryOp::I32x4WidenHighI16x8S,
    UnaryOp::I32x4WidenHighI16x8U,
    UnaryOp::I64x2ExtendLowI32x4S,
    UnaryOp::I64x2ExtendHighI32x4S,
    UnaryOp::I64x2ExtendLowI32x4U,
    UnaryOp::I64x2ExtendHighI32x4U,

    // Float lanes as integer lanes, saturated.
    UnaryOp::I32x4TruncSatF32x4S,
    UnaryOp::I32x4TruncSatF32x4U,
    UnaryOp::I32x4TruncSatF64x2SZero,
    UnaryOp::I32x4TruncSatF64x2UZero,

    // Integer lanes as float lanes.
    UnaryOp::F32x4ConvertI32x4S,
    UnaryOp::F32x4ConvertI32x4U,
    UnaryOp::F64x2ConvertLowI32x4S,
    UnaryOp::F64x2ConvertLowI32x4U,

    // Float lanes of another width.
    UnaryOp::F32x4DemoteF64x2Zero,
    UnaryOp::F64x2PromoteLowF32x4,

    // Relaxed operators, whose result may differ between machines.
    UnaryOp::I32x4RelaxedTruncF32x4S,
    UnaryOp::I32x4RelaxedTruncF32x4U,
    UnaryOp::I32x4RelaxedTruncF64x2SZero,
    UnaryOp::I32x4RelaxedTruncF64x2UZero,
];

#[test]
fn there_are_137(rt: HostRuntime) {
    assert!(rt; all_differ(&ALL));
}

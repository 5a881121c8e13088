//! Structured control and branches.
//! WebAssembly core specification, "Control Instructions".
ghost use Rattle.std.specs.Prelude.{◌≡◌};
ghost use Rattle.ir_instr.specs.declared.instr.Instr.TheVariants as instr;

use crate::{Instr, InstrSeqId};
use walrus_ty::{HeapType, Listed};

/// `block`: runs a sequence. A branch to it goes on after it.
#[derive(Clone, Copy, PartialEq, Eq, Debug)]
pub struct Block {
    /// The sequence.
    pub seq: InstrSeqId,
}

impl From<Block> for Instr {
    ghost from_gives = { λ x i. i ≡ instr.Block x };

    fn from(x: Block) -> Instr {
        Instr::Block(x)
    }
}

/// `loop`: runs a sequence. A branch to it starts it again.
#[derive(Clone, Copy, PartialEq, Eq, Debug)]
pub struct Loop {
    /// The sequence.
    pub seq: InstrSeqId,
}

impl From<Loop> for Instr {
    ghost from_gives = { λ x i. i ≡ instr.Loop x };

    fn from(x: Loop) -> Instr {
        Instr::Loop(x)
    }
}

/// `if`: takes an `i32` and runs one of two sequences.
#[derive(Clone, Copy, PartialEq, Eq, Debug)]
pub struct IfElse {
    /// What runs where the number is not zero.
    pub consequent: InstrSeqId,
    /// What runs where the number is zero.
    pub alternative: InstrSeqId,
}

impl From<IfElse> for Instr {
    ghost from_gives = { λ x i. i ≡ instr.IfElse x };

    fn from(x: IfElse) -> Instr {
        Instr::IfElse(x)
    }
}

/// `unreachable`: traps.
#[derive(Clone, Copy, PartialEq, Eq, Debug)]
pub struct Unreachable {}

/// `return`: leaves the function.
#[derive(Clone, Copy, PartialEq, Eq, Debug)]
pub struct Return {}

/// `br`: branches.
#[derive(Clone, Copy, PartialEq, Eq, Debug)]
pub struct Br {
    /// The sequence that it branches to.
    pub block: InstrSeqId,
}

/// `br_if`: takes an `i32` and branches where it is not zero.
#[derive(Clone, Copy, PartialEq, Eq, Debug)]
pub struct BrIf {
    /// The sequence that it branches to.
    pub block: InstrSeqId,
}

/// `br_table`: takes an `i32` and branches to the target of that number.
#[derive(Clone, PartialEq, Eq, Debug, Drop)]
pub struct BrTable {
    /// The targets by their number.
    pub blocks: Listed<InstrSeqId>,
    /// The target of every number past the list.
    pub default: InstrSeqId,
}

/// `br_on_null`: takes a reference and branches where it is null. Otherwise the reference stays.
#[derive(Clone, Copy, PartialEq, Eq, Debug)]
pub struct BrOnNull {
    /// The sequence that it branches to.
    pub block: InstrSeqId,
}

/// `br_on_non_null`: takes a reference and branches with it where it is not null.
#[derive(Clone, Copy, PartialEq, Eq, Debug)]
pub struct BrOnNonNull {
    /// The sequence that it branches to.
    pub block: InstrSeqId,
}

/// `br_on_cast`: branches with the reference where it is of the second type.
#[derive(Clone, Copy, PartialEq, Eq, Debug)]
pub struct BrOnCast {
    /// The sequence that it branches to.
    pub block: InstrSeqId,
    /// Whether the first type has the null reference.
    pub from_nullable: bool,
    /// What the first type points at.
    pub from_heap_type: HeapType,
    /// Whether the second type has the null reference.
    pub to_nullable: bool,
    /// What the second type points at.
    pub to_heap_type: HeapType,
}

/// `br_on_cast_fail`: branches with the reference where it is not of the second type.
#[derive(Clone, Copy, PartialEq, Eq, Debug)]
pub struct BrOnCastFail {
    /// The sequence that it branches to.
    pub block: InstrSeqId,
    /// Whether the first type has the null reference.
    pub from_nullable: bool,
    /// What the first type points at.
    pub from_heap_type: HeapType,
    /// Whether the second type has the null reference.
    pub to_nullable: bool,
    /// What the second type points at.
    pub to_heap_type: HeapType,
}

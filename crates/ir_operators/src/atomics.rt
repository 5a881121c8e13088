//! What atomic instructions do with memory, and how many bytes of it they touch. Names and meaning
//! are from the threads proposal.
ghost use Rattle.std.specs.Prelude.{◌≡◌};
ghost use Rattle.ir_operators.specs.Atomics.{atomic_width};

use std::fmt;

/// What an atomic instruction does with the value in memory and the one that it takes.
#[derive(Clone, Copy, PartialEq, Eq)]
pub enum AtomicOp {
    Add,
    Sub,
    And,
    Or,
    Xor,
    Xchg,
}

impl fmt::Debug for AtomicOp {
    fn fmt<W: fmt::Write>(&self, f: &mut fmt::Formatter<W>) -> fmt::Result {
        f.write_str("AtomicOp")
    }
}

/// The type of an atomic instruction's values, and how many bits of memory it touches if that is
/// less.
#[derive(Clone, Copy, PartialEq, Eq)]
pub enum AtomicWidth {
    I32,
    I32_8,
    I32_16,
    I64,
    I64_8,
    I64_16,
    I64_32,
}

impl fmt::Debug for AtomicWidth {
    fn fmt<W: fmt::Write>(&self, f: &mut fmt::Formatter<W>) -> fmt::Result {
        f.write_str("AtomicWidth")
    }
}

impl AtomicWidth {
    /// The number of bytes of memory that the instruction touches.
    pub fn bytes(&self) -> u32
        ensures { result ≡ atomic_width self.now }
    {
        match self {
            AtomicWidth::I32_8 | AtomicWidth::I64_8 => 1,
            AtomicWidth::I32_16 | AtomicWidth::I64_16 => 2,
            AtomicWidth::I32 | AtomicWidth::I64_32 => 4,
            AtomicWidth::I64 => 8,
        }
    }
}

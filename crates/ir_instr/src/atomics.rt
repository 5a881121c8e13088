//! Atomic instructions on a memory that several threads share. Names and meaning are from the
//! threads proposal.

use crate::MemArg;
use ir_operators::{AtomicOp, AtomicWidth};
use walrus_ty::MemoryId;

/// `i32.atomic.rmw.add` and similar instructions: changes a value in memory and gives the old one.
#[derive(Clone, Copy, PartialEq, Eq, Debug)]
pub struct AtomicRmw {
    /// The memory.
    pub memory: MemoryId,
    /// What it does with the two values.
    pub op: AtomicOp,
    /// The type of the values, and how many bytes are touched.
    pub width: AtomicWidth,
    /// Alignment and offset.
    pub arg: MemArg,
}

/// `i32.atomic.rmw.cmpxchg` and similar instructions: writes a value where the one in memory is the
/// expected one.
#[derive(Clone, Copy, PartialEq, Eq, Debug)]
pub struct Cmpxchg {
    /// The memory.
    pub memory: MemoryId,
    /// The type of the values, and how many bytes are touched.
    pub width: AtomicWidth,
    /// Alignment and offset.
    pub arg: MemArg,
}

/// `memory.atomic.notify`: wakes threads that wait at an address.
#[derive(Clone, Copy, PartialEq, Eq, Debug)]
pub struct AtomicNotify {
    /// The memory.
    pub memory: MemoryId,
    /// Alignment and offset.
    pub arg: MemArg,
}

/// `memory.atomic.wait32` or `memory.atomic.wait64`: waits at an address.
#[derive(Clone, Copy, PartialEq, Eq, Debug)]
pub struct AtomicWait {
    /// The memory.
    pub memory: MemoryId,
    /// Alignment and offset.
    pub arg: MemArg,
    /// Whether the value waited on has 64 bits.
    pub sixty_four: bool,
}

/// `atomic.fence`: orders memory accesses.
#[derive(Clone, Copy, PartialEq, Eq, Debug)]
pub struct AtomicFence {}

//! What loads and stores read and write, how many bytes of memory that is, and whether it is
//! atomic. WebAssembly core specification, "Memory Instructions"; what is atomic is from the
//! threads proposal.
ghost use Rattle.std.specs.Prelude.{◌≡◌};
ghost use Rattle.ir_operators.specs.Loads.{extended_is_atomic, load_is_atomic, load_width};
ghost use Rattle.ir_operators.specs.Stores.{store_is_atomic, store_width};

use std::fmt;

/// How a load that reads fewer bits than its value has fills the rest.
#[derive(Clone, Copy, PartialEq, Eq)]
pub enum ExtendedLoad {
    /// With the sign.
    SignExtend,
    /// With zeros.
    ZeroExtend,
    /// With zeros, the load being atomic.
    ZeroExtendAtomic,
}

impl fmt::Debug for ExtendedLoad {
    fn fmt<W: fmt::Write>(&self, f: &mut fmt::Formatter<W>) -> fmt::Result {
        f.write_str("ExtendedLoad")
    }
}

impl ExtendedLoad {
    /// Whether the load is atomic.
    pub fn atomic(self) -> bool
        ensures { result ≡ extended_is_atomic self }
    {
        matches!(self, ExtendedLoad::ZeroExtendAtomic)
    }
}

/// What a load reads: the type of the value, and how many bits of it where that is less.
#[derive(Clone, Copy, PartialEq, Eq)]
pub enum LoadKind {
    I32 { atomic: bool },
    I64 { atomic: bool },
    F32,
    F64,
    V128,
    I32_8 { kind: ExtendedLoad },
    I32_16 { kind: ExtendedLoad },
    I64_8 { kind: ExtendedLoad },
    I64_16 { kind: ExtendedLoad },
    I64_32 { kind: ExtendedLoad },
}

impl fmt::Debug for LoadKind {
    fn fmt<W: fmt::Write>(&self, f: &mut fmt::Formatter<W>) -> fmt::Result {
        f.write_str("LoadKind")
    }
}

impl LoadKind {
    /// The number of bytes of memory that the load reads.
    pub fn width(&self) -> u32
        ensures { result ≡ load_width self.now }
    {
        match self {
            LoadKind::I32_8 { kind: _ } | LoadKind::I64_8 { kind: _ } => 1,
            LoadKind::I32_16 { kind: _ } | LoadKind::I64_16 { kind: _ } => 2,
            LoadKind::I32 { atomic: _ } | LoadKind::F32 | LoadKind::I64_32 { kind: _ } => 4,
            LoadKind::I64 { atomic: _ } | LoadKind::F64 => 8,
            LoadKind::V128 => 16,
        }
    }

    /// Whether the load is atomic.
    pub fn atomic(&self) -> bool
        ensures { result ≡ load_is_atomic self.now }
    {
        match self {
            LoadKind::I32 { atomic } | LoadKind::I64 { atomic } => *atomic,
            LoadKind::F32 | LoadKind::F64 | LoadKind::V128 => false,
            LoadKind::I32_8 { kind }
            | LoadKind::I32_16 { kind }
            | LoadKind::I64_8 { kind }
            | LoadKind::I64_16 { kind }
            | LoadKind::I64_32 { kind } => kind.atomic(),
        }
    }
}

/// What a store writes: the type of the value, and how many bits of it where that is less.
#[derive(Clone, Copy, PartialEq, Eq)]
pub enum StoreKind {
    I32 { atomic: bool },
    I64 { atomic: bool },
    F32,
    F64,
    V128,
    I32_8 { atomic: bool },
    I32_16 { atomic: bool },
    I64_8 { atomic: bool },
    I64_16 { atomic: bool },
    I64_32 { atomic: bool },
}

impl fmt::Debug for StoreKind {
    fn fmt<W: fmt::Write>(&self, f: &mut fmt::Formatter<W>) -> fmt::Result {
        f.write_str("StoreKind")
    }
}

impl StoreKind {
    /// The number of bytes of memory that the store writes.
    pub fn width(&self) -> u32
        ensures { result ≡ store_width self.now }
    {
        match self {
            StoreKind::I32_8 { atomic: _ } | StoreKind::I64_8 { atomic: _ } => 1,
            StoreKind::I32_16 { atomic: _ } | StoreKind::I64_16 { atomic: _ } => 2,
            StoreKind::I32 { atomic: _ } | StoreKind::F32 | StoreKind::I64_32 { atomic: _ } => 4,
            StoreKind::I64 { atomic: _ } | StoreKind::F64 => 8,
            StoreKind::V128 => 16,
        }
    }

    /// Whether the store is atomic.
    pub fn atomic(&self) -> bool
        ensures { result ≡ store_is_atomic self.now }
    {
        match self {
            StoreKind::F32 | StoreKind::F64 | StoreKind::V128 => false,
            StoreKind::I32 { atomic }
            | StoreKind::I64 { atomic }
            | StoreKind::I32_8 { atomic }
            | StoreKind::I32_16 { atomic }
            | StoreKind::I64_8 { atomic }
            | StoreKind::I64_16 { atomic }
            | StoreKind::I64_32 { atomic } => *atomic,
        }
    }
}

/// What a vector load or store does. The variants with a number work on the lane with that number.
///
/// Names follow the text format: `Splat8` is `v128.load8_splat`, `V128Load8x8S` is
/// `v128.load8x8_s`, `V128Store16Lane` is `v128.store16_lane`.
#[derive(Clone, Copy, PartialEq, Eq)]
pub enum LoadSimdKind {
    // A vector of one value.
    Splat8,
    Splat16,
    Splat32,
    Splat64,

    // Eight bytes, in lanes of twice the width.
    V128Load8x8S,
    V128Load8x8U,
    V128Load16x4S,
    V128Load16x4U,
    V128Load32x2S,
    V128Load32x2U,

    // The lowest lane, and zeros.
    V128Load32Zero,
    V128Load64Zero,

    // One lane of a vector.
    V128Load8Lane(u8),
    V128Load16Lane(u8),
    V128Load32Lane(u8),
    V128Load64Lane(u8),
    V128Store8Lane(u8),
    V128Store16Lane(u8),
    V128Store32Lane(u8),
    V128Store64Lane(u8),
}

impl fmt::Debug for LoadSimdKind {
    fn fmt<W: fmt::Write>(&self, f: &mut fmt::Formatter<W>) -> fmt::Result {
        f.write_str("LoadSimdKind")
    }
}

//! Vector instructions that are neither operators nor loads or stores.
//! WebAssembly core specification, "Vector Instructions".

/// For each lane of a shuffle, from the lowest, which of the 32 lanes of both vectors it takes.
pub type ShuffleIndices = [u8; 16];

/// `i8x16.shuffle`: a vector of lanes of two vectors, chosen beforehand.
#[derive(Clone, Copy, PartialEq, Eq, Debug)]
pub struct I8x16Shuffle {
    /// Which lanes it takes.
    pub indices: ShuffleIndices,
}

/// `i8x16.swizzle`: a vector of lanes of one vector, chosen by another.
#[derive(Clone, Copy, PartialEq, Eq, Debug)]
pub struct I8x16Swizzle {}

/// `v128.bitselect`: the bits of one vector where a third has a one, and of another elsewhere.
#[derive(Clone, Copy, PartialEq, Eq, Debug)]
pub struct V128Bitselect {}

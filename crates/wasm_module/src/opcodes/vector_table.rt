//! The table of vector instructions, which are behind 0xFD.
use crate::kind::Immediates::{self, Zero};
use crate::kind::Kind;
use crate::opcodes::{ABSENT, ACCESS_8, ACCESS_16, ACCESS_32, ACCESS_64};

const BYTES_16: Immediates = Immediates::One(Kind::Bytes(16));

const LANE: Immediates = Immediates::One(Kind::Bytes(1));

const ACCESS_128: Immediates = Immediates::One(Kind::MemArg(4));

// Accesses of one lane, which has this many bits.

const LANE_8: Immediates = Immediates::Two(Kind::MemArg(0), Kind::Bytes(1));

const LANE_16: Immediates = Immediates::Two(Kind::MemArg(1), Kind::Bytes(1));

const LANE_32: Immediates = Immediates::Two(Kind::MemArg(2), Kind::Bytes(1));

const LANE_64: Immediates = Immediates::Two(Kind::MemArg(3), Kind::Bytes(1));

pub static VECTOR_OPCODES: [Immediates; 276] = [
    ACCESS_128, ACCESS_64, ACCESS_64, ACCESS_64, ACCESS_64, ACCESS_64, ACCESS_64, ACCESS_8,
    ACCESS_16, ACCESS_32, ACCESS_64, ACCESS_128, BYTES_16, BYTES_16, Zero, Zero, Zero, Zero, Zero,
    Zero, Zero, LANE, LANE, LANE, LANE, LANE, LANE, LANE, LANE, LANE, LANE, LANE, LANE, LANE, LANE,
    Zero, Zero, Zero, Zero, Zero, Zero, Zero, Zero, Zero, Zero, Zero, Zero, Zero, Zero, Zero, Zero,
    Zero, Zero, Zero, Zero, Zero, Zero, Zero, Zero, Zero, Zero, Zero, Zero, Zero, Zero, Zero, Zero,
    Zero, Zero, Zero, Zero, Zero, Zero, Zero, Zero, Zero, Zero, Zero, Zero, Zero, Zero, Zero, Zero,
    Zero, LANE_8, LANE_16, LANE_32, LANE_64, LANE_8, LANE_16, LANE_32, LANE_64, ACCESS_32,
    ACCESS_64, Zero, Zero, Zero, Zero, Zero, Zero, Zero, Zero, Zero, Zero, Zero, Zero, Zero, Zero,
    Zero, Zero, Zero, Zero, Zero, Zero, Zero, Zero, Zero, Zero, Zero, Zero, Zero, Zero, Zero, Zero,
    Zero, Zero, Zero, Zero, Zero, Zero, Zero, Zero, Zero, Zero, Zero, Zero, Zero, Zero, Zero, Zero,
    Zero, Zero, Zero, Zero, Zero, Zero, Zero, Zero, Zero, Zero, Zero, Zero, Zero, Zero, ABSENT,
    Zero, Zero, Zero, Zero, Zero, Zero, Zero, ABSENT, Zero, Zero, ABSENT, ABSENT, Zero, Zero, Zero,
    Zero, Zero, Zero, Zero, Zero, ABSENT, ABSENT, Zero, ABSENT, ABSENT, ABSENT, Zero, Zero, Zero,
    Zero, Zero, Zero, ABSENT, Zero, Zero, Zero, Zero, Zero, Zero, ABSENT, Zero, Zero, ABSENT,
    ABSENT, Zero, Zero, Zero, Zero, Zero, Zero, Zero, Zero, ABSENT, ABSENT, Zero, ABSENT, ABSENT,
    ABSENT, Zero, Zero, Zero, Zero, Zero, Zero, Zero, Zero, Zero, Zero, Zero, Zero, Zero, ABSENT,
    Zero, Zero, Zero, Zero, Zero, Zero, Zero, Zero, Zero, Zero, Zero, ABSENT, Zero, Zero, Zero,
    Zero, Zero, Zero, Zero, Zero, Zero, Zero, Zero, Zero, Zero, Zero, Zero, Zero, Zero, Zero, Zero,
    Zero, Zero, Zero, Zero, Zero, Zero, Zero, Zero, Zero, Zero, Zero, Zero, Zero, Zero, Zero, Zero,
    Zero, Zero,
];

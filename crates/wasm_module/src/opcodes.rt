//! The table of instructions: what is behind each opcode, as specs/Opcodes says it by ranges.
//!
//! WebAssembly core specification, "Index of Instructions".
ghost use Rattle.std.specs.Prelude.{◌≡◌};
ghost use Rattle.wasm_module.specs.Opcodes.{kinds_in, opcodes, aggregate_opcodes, bulk_opcodes, vector_opcodes, atomic_opcodes};
ghost use Rattle.wasm_module.specs.Steps.Tables.{row_kinds, entry_at, IsTableOf};

mod atomic_table;
mod vector_table;

use crate::kind::Immediates::{self, Zero};
use crate::kind::{Kind, Space};
use crate::opcodes::atomic_table::ATOMIC_OPCODES;
use crate::opcodes::vector_table::VECTOR_OPCODES;

/// What the instruction with this first byte has after it.
pub fn instruction(opcode: u8) -> Immediates
    ensures { row_kinds result ≡ kinds_in opcodes opcode }
{
    immediates(one_byte(), usize::from(opcode))
}

/// What the instruction of this number behind 0xFB has after it.
pub fn aggregate(number: u32) -> Immediates
    ensures { row_kinds result ≡ kinds_in aggregate_opcodes number }
{
    immediates(aggregates(), number as usize)
}

/// What the instruction of this number behind 0xFC has after it.
pub fn bulk_instruction(number: u32) -> Immediates
    ensures { row_kinds result ≡ kinds_in bulk_opcodes number }
{
    immediates(bulk(), number as usize)
}

/// What the instruction of this number behind 0xFD has after it.
pub fn vector(number: u32) -> Immediates
    ensures { row_kinds result ≡ kinds_in vector_opcodes number }
{
    immediates(vectors(), number as usize)
}

/// What the instruction of this number behind 0xFE has after it.
pub fn atomic(number: u32) -> Immediates
    ensures { row_kinds result ≡ kinds_in atomic_opcodes number }
{
    immediates(atomics(), number as usize)
}

/// What the entry of this number in a table says.
#[tactic(auto, using(crate::proofs::Tables::entry_get, crate::proofs::Tables::none_there))]
pub fn immediates(table: &[Immediates], opcode: usize) -> Immediates
    ensures { row_kinds result ≡ entry_at table.now opcode }
{
    if opcode < table.len() {
        table[opcode]
    } else {
        Immediates::NoInstruction
    }
}

/// Instructions by their only byte, or by their first one.
fn one_byte() -> &'static [Immediates]
    ensures { IsTableOf opcodes result.now }
{
    &OPCODES
}

/// Instructions behind 0xFB.
fn aggregates() -> &'static [Immediates]
    ensures { IsTableOf aggregate_opcodes result.now }
{
    &AGGREGATE_OPCODES
}

/// Instructions behind 0xFC.
fn bulk() -> &'static [Immediates]
    ensures { IsTableOf bulk_opcodes result.now }
{
    &BULK_OPCODES
}

/// Instructions behind 0xFD.
fn vectors() -> &'static [Immediates]
    ensures { IsTableOf vector_opcodes result.now }
{
    &VECTOR_OPCODES
}

/// Instructions behind 0xFE.
fn atomics() -> &'static [Immediates]
    ensures { IsTableOf atomic_opcodes result.now }
{
    &ATOMIC_OPCODES
}

const BLOCK: Immediates = Immediates::Two(Kind::BlockType, Kind::Block);

const TAG: Immediates = Immediates::One(Kind::Index(Space::Tag));

const LABEL: Immediates = Immediates::One(Kind::Index(Space::Label));

const ABSENT: Immediates = Immediates::NoInstruction;

const LABELS: Immediates = Immediates::Two(Kind::Labels, Kind::Index(Space::Label));

const FUNCTION: Immediates = Immediates::One(Kind::Index(Space::Function));

const TYPE_TABLE: Immediates = Immediates::Two(Kind::Index(Space::Type), Kind::Index(Space::Table));

const TYPE: Immediates = Immediates::One(Kind::Index(Space::Type));

const VAL_TYPES: Immediates = Immediates::One(Kind::ValTypes);

const TRY_TABLE: Immediates = Immediates::Three(Kind::BlockType, Kind::CatchClauses, Kind::Block);

const LOCAL: Immediates = Immediates::One(Kind::Index(Space::Local));

const GLOBAL: Immediates = Immediates::One(Kind::Index(Space::Global));

const TABLE: Immediates = Immediates::One(Kind::Index(Space::Table));

// Accesses to memory of this many bits.

const ACCESS_8: Immediates = Immediates::One(Kind::MemArg(0));

const ACCESS_16: Immediates = Immediates::One(Kind::MemArg(1));

const ACCESS_32: Immediates = Immediates::One(Kind::MemArg(2));

const ACCESS_64: Immediates = Immediates::One(Kind::MemArg(3));

const MEMORY: Immediates = Immediates::One(Kind::Index(Space::Memory));

const S32: Immediates = Immediates::One(Kind::S32);

const S64: Immediates = Immediates::One(Kind::S64);

const BYTES_4: Immediates = Immediates::One(Kind::Bytes(4));

const BYTES_8: Immediates = Immediates::One(Kind::Bytes(8));

const HEAP_TYPE: Immediates = Immediates::One(Kind::HeapType);

const AGGREGATE: Immediates = Immediates::One(Kind::Aggregate);

const BULK: Immediates = Immediates::One(Kind::Bulk);

const VECTOR: Immediates = Immediates::One(Kind::Vector);

const ATOMIC: Immediates = Immediates::One(Kind::Atomic);

static OPCODES: [Immediates; 256] = [
    Zero, Zero, BLOCK, BLOCK, BLOCK, Zero, BLOCK, TAG, TAG, LABEL, Zero, ABSENT, LABEL, LABEL,
    LABELS, Zero, FUNCTION, TYPE_TABLE, FUNCTION, TYPE_TABLE, TYPE, TYPE, ABSENT, ABSENT, ABSENT,
    Zero, Zero, Zero, VAL_TYPES, ABSENT, ABSENT, TRY_TABLE, LOCAL, LOCAL, LOCAL, GLOBAL, GLOBAL,
    TABLE, TABLE, ABSENT, ACCESS_32, ACCESS_64, ACCESS_32, ACCESS_64, ACCESS_8, ACCESS_8,
    ACCESS_16, ACCESS_16, ACCESS_8, ACCESS_8, ACCESS_16, ACCESS_16, ACCESS_32, ACCESS_32,
    ACCESS_32, ACCESS_64, ACCESS_32, ACCESS_64, ACCESS_8, ACCESS_16, ACCESS_8, ACCESS_16,
    ACCESS_32, MEMORY, MEMORY, S32, S64, BYTES_4, BYTES_8, Zero, Zero, Zero, Zero, Zero, Zero,
    Zero, Zero, Zero, Zero, Zero, Zero, Zero, Zero, Zero, Zero, Zero, Zero, Zero, Zero, Zero, Zero,
    Zero, Zero, Zero, Zero, Zero, Zero, Zero, Zero, Zero, Zero, Zero, Zero, Zero, Zero, Zero, Zero,
    Zero, Zero, Zero, Zero, Zero, Zero, Zero, Zero, Zero, Zero, Zero, Zero, Zero, Zero, Zero, Zero,
    Zero, Zero, Zero, Zero, Zero, Zero, Zero, Zero, Zero, Zero, Zero, Zero, Zero, Zero, Zero, Zero,
    Zero, Zero, Zero, Zero, Zero, Zero, Zero, Zero, Zero, Zero, Zero, Zero, Zero, Zero, Zero, Zero,
    Zero, Zero, Zero, Zero, Zero, Zero, Zero, Zero, Zero, Zero, Zero, Zero, Zero, Zero, Zero, Zero,
    Zero, Zero, Zero, Zero, Zero, Zero, Zero, Zero, Zero, Zero, Zero, Zero, Zero, Zero, Zero, Zero,
    Zero, Zero, Zero, Zero, Zero, Zero, Zero, Zero, Zero, Zero, ABSENT, ABSENT, ABSENT, ABSENT,
    ABSENT, ABSENT, ABSENT, ABSENT, ABSENT, ABSENT, ABSENT, HEAP_TYPE, Zero, FUNCTION, Zero, Zero,
    LABEL, LABEL, ABSENT, ABSENT, ABSENT, ABSENT, ABSENT, ABSENT, ABSENT, ABSENT, ABSENT, ABSENT,
    ABSENT, ABSENT, ABSENT, ABSENT, ABSENT, ABSENT, ABSENT, ABSENT, ABSENT, ABSENT, ABSENT, ABSENT,
    ABSENT, ABSENT, ABSENT, ABSENT, ABSENT, ABSENT, ABSENT, ABSENT, ABSENT, ABSENT, ABSENT, ABSENT,
    ABSENT, ABSENT, AGGREGATE, BULK, VECTOR, ATOMIC, ABSENT,
];

static AGGREGATE_OPCODES: [Immediates; 31] = [
    Immediates::One(Kind::Index(Space::Type)),
    Immediates::One(Kind::Index(Space::Type)),
    Immediates::Two(Kind::Index(Space::Type), Kind::Index(Space::Field)),
    Immediates::Two(Kind::Index(Space::Type), Kind::Index(Space::Field)),
    Immediates::Two(Kind::Index(Space::Type), Kind::Index(Space::Field)),
    Immediates::Two(Kind::Index(Space::Type), Kind::Index(Space::Field)),
    Immediates::One(Kind::Index(Space::Type)),
    Immediates::One(Kind::Index(Space::Type)),
    Immediates::Two(Kind::Index(Space::Type), Kind::U32),
    Immediates::Two(Kind::Index(Space::Type), Kind::Index(Space::Data)),
    Immediates::Two(Kind::Index(Space::Type), Kind::Index(Space::Element)),
    Immediates::One(Kind::Index(Space::Type)),
    Immediates::One(Kind::Index(Space::Type)),
    Immediates::One(Kind::Index(Space::Type)),
    Immediates::One(Kind::Index(Space::Type)),
    Immediates::Zero,
    Immediates::One(Kind::Index(Space::Type)),
    Immediates::Two(Kind::Index(Space::Type), Kind::Index(Space::Type)),
    Immediates::Two(Kind::Index(Space::Type), Kind::Index(Space::Data)),
    Immediates::Two(Kind::Index(Space::Type), Kind::Index(Space::Element)),
    Immediates::One(Kind::HeapType),
    Immediates::One(Kind::HeapType),
    Immediates::One(Kind::HeapType),
    Immediates::One(Kind::HeapType),
    Immediates::Four(
        Kind::CastFlags,
        Kind::Index(Space::Label),
        Kind::HeapType,
        Kind::HeapType,
    ),
    Immediates::Four(
        Kind::CastFlags,
        Kind::Index(Space::Label),
        Kind::HeapType,
        Kind::HeapType,
    ),
    Immediates::Zero,
    Immediates::Zero,
    Immediates::Zero,
    Immediates::Zero,
    Immediates::Zero,
];

static BULK_OPCODES: [Immediates; 23] = [
    Immediates::Zero,
    Immediates::Zero,
    Immediates::Zero,
    Immediates::Zero,
    Immediates::Zero,
    Immediates::Zero,
    Immediates::Zero,
    Immediates::Zero,
    Immediates::Two(Kind::Index(Space::Data), Kind::Index(Space::Memory)),
    Immediates::One(Kind::Index(Space::Data)),
    Immediates::Two(Kind::Index(Space::Memory), Kind::Index(Space::Memory)),
    Immediates::One(Kind::Index(Space::Memory)),
    Immediates::Two(Kind::Index(Space::Element), Kind::Index(Space::Table)),
    Immediates::One(Kind::Index(Space::Element)),
    Immediates::Two(Kind::Index(Space::Table), Kind::Index(Space::Table)),
    Immediates::One(Kind::Index(Space::Table)),
    Immediates::One(Kind::Index(Space::Table)),
    Immediates::One(Kind::Index(Space::Table)),
    Immediates::NoInstruction,
    Immediates::Zero,
    Immediates::Zero,
    Immediates::Zero,
    Immediates::Zero,
];

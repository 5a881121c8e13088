//! The tables of contents of sections, as specs/Contents says them by rows.
//!
//! WebAssembly core specification, "Binary Format", modules.
ghost use Rattle.std.specs.Prelude.{◌≡◌};
ghost use Rattle.wasm_module.specs.Opcodes.{kinds_in};
ghost use Rattle.wasm_module.specs.Contents.{section_rows, section_kinds, extern_types, table_limits, memory_limits, element_forms, data_forms};
ghost use Rattle.wasm_module.specs.Steps.Tables.{row_kinds, IsTableOf};

use crate::kind::{Immediates, Kind, Space};
use crate::opcodes::immediates;

/// What the content of the section with this id is.
pub fn section_kinds(id: u8) -> Immediates
    ensures { row_kinds result ≡ section_kinds id }
{
    immediates(section_table(), usize::from(id))
}

/// What is behind the first byte of what is imported.
pub fn extern_type(byte: u8) -> Immediates
    ensures { row_kinds result ≡ kinds_in extern_types byte }
{
    immediates(extern_type_table(), usize::from(byte))
}

/// What is behind the flags of a table's limits.
pub fn table_limits(flags: u8) -> Immediates
    ensures { row_kinds result ≡ kinds_in table_limits flags }
{
    immediates(table_limits_table(), usize::from(flags))
}

/// What is behind the flags of a memory's limits.
pub fn memory_limits(flags: u8) -> Immediates
    ensures { row_kinds result ≡ kinds_in memory_limits flags }
{
    immediates(memory_limits_table(), usize::from(flags))
}

/// What is behind the first number of an element segment.
pub fn element_segment(form: u32) -> Immediates
    ensures { row_kinds result ≡ kinds_in element_forms form }
{
    immediates(element_table(), form as usize)
}

/// What is behind the first number of a data segment.
pub fn data_segment(form: u32) -> Immediates
    ensures { row_kinds result ≡ kinds_in data_forms form }
{
    immediates(data_table(), form as usize)
}

fn section_table() -> &'static [Immediates]
    ensures { IsTableOf section_rows result.now }
{
    &SECTIONS
}

fn extern_type_table() -> &'static [Immediates]
    ensures { IsTableOf extern_types result.now }
{
    &EXTERN_TYPES
}

fn table_limits_table() -> &'static [Immediates]
    ensures { IsTableOf table_limits result.now }
{
    &TABLE_LIMITS
}

fn memory_limits_table() -> &'static [Immediates]
    ensures { IsTableOf memory_limits result.now }
{
    &MEMORY_LIMITS
}

fn element_table() -> &'static [Immediates]
    ensures { IsTableOf element_forms result.now }
{
    &ELEMENT_SEGMENTS
}

fn data_table() -> &'static [Immediates]
    ensures { IsTableOf data_forms result.now }
{
    &DATA_SEGMENTS
}

static SECTIONS: [Immediates; 14] = [
    Immediates::NoInstruction,
    Immediates::NoInstruction,
    Immediates::One(Kind::Imports),
    Immediates::One(Kind::TypeIndices),
    Immediates::One(Kind::Tables),
    Immediates::NoInstruction,
    Immediates::One(Kind::Globals),
    Immediates::NoInstruction,
    Immediates::NoInstruction,
    Immediates::One(Kind::ElementSegments),
    Immediates::NoInstruction,
    Immediates::One(Kind::DataSegments),
    Immediates::NoInstruction,
    Immediates::One(Kind::Tags),
];

static EXTERN_TYPES: [Immediates; 5] = [
    Immediates::One(Kind::Index(Space::Type)),
    Immediates::Two(Kind::RefType, Kind::TableLimits),
    Immediates::One(Kind::MemoryLimits),
    Immediates::Two(Kind::ValType, Kind::Mutability),
    Immediates::One(Kind::TagType),
];

static TABLE_LIMITS: [Immediates; 6] = [
    Immediates::One(Kind::U64),
    Immediates::Two(Kind::U64, Kind::U64),
    Immediates::NoInstruction,
    Immediates::NoInstruction,
    Immediates::One(Kind::U64),
    Immediates::Two(Kind::U64, Kind::U64),
];

static MEMORY_LIMITS: [Immediates; 16] = [
    Immediates::One(Kind::U64),
    Immediates::Two(Kind::U64, Kind::U64),
    Immediates::One(Kind::U64),
    Immediates::Two(Kind::U64, Kind::U64),
    Immediates::One(Kind::U64),
    Immediates::Two(Kind::U64, Kind::U64),
    Immediates::One(Kind::U64),
    Immediates::Two(Kind::U64, Kind::U64),
    Immediates::Two(Kind::U64, Kind::U64),
    Immediates::Three(Kind::U64, Kind::U64, Kind::U64),
    Immediates::Two(Kind::U64, Kind::U64),
    Immediates::Three(Kind::U64, Kind::U64, Kind::U64),
    Immediates::Two(Kind::U64, Kind::U64),
    Immediates::Three(Kind::U64, Kind::U64, Kind::U64),
    Immediates::Two(Kind::U64, Kind::U64),
    Immediates::Three(Kind::U64, Kind::U64, Kind::U64),
];

static ELEMENT_SEGMENTS: [Immediates; 8] = [
    Immediates::Two(Kind::Expression, Kind::FunctionIndices),
    Immediates::Two(Kind::Zero, Kind::FunctionIndices),
    Immediates::Four(
        Kind::Index(Space::Table),
        Kind::Expression,
        Kind::Zero,
        Kind::FunctionIndices,
    ),
    Immediates::Two(Kind::Zero, Kind::FunctionIndices),
    Immediates::Two(Kind::Expression, Kind::Expressions),
    Immediates::Two(Kind::RefType, Kind::Expressions),
    Immediates::Four(
        Kind::Index(Space::Table),
        Kind::Expression,
        Kind::RefType,
        Kind::Expressions,
    ),
    Immediates::Two(Kind::RefType, Kind::Expressions),
];

static DATA_SEGMENTS: [Immediates; 3] = [
    Immediates::Two(Kind::Expression, Kind::ByteVec),
    Immediates::One(Kind::ByteVec),
    Immediates::Three(Kind::Index(Space::Memory), Kind::Expression, Kind::ByteVec),
];

//! The beginning of what comes next: a byte, or an integer.
ghost use Rattle.std.specs.Prelude.{◌≡◌, [], ◌∷◌, Some, None, cond, nat_eq};
ghost use Rattle.wasm_module.specs.declared.kind.Kind.TheVariants as kind;
ghost use Rattle.wasm_module.specs.Opcodes.{kinds_in, opcodes};
ghost use Rattle.wasm_module.specs.Immediates.{is_abstract, ref_kinds, value_kinds, and_then, behind_byte, behind_number};
ghost use Rattle.wasm_module.specs.Steps.Tables.{row_kinds};
ghost use Rattle.wasm_module.specs.Steps.Heads.{Finds, Chooses, seen, begin_at, byte_at, number_at, index_at, index_or_byte_at, raw_at, byte_vec_at};

use crate::contents::{data_segment, element_segment, extern_type, memory_limits, table_limits};
use crate::kind::{Immediates, Kind, Space};
use crate::leb128::{read_s33, read_u32, skip_s32, skip_s64, skip_u64};
use crate::opcodes::{aggregate, atomic, bulk_instruction, instruction, vector};

/// What the beginning says: which type it names, or what is still to come behind it.
#[derive(Clone, Copy)]
pub enum Head {
    /// The type of this index, and nothing is to come.
    Named(u32),
    Row(Immediates),
    /// The immediates of an instruction, and then more of the block or expression that has it.
    Instruction(Immediates, Kind),
    Times(u32, Kind),
}

const PLAIN: Head = Head::Row(Immediates::Zero);

const END: u8 = 0x0B;

const DELEGATE: u8 = 0x18;

/// Takes the beginning of what has this kind. With `None` the input is left where the fault is.
#[tactic(auto, unfolding(crate::specs::Steps::Heads::begin_at))]
pub fn read_head(kind: Kind, input: &mut &[u8]) -> Option<Head>
    ensures { Finds seen result input.new.now (begin_at kind input.old.now) }
{
    match kind {
        Kind::Index(space) => read_index(space, input),
        Kind::U64 => {
            skip_u64(input)?;
            Some(PLAIN)
        }
        Kind::S32 => {
            skip_s32(input)?;
            Some(PLAIN)
        }
        Kind::S64 => {
            skip_s64(input)?;
            Some(PLAIN)
        }
        Kind::Bytes(length) => {
            skip_bytes(length, input)?;
            Some(PLAIN)
        }
        Kind::BlockType => read_index_or_byte(Kind::BlockType, input),
        Kind::HeapType => read_index_or_byte(Kind::HeapType, input),
        Kind::Zero => read_byte(Kind::Zero, input),
        Kind::CastFlags => read_byte(Kind::CastFlags, input),
        Kind::ValType => read_byte(Kind::ValType, input),
        Kind::CatchClause => read_byte(Kind::CatchClause, input),
        Kind::Block => read_byte(Kind::Block, input),
        Kind::Expression => read_byte(Kind::Expression, input),
        Kind::U32 => read_number(Kind::U32, input),
        Kind::MemArg(most) => read_number(Kind::MemArg(most), input),
        Kind::Labels => read_number(Kind::Labels, input),
        Kind::ValTypes => read_number(Kind::ValTypes, input),
        Kind::CatchClauses => read_number(Kind::CatchClauses, input),
        Kind::Local => read_number(Kind::Local, input),
        Kind::Locals => read_number(Kind::Locals, input),
        Kind::Aggregate => read_number(Kind::Aggregate, input),
        Kind::Bulk => read_number(Kind::Bulk, input),
        Kind::Vector => read_number(Kind::Vector, input),
        Kind::Atomic => read_number(Kind::Atomic, input),
        Kind::Expressions => read_number(Kind::Expressions, input),
        Kind::ByteVec => {
            skip_byte_vec(input)?;
            Some(PLAIN)
        }
        Kind::RefType => read_byte(Kind::RefType, input),
        Kind::Mutability => read_byte(Kind::Mutability, input),
        Kind::TagType => read_byte(Kind::TagType, input),
        Kind::TableLimits => read_byte(Kind::TableLimits, input),
        Kind::MemoryLimits => read_byte(Kind::MemoryLimits, input),
        Kind::ExternType => read_byte(Kind::ExternType, input),
        Kind::Import => {
            skip_byte_vec(input)?;
            Some(Head::Row(Immediates::Two(Kind::ByteVec, Kind::ExternType)))
        }
        Kind::Imports => read_number(Kind::Imports, input),
        Kind::TypeIndices => read_number(Kind::TypeIndices, input),
        Kind::FunctionIndices => read_number(Kind::FunctionIndices, input),
        Kind::Table => read_byte(Kind::Table, input),
        Kind::Tables => read_number(Kind::Tables, input),
        Kind::Global => read_byte(Kind::Global, input),
        Kind::Globals => read_number(Kind::Globals, input),
        Kind::ElementSegment => read_number(Kind::ElementSegment, input),
        Kind::ElementSegments => read_number(Kind::ElementSegments, input),
        Kind::DataSegment => read_number(Kind::DataSegment, input),
        Kind::DataSegments => read_number(Kind::DataSegments, input),
        Kind::Tags => read_number(Kind::Tags, input),
    }
}

#[tactic(auto, unfolding(crate::specs::Steps::Heads::index_at))]
fn read_index(space: Space, input: &mut &[u8]) -> Option<Head>
    ensures { Finds seen result input.new.now (index_at space input.old.now) }
{
    let index = read_u32(input)?;
    match space {
        Space::Type => Some(Head::Named(index)),
        _ => Some(PLAIN),
    }
}

/// Takes this many bytes, but not none. Returns `None` where there are fewer, and then takes them
/// all.
#[tactic(auto, unfolding(crate::specs::Steps::Heads::raw_at))]
pub fn skip_bytes(length: u8, input: &mut &[u8]) -> Option<()>
    ensures { Finds (λ u. tt) result input.new.now (raw_at length input.old.now) }
{
    let length = usize::from(length);
    let bytes = *input;
    if length == 0 || length > bytes.len() {
        *input = &[];
        return None;
    }
    *input = &bytes[length..];
    Some(())
}

/// Takes a count, and as many bytes.
#[tactic(auto, unfolding(crate::specs::Steps::Heads::byte_vec_at))]
fn skip_byte_vec(input: &mut &[u8]) -> Option<()>
    ensures { Finds (λ u. tt) result input.new.now (byte_vec_at input.old.now) }
{
    let length = read_u32(input)? as usize;
    let bytes = *input;
    if length > bytes.len() {
        *input = &[];
        return None;
    }
    *input = &bytes[length..];
    Some(())
}

#[tactic(auto, unfolding(crate::specs::Steps::Heads::index_or_byte_at))]
fn read_index_or_byte(kind: Kind, input: &mut &[u8]) -> Option<Head>
    ensures { Finds seen result input.new.now (index_or_byte_at kind input.old.now) }
{
    let [byte, ..] = *input else {
        return None;
    };
    if *byte < 0x40 || *byte >= 0x80 {
        let index = read_s33(input)?;
        return Some(Head::Named(index));
    }
    read_byte(kind, input)
}

#[tactic(auto, unfolding(crate::specs::Steps::Heads::byte_at))]
fn read_byte(kind: Kind, input: &mut &[u8]) -> Option<Head>
    ensures { Finds seen result input.new.now (byte_at kind input.old.now) }
{
    let [byte, rest @ ..] = *input else {
        return None;
    };
    let head = behind_byte(kind, *byte)?;
    *input = rest;
    Some(head)
}

#[tactic(auto, unfolding(crate::specs::Steps::Heads::number_at))]
fn read_number(kind: Kind, input: &mut &[u8]) -> Option<Head>
    ensures { Finds seen result input.new.now (number_at kind input.old.now) }
{
    let bytes = *input;
    let number = read_u32(input)?;
    match behind_number(kind, number) {
        Some(head) => Some(head),
        None => {
            *input = bytes;
            None
        }
    }
}

/// What is behind this byte.
fn behind_byte(kind: Kind, byte: u8) -> Option<Head>
    ensures { Chooses result (behind_byte kind byte) }
{
    match kind {
        Kind::Expression => behind_opcode(byte, Kind::Expression),
        Kind::Block => behind_in_block(byte),
        Kind::ValType => behind_value(byte),
        Kind::BlockType => behind_block_type(byte),
        Kind::HeapType => behind_heap_type(byte),
        Kind::Zero => choose(byte == 0, Immediates::Zero),
        Kind::CastFlags => choose(byte <= 3, Immediates::Zero),
        Kind::CatchClause => behind_catch(byte),
        Kind::RefType => behind_reference(byte),
        Kind::Mutability => choose(byte <= 1, Immediates::Zero),
        Kind::TagType => choose(byte == 0, Immediates::One(Kind::Index(Space::Type))),
        Kind::TableLimits => behind_prefix(table_limits(byte)),
        Kind::MemoryLimits => behind_prefix(memory_limits(byte)),
        Kind::ExternType => behind_prefix(extern_type(byte)),
        Kind::Table => behind_table(byte),
        Kind::Global => behind_global(byte),
        _ => None,
    }
}

/// The row, where a test says so.
fn choose(is_there: bool, row: Immediates) -> Option<Head>
    ensures { Chooses result (cond is_there (row_kinds row) None) }
{
    match row {
        Immediates::NoInstruction => None,
        _ => if is_there { Some(Head::Row(row)) } else { None },
    }
}

/// What is behind this byte in a block.
fn behind_in_block(byte: u8) -> Option<Head>
    ensures { Chooses result (behind_byte kind.Block byte) }
{
    if byte == DELEGATE {
        return Some(Head::Row(Immediates::One(Kind::Index(Space::Label))));
    }
    behind_opcode(byte, Kind::Block)
}

/// What is behind an opcode, or behind the `end` of these instructions.
fn behind_opcode(byte: u8, here: Kind) -> Option<Head>
    ensures { Chooses result (cond (nat_eq byte 0x0B) (Some [])
        (and_then (kinds_in opcodes byte) (here ∷ []))) }
{
    if byte == END {
        return Some(PLAIN);
    }
    behind_instruction(instruction(byte), here)
}

/// What is behind the first byte of an instruction.
fn behind_instruction(row: Immediates, here: Kind) -> Option<Head>
    ensures { Chooses result (and_then (row_kinds row) (here ∷ [])) }
{
    match row {
        Immediates::NoInstruction => None,
        _ => Some(Head::Instruction(row, here)),
    }
}

fn is_abstract(byte: u8) -> bool
    ensures { result ≡ is_abstract byte }
{
    byte >= 0x69 && byte <= 0x74
}

fn behind_value(byte: u8) -> Option<Head>
    ensures { Chooses result (value_kinds byte) }
{
    if byte >= 0x7B && byte <= 0x7F || is_abstract(byte) {
        return Some(PLAIN);
    }
    choose(
        byte >= 0x63 && byte <= 0x64,
        Immediates::One(Kind::HeapType),
    )
}

fn behind_reference(byte: u8) -> Option<Head>
    ensures { Chooses result (ref_kinds byte) }
{
    if is_abstract(byte) {
        return Some(PLAIN);
    }
    choose(
        byte >= 0x63 && byte <= 0x64,
        Immediates::One(Kind::HeapType),
    )
}

/// What is behind the first byte of a table: of its type, or of the form with an expression.
fn behind_table(byte: u8) -> Option<Head>
    ensures { Chooses result (behind_byte kind.Table byte) }
{
    if byte == 0x40 {
        return Some(Head::Row(Immediates::Four(
            Kind::Zero,
            Kind::RefType,
            Kind::TableLimits,
            Kind::Expression,
        )));
    }
    if is_abstract(byte) {
        return Some(Head::Row(Immediates::One(Kind::TableLimits)));
    }
    choose(
        byte >= 0x63 && byte <= 0x64,
        Immediates::Two(Kind::HeapType, Kind::TableLimits),
    )
}

/// What is behind the first byte of a global: of its value type.
fn behind_global(byte: u8) -> Option<Head>
    ensures { Chooses result (behind_byte kind.Global byte) }
{
    if byte >= 0x7B && byte <= 0x7F || is_abstract(byte) {
        return Some(Head::Row(Immediates::Two(Kind::Mutability, Kind::Expression)));
    }
    choose(
        byte >= 0x63 && byte <= 0x64,
        Immediates::Three(Kind::HeapType, Kind::Mutability, Kind::Expression),
    )
}

fn behind_block_type(byte: u8) -> Option<Head>
    ensures { Chooses result (behind_byte kind.BlockType byte) }
{
    if byte == 0x40 {
        return Some(PLAIN);
    }
    behind_value(byte)
}

fn behind_heap_type(byte: u8) -> Option<Head>
    ensures { Chooses result (behind_byte kind.HeapType byte) }
{
    if is_abstract(byte) {
        return Some(PLAIN);
    }
    choose(byte == 0x62, Immediates::One(Kind::Index(Space::Type)))
}

fn behind_catch(byte: u8) -> Option<Head>
    ensures { Chooses result (behind_byte kind.CatchClause byte) }
{
    if byte <= 1 {
        return Some(Head::Row(Immediates::Two(Kind::Index(Space::Tag), Kind::Index(Space::Label))));
    }
    choose(byte <= 3, Immediates::One(Kind::Index(Space::Label)))
}

/// What is behind this number.
fn behind_number(kind: Kind, number: u32) -> Option<Head>
    ensures { Chooses result (behind_number kind number) }
{
    match kind {
        Kind::U32 => Some(PLAIN),
        Kind::MemArg(most) => behind_alignment(most, number),
        Kind::Labels => Some(Head::Times(number, Kind::Index(Space::Label))),
        Kind::ValTypes => Some(Head::Times(number, Kind::ValType)),
        Kind::CatchClauses => Some(Head::Times(number, Kind::CatchClause)),
        Kind::Local => Some(Head::Row(Immediates::One(Kind::ValType))),
        Kind::Locals => Some(Head::Times(number, Kind::Local)),
        Kind::Aggregate => behind_prefix(aggregate(number)),
        Kind::Bulk => behind_prefix(bulk_instruction(number)),
        Kind::Vector => behind_prefix(vector(number)),
        Kind::Atomic => behind_prefix(atomic(number)),
        Kind::Expressions => Some(Head::Times(number, Kind::Expression)),
        Kind::Imports => Some(Head::Times(number, Kind::Import)),
        Kind::TypeIndices => Some(Head::Times(number, Kind::Index(Space::Type))),
        Kind::FunctionIndices => Some(Head::Times(number, Kind::Index(Space::Function))),
        Kind::Tables => Some(Head::Times(number, Kind::Table)),
        Kind::Globals => Some(Head::Times(number, Kind::Global)),
        Kind::ElementSegment => behind_prefix(element_segment(number)),
        Kind::ElementSegments => Some(Head::Times(number, Kind::ElementSegment)),
        Kind::DataSegment => behind_prefix(data_segment(number)),
        Kind::DataSegments => Some(Head::Times(number, Kind::DataSegment)),
        Kind::Tags => Some(Head::Times(number, Kind::TagType)),
        _ => None,
    }
}

/// What is behind the exponent of an alignment, which is at most the natural one. Where 64 is added
/// to it, the index of a memory follows.
fn behind_alignment(most: u8, number: u32) -> Option<Head>
    ensures { Chooses result (behind_number (kind.MemArg most) number) }
{
    let most = u32::from(most);
    if number <= most {
        return Some(Head::Row(Immediates::One(Kind::U64)));
    }
    choose(
        number >= 64 && number <= 64 + most,
        Immediates::Two(Kind::Index(Space::Memory), Kind::U64),
    )
}

fn behind_prefix(row: Immediates) -> Option<Head>
    ensures { Chooses result (row_kinds row) }
{
    match row {
        Immediates::NoInstruction => None,
        _ => Some(Head::Row(row)),
    }
}

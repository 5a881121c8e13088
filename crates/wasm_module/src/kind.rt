//! What an instruction has after its opcode, and what a section has for its content.
//!
//! WebAssembly core specification, "Binary Format", instructions and modules.

/// An index space of a module, of a function or of a type.
#[derive(Clone, Copy, PartialEq, Eq, Debug)]
pub enum Space {
    Type,
    Function,
    Table,
    Memory,
    Tag,
    Global,
    Element,
    Data,
    Local,
    Label,
    Field,
}

/// What comes next in the bytes of an instruction, of an expression or of a section's content.
#[derive(Clone, Copy, PartialEq, Eq, Debug)]
pub enum Kind {
    /// An index, as a `u32`.
    Index(Space),
    /// A `u32` that is no index.
    U32,
    /// A `u64`: the offset of a memory access.
    U64,
    /// An `i32`, as an `s32`.
    S32,
    /// An `i64`, as an `s64`.
    S64,
    /// A number of bytes, one at least: a float, a vector, lanes.
    Bytes(u8),
    /// The byte 0.
    Zero,
    /// Which of the two types of a cast are nullable: 0 to 3.
    CastFlags,
    /// Alignment, memory and offset of a memory access, whose natural alignment is 2 to this power.
    MemArg(u8),
    BlockType,
    ValType,
    HeapType,
    /// A clause of `try_table`.
    CatchClause,
    /// A count, and as many labels.
    Labels,
    /// A count, and as many value types.
    ValTypes,
    /// A count, and as many clauses of `try_table`.
    CatchClauses,
    /// How many locals there are of a type, and the type.
    Local,
    /// A count, and as many `Local`.
    Locals,
    /// The rest of an instruction behind 0xFB: a `u32`, and what it asks for.
    Aggregate,
    /// The rest of an instruction behind 0xFC.
    Bulk,
    /// The rest of an instruction behind 0xFD.
    Vector,
    /// The rest of an instruction behind 0xFE.
    Atomic,
    /// Instructions, and the `end` or `delegate` of the block that has them.
    Block,
    /// Instructions, and the `end` that no block has.
    Expression,
    /// A count, and as many expressions.
    Expressions,
    /// A count, and as many bytes: a name, or the bytes of a data segment.
    ByteVec,
    RefType,
    /// The byte 0 or 1: whether a global can be changed.
    Mutability,
    /// The byte 0, and the index of a tag's type.
    TagType,
    /// Flags, and how large a table is.
    TableLimits,
    /// Flags, and how large a memory is.
    MemoryLimits,
    /// What is imported: a function, a table, a memory, a global or a tag.
    ExternType,
    /// The names of a module and of what it exports, and what that is.
    Import,
    /// A count, and as many imports.
    Imports,
    /// A count, and as many indices of types.
    TypeIndices,
    /// A count, and as many indices of functions.
    FunctionIndices,
    /// The type of a table, and the expression that initializes it, if it has one.
    Table,
    /// A count, and as many tables.
    Tables,
    /// The type of a global, and the expression that initializes it.
    Global,
    /// A count, and as many globals.
    Globals,
    ElementSegment,
    /// A count, and as many element segments.
    ElementSegments,
    DataSegment,
    /// A count, and as many data segments.
    DataSegments,
    /// A count, and as many types of tags.
    Tags,
}

/// What comes behind an opcode, or behind the first number of a form, if there is one with that
/// number.
#[derive(Clone, Copy, PartialEq, Eq, Debug)]
pub enum Immediates {
    NoInstruction,
    Zero,
    One(Kind),
    Two(Kind, Kind),
    Three(Kind, Kind, Kind),
    Four(Kind, Kind, Kind, Kind),
}

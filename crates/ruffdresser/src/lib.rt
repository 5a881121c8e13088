//! All public names of Ruffdresser's libraries in one crate.
//!
//! - Arena: [`TombstoneArena`], [`ArenaSet`].
//! - Types: [`Type`], [`ModuleTypes`].
//! - Sections: [`GroupAt`], [`normalise`], [`canonicalise`], [`same_up_to_moves`].
//! - Instructions: [`Instr`], [`InstrSeq`], [`ConstExpr`].
//! - Builders: [`FunctionBuilder`], [`LocalFunction`].
//! - Walks: [`dfs_in_order`], [`dfs_pre_order_mut`], [`check_nesting`].
//! - Passes: [`delete_unused_types`], [`snip`], [`snip_calls`], [`adapter`].
//! - Binary: [`decode_types`], [`encode_types`], [`sections`], [`rename_module`],
//!   [`canonical_module`].
//! - Text: [`read_section`], [`write_section`].
//!
//! The module `laws` of each library has its theorems. It is here under a name of its own, such as
//! [`section_laws`].
//!
//! Contracts find the definitions of all libraries in `Rattle.ruffdresser.specs`, one module for
//! each file. Each enum has a module there with its variants, such as `ReadError.TheVariants`.
//! Where two of them have the same name, one has another name here.
//!
//! # The type section that is needed
//!
//! ```
//! use ruffdresser::{ModuleTypes, ValType, delete_unused_types, encode_types};
//!
//! let mut types = ModuleTypes::new(rt.alloc());
//! types.add(&[ValType::F64], &[])?;
//! let used = types.add(&[ValType::I32], &[])?;
//! delete_unused_types(rt.alloc(), &mut types, &[used])?;
//! let (groups, _) = types.emit()?;
//! let content = encode_types(rt.alloc(), groups.as_slice())?;
//! assert_eq!(rt; content.as_slice(), [1, 0x60, 1, 0x7F, 0].as_slice());
//! ```
#![tactic(auto)]

// Arena: ids, arenas and sets.
pub use walrus_arena::{ArenaSet, IdHashMap, IdHashSet, Iter, TombstoneArena, laws as arena_laws};
pub use walrus_id::{HashKeys, Id, Key, Tombstone};

// Types, and the table of a module's types.
pub use walrus_ty::{
    AbstractHeapType, ArrayType, CompositeType, Data, DataId, Element, ElementId, Field, FieldType,
    Function, FunctionId, FunctionType, FunctionTypes, Global, GlobalId, Heap, HeapType, Listed,
    Memory, MemoryId, RefType, Reference, Storage, StorageType, StructType, SubType, Table,
    TableId, Tag, TagId, Type, TypeId, Val, ValType, laws as type_laws,
};
pub use walrus_types::{
    AddRecGroupError, ModuleTypes, RecGroup, RecGroupId, TypesIter, laws as table_laws,
};

// Sections: the records of a type section, its normal form, and its canonical form.
pub use walrus_canonical::{CanonicalError, canonicalise, entry_count, laws as canonical_laws};
pub use walrus_normal_form_check::is_normal_form;
pub use walrus_sections::{ReadError, first_error, laws as section_laws};
pub use walrus_ty::{
    CompAt, EntryAt, FieldAt, FromRecordError, GroupAt, HeapAt, IdsToIndices, IndicesToIds,
    NoIndex, RefAt, StorageAt, ToRecordError, UnknownIndex, ValAt, record_laws,
};
pub use walrus_types::{
    EmitError, SectionReader, entries_before, first_difference, normalise, normalise_by_table,
    normalise_owned, parse_types, same_up_to_moves,
};

// Instructions, with their operators, locals and sequences; constant expressions.
pub use ir_const_expr::ConstExpr;
pub use ir_const_expr::ConstOp;
pub use ir_const_expr::ConstOpAt;
pub use ir_const_expr::laws as const_expr_laws;
pub use ir_instr::AnyConvertExtern;
pub use ir_instr::ArrayCopy;
pub use ir_instr::ArrayFill;
pub use ir_instr::ArrayGet;
pub use ir_instr::ArrayGetS;
pub use ir_instr::ArrayGetU;
pub use ir_instr::ArrayInitData;
pub use ir_instr::ArrayInitElem;
pub use ir_instr::ArrayLen;
pub use ir_instr::ArrayNew;
pub use ir_instr::ArrayNewData;
pub use ir_instr::ArrayNewDefault;
pub use ir_instr::ArrayNewElem;
pub use ir_instr::ArrayNewFixed;
pub use ir_instr::ArraySet;
pub use ir_instr::AtomicFence;
pub use ir_instr::AtomicNotify;
pub use ir_instr::AtomicRmw;
pub use ir_instr::AtomicWait;
pub use ir_instr::Binop;
pub use ir_instr::Block;
pub use ir_instr::Br;
pub use ir_instr::BrIf;
pub use ir_instr::BrOnCast;
pub use ir_instr::BrOnCastFail;
pub use ir_instr::BrOnNonNull;
pub use ir_instr::BrOnNull;
pub use ir_instr::BrTable;
pub use ir_instr::Call;
pub use ir_instr::CallIndirect;
pub use ir_instr::CallRef;
pub use ir_instr::Cmpxchg;
pub use ir_instr::Const;
pub use ir_instr::DataDrop;
pub use ir_instr::DropInstr;
pub use ir_instr::ElemDrop;
pub use ir_instr::ExternConvertAny;
pub use ir_instr::GlobalGet;
pub use ir_instr::GlobalSet;
pub use ir_instr::I8x16Shuffle;
pub use ir_instr::I8x16Swizzle;
pub use ir_instr::I31GetS;
pub use ir_instr::I31GetU;
pub use ir_instr::I64Add128;
pub use ir_instr::I64MulWideS;
pub use ir_instr::I64MulWideU;
pub use ir_instr::I64Sub128;
pub use ir_instr::IfElse;
pub use ir_instr::Instr;
pub use ir_instr::InstrLocId;
pub use ir_instr::InstrSeq;
pub use ir_instr::InstrSeqId;
pub use ir_instr::InstrSeqType;
pub use ir_instr::LegacyCatch;
pub use ir_instr::Load;
pub use ir_instr::LoadSimd;
pub use ir_instr::Local;
pub use ir_instr::LocalGet;
pub use ir_instr::LocalId;
pub use ir_instr::LocalSet;
pub use ir_instr::LocalTee;
pub use ir_instr::LocalsIter;
pub use ir_instr::Loop;
pub use ir_instr::MemArg;
pub use ir_instr::MemoryCopy;
pub use ir_instr::MemoryFill;
pub use ir_instr::MemoryGrow;
pub use ir_instr::MemoryInit;
pub use ir_instr::MemorySize;
pub use ir_instr::ModuleLocals;
pub use ir_instr::RefAsNonNull;
pub use ir_instr::RefCast;
pub use ir_instr::RefEq;
pub use ir_instr::RefFunc;
pub use ir_instr::RefI31;
pub use ir_instr::RefIsNull;
pub use ir_instr::RefNull;
pub use ir_instr::RefTest;
pub use ir_instr::Rethrow;
pub use ir_instr::Return;
pub use ir_instr::ReturnCall;
pub use ir_instr::ReturnCallIndirect;
pub use ir_instr::ReturnCallRef;
pub use ir_instr::Select;
pub use ir_instr::ShuffleIndices;
pub use ir_instr::Store;
pub use ir_instr::StructGet;
pub use ir_instr::StructGetS;
pub use ir_instr::StructGetU;
pub use ir_instr::StructNew;
pub use ir_instr::StructNewDefault;
pub use ir_instr::StructSet;
pub use ir_instr::TableCopy;
pub use ir_instr::TableFill;
pub use ir_instr::TableGet;
pub use ir_instr::TableGrow;
pub use ir_instr::TableInit;
pub use ir_instr::TableSet;
pub use ir_instr::TableSize;
pub use ir_instr::TernOp;
pub use ir_instr::Throw;
pub use ir_instr::ThrowRef;
pub use ir_instr::Try;
pub use ir_instr::TryTable;
pub use ir_instr::TryTableCatch;
pub use ir_instr::Unop;
pub use ir_instr::Unreachable;
pub use ir_instr::V128Bitselect;
pub use ir_instr::laws as local_laws;
pub use ir_operators::AtomicOp;
pub use ir_operators::AtomicWidth;
pub use ir_operators::BinaryOp;
pub use ir_operators::ExtendedLoad;
pub use ir_operators::LoadKind;
pub use ir_operators::LoadSimdKind;
pub use ir_operators::StoreKind;
pub use ir_operators::TernaryOp;
pub use ir_operators::UnaryOp;
pub use ir_operators::Value;
pub use walrus_ir::laws as ir_laws;

// Builders: functions that have a body, and how they are built.
pub use walrus_functions::{
    BuildError, FunctionBuilder, InstrSeqBuilder, LocalFunction, LocalFunctions,
};

// Walks over function bodies, and the nesting check that they ask for.
pub use walrus_nesting::{Nesting, WalkError, check_nesting, laws as nesting_laws, push_children};
pub use walrus_traversals::{
    AnyId, IdVisitor, InstrVisitor, OnlyIds, OnlyInstrs, UsedIds, Visitor, dfs_in_order,
    laws as traversals_laws, report_fields, used_ids,
};
pub use walrus_traversals_mut::{
    RenameTypes, VisitorMut, dfs_pre_order_mut, laws as traversals_mut_laws,
};

// Types that nothing uses, and passes over functions.
pub use walrus_passes::{
    adapter, adapter_between, laws as passes_laws, map_instrs, redirect_calls, replace_with, snip,
    snip_calls, unreachable_function, used_types,
};
pub use walrus_unused::{delete_unused_types, laws as unused_laws, new_indices};

// Binary: the sections of a module, its type section, and modules with their types in canonical form.
pub use wasm_binary::{
    DecodeError, EncodeError, Expected, NotHeld, SectionPlace, custom_section_name, decode_types,
    encode_types, laws as binary_laws, module_types, section_around, type_section,
};
pub use wasm_module::{
    DescriptionKind, RenameError, ScanError, Section, SectionIter, Widths, body_types,
    check_module, description_kind, expression_types, find_outdated, find_unknown_custom,
    find_unread_names, laws as module_laws, named_types, rename_body, rename_custom_section,
    rename_expression, rename_module, rename_section, section_types, sections, strip_descriptions,
};
pub use wasm_normalise::{
    Descriptions, Hazard, NormaliseModuleError, NormaliseOptions, StrictError, UnusedTypes,
    canonical_module, find_hazard, laws as canonical_module_laws, strict_canonical_module,
};

// Text: type sections as text.
pub use walrus_text::{
    BadLine, TextError, laws as text_laws, read_section, write_output, write_section,
};

//! The hooks of the fields of instructions.
ghost use Rattle.std.specs.Prelude.{OnOk, OnErr};
ghost use Rattle.walrus_ir.specs.Calls.{Full, Partial, Visits, each};
ghost use Rattle.walrus_ir.specs.Fields.{fields, type_fields, clause_fields, legacy_fields};
ghost use Rattle.walrus_traversals_mut.specs.Steps.{keeping};

use crate::VisitorMut;
use walrus_ir::{Instr, InstrSeqType, LegacyCatch, TryTableCatch};
use walrus_types::{Listed, ValType};

// The hooks of the fields, then those of the tags of its clauses.
pub(crate) fn visit_fields<V: VisitorMut>(
    visitor: &mut V,
    instr: &mut Instr,
) -> Result<(), V::Error>
    ensures ok { OnOk result (Visits (keeping V.step) visitor.old (fields instr.old)
        Full visitor.new instr.new) }
    ensures err { OnErr result (Visits (keeping V.step) visitor.old (fields instr.old)
        Partial visitor.new instr.new) }
{
    match instr {
        Instr::Block(x) => visitor.visit_instr_seq_id_mut(&mut x.seq),
        Instr::Loop(x) => visitor.visit_instr_seq_id_mut(&mut x.seq),
        Instr::IfElse(x) => {
            visitor.visit_instr_seq_id_mut(&mut x.consequent)?;
            visitor.visit_instr_seq_id_mut(&mut x.alternative)
        }
        Instr::BrOnNull(x) => visitor.visit_instr_seq_id_mut(&mut x.block),
        Instr::BrOnNonNull(x) => visitor.visit_instr_seq_id_mut(&mut x.block),
        Instr::BrOnCast(x) => {
            visitor.visit_instr_seq_id_mut(&mut x.block)?;
            visitor.visit_heap_type_mut(&mut x.from_heap_type)?;
            visitor.visit_heap_type_mut(&mut x.to_heap_type)
        }
        Instr::BrOnCastFail(x) => {
            visitor.visit_instr_seq_id_mut(&mut x.block)?;
            visitor.visit_heap_type_mut(&mut x.from_heap_type)?;
            visitor.visit_heap_type_mut(&mut x.to_heap_type)
        }
        Instr::Call(x) => visitor.visit_function_id_mut(&mut x.func),
        Instr::CallIndirect(x) => {
            visitor.visit_type_id_mut(&mut x.ty)?;
            visitor.visit_table_id_mut(&mut x.table)
        }
        Instr::CallRef(x) => visitor.visit_type_id_mut(&mut x.ty),
        Instr::ReturnCall(x) => visitor.visit_function_id_mut(&mut x.func),
        Instr::ReturnCallIndirect(x) => {
            visitor.visit_type_id_mut(&mut x.ty)?;
            visitor.visit_table_id_mut(&mut x.table)
        }
        Instr::ReturnCallRef(x) => visitor.visit_type_id_mut(&mut x.ty),
        Instr::LocalGet(x) => visitor.visit_local_id_mut(&mut x.local),
        Instr::LocalSet(x) => visitor.visit_local_id_mut(&mut x.local),
        Instr::LocalTee(x) => visitor.visit_local_id_mut(&mut x.local),
        Instr::GlobalGet(x) => visitor.visit_global_id_mut(&mut x.global),
        Instr::GlobalSet(x) => visitor.visit_global_id_mut(&mut x.global),
        Instr::Const(x) => visitor.visit_value_mut(&mut x.value),
        Instr::MemorySize(x) => visitor.visit_memory_id_mut(&mut x.memory),
        Instr::MemoryGrow(x) => visitor.visit_memory_id_mut(&mut x.memory),
        Instr::MemoryFill(x) => visitor.visit_memory_id_mut(&mut x.memory),
        Instr::MemoryInit(x) => {
            visitor.visit_memory_id_mut(&mut x.memory)?;
            visitor.visit_data_id_mut(&mut x.data_id)
        }
        Instr::MemoryCopy(x) => {
            visitor.visit_memory_id_mut(&mut x.src)?;
            visitor.visit_memory_id_mut(&mut x.dst)
        }
        Instr::DataDrop(x) => visitor.visit_data_id_mut(&mut x.data_id),
        Instr::Load(x) => visitor.visit_memory_id_mut(&mut x.memory),
        Instr::Store(x) => visitor.visit_memory_id_mut(&mut x.memory),
        Instr::LoadSimd(x) => visitor.visit_memory_id_mut(&mut x.memory),
        Instr::AtomicRmw(x) => visitor.visit_memory_id_mut(&mut x.memory),
        Instr::Cmpxchg(x) => visitor.visit_memory_id_mut(&mut x.memory),
        Instr::AtomicNotify(x) => visitor.visit_memory_id_mut(&mut x.memory),
        Instr::AtomicWait(x) => visitor.visit_memory_id_mut(&mut x.memory),
        Instr::TableGet(x) => visitor.visit_table_id_mut(&mut x.table),
        Instr::TableSet(x) => visitor.visit_table_id_mut(&mut x.table),
        Instr::TableGrow(x) => visitor.visit_table_id_mut(&mut x.table),
        Instr::TableSize(x) => visitor.visit_table_id_mut(&mut x.table),
        Instr::TableFill(x) => visitor.visit_table_id_mut(&mut x.table),
        Instr::TableInit(x) => {
            visitor.visit_table_id_mut(&mut x.table)?;
            visitor.visit_element_id_mut(&mut x.elem)
        }
        Instr::TableCopy(x) => {
            visitor.visit_table_id_mut(&mut x.src)?;
            visitor.visit_table_id_mut(&mut x.dst)
        }
        Instr::ElemDrop(x) => visitor.visit_element_id_mut(&mut x.elem),
        Instr::RefFunc(x) => visitor.visit_function_id_mut(&mut x.func),
        Instr::RefTest(x) => visitor.visit_heap_type_mut(&mut x.heap_type),
        Instr::RefCast(x) => visitor.visit_heap_type_mut(&mut x.heap_type),
        Instr::StructNew(x) => visitor.visit_type_id_mut(&mut x.ty),
        Instr::StructNewDefault(x) => visitor.visit_type_id_mut(&mut x.ty),
        Instr::StructGet(x) => visitor.visit_type_id_mut(&mut x.ty),
        Instr::StructGetS(x) => visitor.visit_type_id_mut(&mut x.ty),
        Instr::StructGetU(x) => visitor.visit_type_id_mut(&mut x.ty),
        Instr::StructSet(x) => visitor.visit_type_id_mut(&mut x.ty),
        Instr::ArrayNew(x) => visitor.visit_type_id_mut(&mut x.ty),
        Instr::ArrayNewDefault(x) => visitor.visit_type_id_mut(&mut x.ty),
        Instr::ArrayNewFixed(x) => visitor.visit_type_id_mut(&mut x.ty),
        Instr::ArrayNewData(x) => {
            visitor.visit_type_id_mut(&mut x.ty)?;
            visitor.visit_data_id_mut(&mut x.data_id)
        }
        Instr::ArrayNewElem(x) => {
            visitor.visit_type_id_mut(&mut x.ty)?;
            visitor.visit_element_id_mut(&mut x.elem)
        }
        Instr::ArrayGet(x) => visitor.visit_type_id_mut(&mut x.ty),
        Instr::ArrayGetS(x) => visitor.visit_type_id_mut(&mut x.ty),
        Instr::ArrayGetU(x) => visitor.visit_type_id_mut(&mut x.ty),
        Instr::ArraySet(x) => visitor.visit_type_id_mut(&mut x.ty),
        Instr::ArrayFill(x) => visitor.visit_type_id_mut(&mut x.ty),
        Instr::ArrayCopy(x) => {
            visitor.visit_type_id_mut(&mut x.dst_ty)?;
            visitor.visit_type_id_mut(&mut x.src_ty)
        }
        Instr::ArrayInitData(x) => {
            visitor.visit_type_id_mut(&mut x.ty)?;
            visitor.visit_data_id_mut(&mut x.data_id)
        }
        Instr::ArrayInitElem(x) => {
            visitor.visit_type_id_mut(&mut x.ty)?;
            visitor.visit_element_id_mut(&mut x.elem)
        }
        Instr::TryTable(x) => {
            visitor.visit_instr_seq_id_mut(&mut x.seq)?;
            visit_catches(visitor, &mut x.catches)
        }
        Instr::Try(x) => {
            visitor.visit_instr_seq_id_mut(&mut x.seq)?;
            visit_legacy_catches(visitor, &mut x.catches)
        }
        Instr::Throw(x) => visitor.visit_tag_id_mut(&mut x.tag),
        Instr::Unreachable(_)
        | Instr::Return(_)
        | Instr::Br(_)
        | Instr::BrIf(_)
        | Instr::BrTable(_)
        | Instr::Unop(_)
        | Instr::Binop(_)
        | Instr::TernOp(_)
        | Instr::Select(_)
        | Instr::Drop(_)
        | Instr::I64Add128(_)
        | Instr::I64Sub128(_)
        | Instr::I64MulWideS(_)
        | Instr::I64MulWideU(_)
        | Instr::AtomicFence(_)
        | Instr::RefNull(_)
        | Instr::RefIsNull(_)
        | Instr::RefAsNonNull(_)
        | Instr::RefEq(_)
        | Instr::RefI31(_)
        | Instr::I31GetS(_)
        | Instr::I31GetU(_)
        | Instr::AnyConvertExtern(_)
        | Instr::ExternConvertAny(_)
        | Instr::ArrayLen(_)
        | Instr::I8x16Shuffle(_)
        | Instr::I8x16Swizzle(_)
        | Instr::V128Bitselect(_)
        | Instr::ThrowRef(_)
        | Instr::Rethrow(_) => Ok(()),
    }
}

// The hook of a sequence's type, if it names one.
pub(crate) fn visit_type<V: VisitorMut>(
    visitor: &mut V,
    ty: &mut InstrSeqType,
) -> Result<(), V::Error>
    ensures ok { OnOk result (Visits (keeping V.step) visitor.old (type_fields ty.old)
        Full visitor.new ty.new) }
    ensures err { OnErr result (Visits (keeping V.step) visitor.old (type_fields ty.old)
        Partial visitor.new ty.new) }
{
    match ty {
        InstrSeqType::MultiValue(id) => visitor.visit_type_id_mut(id),
        InstrSeqType::Simple(Some(ValType::Ref(r))) => visitor.visit_heap_type_mut(
            &mut r.heap_type,
        ),
        InstrSeqType::Simple(_) => Ok(()),
    }
}

fn visit_catches<V: VisitorMut>(
    visitor: &mut V,
    clauses: &mut Listed<TryTableCatch>,
) -> Result<(), V::Error>
    ensures ok { OnOk result (Visits (keeping V.step) visitor.old (each clause_fields clauses.old)
        Full visitor.new clauses.new) }
    ensures err { OnErr result (Visits (keeping V.step) visitor.old (each clause_fields clauses.old)
        Partial visitor.new clauses.new) }
{
    for i in 0..clauses.len() {
        visit_catch(visitor, &mut clauses[i])?;
    }
    Ok(())
}

fn visit_catch<V: VisitorMut>(visitor: &mut V, clause: &mut TryTableCatch) -> Result<(), V::Error>
    ensures ok { OnOk result (Visits (keeping V.step) visitor.old (clause_fields clause.old)
        Full visitor.new clause.new) }
    ensures err { OnErr result (Visits (keeping V.step) visitor.old (clause_fields clause.old)
        Partial visitor.new clause.new) }
{
    match clause {
        TryTableCatch::Catch { tag, .. } => visitor.visit_tag_id_mut(tag),
        TryTableCatch::CatchRef { tag, .. } => visitor.visit_tag_id_mut(tag),
        TryTableCatch::CatchAll { .. } => Ok(()),
        TryTableCatch::CatchAllRef { .. } => Ok(()),
    }
}

fn visit_legacy_catches<V: VisitorMut>(
    visitor: &mut V,
    clauses: &mut Listed<LegacyCatch>,
) -> Result<(), V::Error>
    ensures ok { OnOk result (Visits (keeping V.step) visitor.old (each legacy_fields clauses.old)
        Full visitor.new clauses.new) }
    ensures err { OnErr result (Visits (keeping V.step) visitor.old (each legacy_fields clauses.old)
        Partial visitor.new clauses.new) }
{
    for i in 0..clauses.len() {
        visit_legacy_catch(visitor, &mut clauses[i])?;
    }
    Ok(())
}

fn visit_legacy_catch<V: VisitorMut>(
    visitor: &mut V,
    clause: &mut LegacyCatch,
) -> Result<(), V::Error>
    ensures ok { OnOk result (Visits (keeping V.step) visitor.old (legacy_fields clause.old)
        Full visitor.new clause.new) }
    ensures err { OnErr result (Visits (keeping V.step) visitor.old (legacy_fields clause.old)
        Partial visitor.new clause.new) }
{
    match clause {
        LegacyCatch::Catch { tag, .. } => visitor.visit_tag_id_mut(tag),
        LegacyCatch::CatchAll { .. } => Ok(()),
        LegacyCatch::Delegate { .. } => Ok(()),
    }
}

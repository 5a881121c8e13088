//! Calling the hooks of a visitor for an instruction and for the type of a sequence.
ghost use Rattle.std.specs.Prelude.{◌≡◌, OnOk, OnErr};
ghost use Rattle.std.specs.List.{flat_map, FoldsTo};
ghost use Rattle.walrus_ir.specs.Calls.{reported};
ghost use Rattle.walrus_ir.specs.Fields.{fields, type_fields, clause_fields, legacy_fields};
ghost use Rattle.walrus_traversals.specs.Events.{own_events, AfterFirst};

use crate::Visitor;
use walrus_ir::{Instr, InstrLocId, InstrSeqType, LegacyCatch, TryTableCatch};
use walrus_types::ValType;

/// Reports an instruction: itself, then its fields.
pub(crate) fn report<V: Visitor>(
    visitor: &mut V,
    entry: &(Instr, InstrLocId),
) -> Result<(), V::Error>
    ensures ok { OnOk result (FoldsTo V.step visitor.old (own_events entry.now) visitor.new) }
    ensures err { OnErr result (AfterFirst V.step visitor.old (own_events entry.now) visitor.new) }
{
    let (instr, location) = entry;
    visitor.visit_instr(instr, location)?;
    report_fields(visitor, instr)
}

/// Calls the hooks of the visitor for the fields of an instruction, in declared order, and then for
/// the tags of its clauses: what [`dfs_in_order`](crate::dfs_in_order) calls between the hook of the
/// instruction and the sequences in it. Fields that walks do not report, such as the type of a
/// `RefNull` or a `Select`, are left out.
///
/// # Errors
///
/// The error of the first hook that refuses comes, and no further hook is called.
pub fn report_fields<V: Visitor>(visitor: &mut V, instr: &Instr) -> Result<(), V::Error>
    ensures ok { OnOk result
        (FoldsTo V.step visitor.old (reported (fields instr.now)) visitor.new) }
    ensures err { OnErr result
        (AfterFirst V.step visitor.old (reported (fields instr.now)) visitor.new) }
{
    match instr {
        Instr::Block(x) => visitor.visit_instr_seq_id(&x.seq),
        Instr::Loop(x) => visitor.visit_instr_seq_id(&x.seq),
        Instr::IfElse(x) => {
            visitor.visit_instr_seq_id(&x.consequent)?;
            visitor.visit_instr_seq_id(&x.alternative)
        }
        Instr::BrOnNull(x) => visitor.visit_instr_seq_id(&x.block),
        Instr::BrOnNonNull(x) => visitor.visit_instr_seq_id(&x.block),
        Instr::BrOnCast(x) => {
            visitor.visit_instr_seq_id(&x.block)?;
            visitor.visit_heap_type(&x.from_heap_type)?;
            visitor.visit_heap_type(&x.to_heap_type)
        }
        Instr::BrOnCastFail(x) => {
            visitor.visit_instr_seq_id(&x.block)?;
            visitor.visit_heap_type(&x.from_heap_type)?;
            visitor.visit_heap_type(&x.to_heap_type)
        }
        Instr::Call(x) => visitor.visit_function_id(&x.func),
        Instr::CallIndirect(x) => {
            visitor.visit_type_id(&x.ty)?;
            visitor.visit_table_id(&x.table)
        }
        Instr::CallRef(x) => visitor.visit_type_id(&x.ty),
        Instr::ReturnCall(x) => visitor.visit_function_id(&x.func),
        Instr::ReturnCallIndirect(x) => {
            visitor.visit_type_id(&x.ty)?;
            visitor.visit_table_id(&x.table)
        }
        Instr::ReturnCallRef(x) => visitor.visit_type_id(&x.ty),
        Instr::LocalGet(x) => visitor.visit_local_id(&x.local),
        Instr::LocalSet(x) => visitor.visit_local_id(&x.local),
        Instr::LocalTee(x) => visitor.visit_local_id(&x.local),
        Instr::GlobalGet(x) => visitor.visit_global_id(&x.global),
        Instr::GlobalSet(x) => visitor.visit_global_id(&x.global),
        Instr::Const(x) => visitor.visit_value(&x.value),
        Instr::MemorySize(x) => visitor.visit_memory_id(&x.memory),
        Instr::MemoryGrow(x) => visitor.visit_memory_id(&x.memory),
        Instr::MemoryFill(x) => visitor.visit_memory_id(&x.memory),
        Instr::MemoryInit(x) => {
            visitor.visit_memory_id(&x.memory)?;
            visitor.visit_data_id(&x.data_id)
        }
        Instr::MemoryCopy(x) => {
            visitor.visit_memory_id(&x.src)?;
            visitor.visit_memory_id(&x.dst)
        }
        Instr::DataDrop(x) => visitor.visit_data_id(&x.data_id),
        Instr::Load(x) => visitor.visit_memory_id(&x.memory),
        Instr::Store(x) => visitor.visit_memory_id(&x.memory),
        Instr::LoadSimd(x) => visitor.visit_memory_id(&x.memory),
        Instr::AtomicRmw(x) => visitor.visit_memory_id(&x.memory),
        Instr::Cmpxchg(x) => visitor.visit_memory_id(&x.memory),
        Instr::AtomicNotify(x) => visitor.visit_memory_id(&x.memory),
        Instr::AtomicWait(x) => visitor.visit_memory_id(&x.memory),
        Instr::TableGet(x) => visitor.visit_table_id(&x.table),
        Instr::TableSet(x) => visitor.visit_table_id(&x.table),
        Instr::TableGrow(x) => visitor.visit_table_id(&x.table),
        Instr::TableSize(x) => visitor.visit_table_id(&x.table),
        Instr::TableFill(x) => visitor.visit_table_id(&x.table),
        Instr::TableInit(x) => {
            visitor.visit_table_id(&x.table)?;
            visitor.visit_element_id(&x.elem)
        }
        Instr::TableCopy(x) => {
            visitor.visit_table_id(&x.src)?;
            visitor.visit_table_id(&x.dst)
        }
        Instr::ElemDrop(x) => visitor.visit_element_id(&x.elem),
        Instr::RefFunc(x) => visitor.visit_function_id(&x.func),
        Instr::RefTest(x) => visitor.visit_heap_type(&x.heap_type),
        Instr::RefCast(x) => visitor.visit_heap_type(&x.heap_type),
        Instr::StructNew(x) => visitor.visit_type_id(&x.ty),
        Instr::StructNewDefault(x) => visitor.visit_type_id(&x.ty),
        Instr::StructGet(x) => visitor.visit_type_id(&x.ty),
        Instr::StructGetS(x) => visitor.visit_type_id(&x.ty),
        Instr::StructGetU(x) => visitor.visit_type_id(&x.ty),
        Instr::StructSet(x) => visitor.visit_type_id(&x.ty),
        Instr::ArrayNew(x) => visitor.visit_type_id(&x.ty),
        Instr::ArrayNewDefault(x) => visitor.visit_type_id(&x.ty),
        Instr::ArrayNewFixed(x) => visitor.visit_type_id(&x.ty),
        Instr::ArrayNewData(x) => {
            visitor.visit_type_id(&x.ty)?;
            visitor.visit_data_id(&x.data_id)
        }
        Instr::ArrayNewElem(x) => {
            visitor.visit_type_id(&x.ty)?;
            visitor.visit_element_id(&x.elem)
        }
        Instr::ArrayGet(x) => visitor.visit_type_id(&x.ty),
        Instr::ArrayGetS(x) => visitor.visit_type_id(&x.ty),
        Instr::ArrayGetU(x) => visitor.visit_type_id(&x.ty),
        Instr::ArraySet(x) => visitor.visit_type_id(&x.ty),
        Instr::ArrayFill(x) => visitor.visit_type_id(&x.ty),
        Instr::ArrayCopy(x) => {
            visitor.visit_type_id(&x.dst_ty)?;
            visitor.visit_type_id(&x.src_ty)
        }
        Instr::ArrayInitData(x) => {
            visitor.visit_type_id(&x.ty)?;
            visitor.visit_data_id(&x.data_id)
        }
        Instr::ArrayInitElem(x) => {
            visitor.visit_type_id(&x.ty)?;
            visitor.visit_element_id(&x.elem)
        }
        Instr::TryTable(x) => {
            visitor.visit_instr_seq_id(&x.seq)?;
            report_clauses(visitor, x.catches.as_slice())
        }
        Instr::Try(x) => {
            visitor.visit_instr_seq_id(&x.seq)?;
            report_legacies(visitor, x.catches.as_slice())
        }
        Instr::Throw(x) => visitor.visit_tag_id(&x.tag),
        Instr::Unreachable(_)
        | Instr::Return(_)
        | Instr::Br(_)
        | Instr::BrIf(_)
        | Instr::BrTable(_)
        | Instr::Unop(_)
        | Instr::Binop(_)
        | Instr::TernOp(_)
        | Instr::Select(_)
        | Instr::Drop(_)
        | Instr::I64Add128(_)
        | Instr::I64Sub128(_)
        | Instr::I64MulWideS(_)
        | Instr::I64MulWideU(_)
        | Instr::AtomicFence(_)
        | Instr::RefNull(_)
        | Instr::RefIsNull(_)
        | Instr::RefAsNonNull(_)
        | Instr::RefEq(_)
        | Instr::RefI31(_)
        | Instr::I31GetS(_)
        | Instr::I31GetU(_)
        | Instr::AnyConvertExtern(_)
        | Instr::ExternConvertAny(_)
        | Instr::ArrayLen(_)
        | Instr::I8x16Shuffle(_)
        | Instr::I8x16Swizzle(_)
        | Instr::V128Bitselect(_)
        | Instr::ThrowRef(_)
        | Instr::Rethrow(_) => Ok(()),
    }
}

/// Reports what the type of a sequence names.
pub(crate) fn report_type<V: Visitor>(visitor: &mut V, ty: &InstrSeqType) -> Result<(), V::Error>
    ensures ok { OnOk result
        (FoldsTo V.step visitor.old (reported (type_fields ty.now)) visitor.new) }
    ensures err { OnErr result
        (AfterFirst V.step visitor.old (reported (type_fields ty.now)) visitor.new) }
{
    match ty {
        InstrSeqType::MultiValue(id) => visitor.visit_type_id(id),
        InstrSeqType::Simple(Some(ValType::Ref(of))) => visitor.visit_heap_type(&of.heap_type),
        InstrSeqType::Simple(_) => Ok(()),
    }
}

// Reports the tags of clauses in order.
fn report_clauses<V: Visitor>(visitor: &mut V, clauses: &[TryTableCatch]) -> Result<(), V::Error>
    ensures ok { OnOk result (FoldsTo V.step visitor.old
        (flat_map (λ c. reported (clause_fields c)) clauses.now) visitor.new) }
    ensures err { OnErr result (AfterFirst V.step visitor.old
        (flat_map (λ c. reported (clause_fields c)) clauses.now) visitor.new) }
{
    for clause in clauses {
        report_clause(visitor, clause)?;
    }
    Ok(())
}

// Reports the tag of a clause.
fn report_clause<V: Visitor>(visitor: &mut V, clause: &TryTableCatch) -> Result<(), V::Error>
    ensures ok { OnOk result
        (FoldsTo V.step visitor.old (reported (clause_fields clause.now)) visitor.new) }
    ensures err { OnErr result (visitor.new ≡ visitor.old) }
{
    match clause {
        TryTableCatch::Catch { tag, .. } => visitor.visit_tag_id(tag),
        TryTableCatch::CatchRef { tag, .. } => visitor.visit_tag_id(tag),
        TryTableCatch::CatchAll { .. } => Ok(()),
        TryTableCatch::CatchAllRef { .. } => Ok(()),
    }
}

// Reports the tags of clauses of the older form in order.
fn report_legacies<V: Visitor>(visitor: &mut V, clauses: &[LegacyCatch]) -> Result<(), V::Error>
    ensures ok { OnOk result (FoldsTo V.step visitor.old
        (flat_map (λ c. reported (legacy_fields c)) clauses.now) visitor.new) }
    ensures err { OnErr result (AfterFirst V.step visitor.old
        (flat_map (λ c. reported (legacy_fields c)) clauses.now) visitor.new) }
{
    for clause in clauses {
        report_legacy(visitor, clause)?;
    }
    Ok(())
}

// Reports the tag of a clause of the older form.
fn report_legacy<V: Visitor>(visitor: &mut V, clause: &LegacyCatch) -> Result<(), V::Error>
    ensures ok { OnOk result
        (FoldsTo V.step visitor.old (reported (legacy_fields clause.now)) visitor.new) }
    ensures err { OnErr result (visitor.new ≡ visitor.old) }
{
    match clause {
        LegacyCatch::Catch { tag, .. } => visitor.visit_tag_id(tag),
        LegacyCatch::CatchAll { .. } => Ok(()),
        LegacyCatch::Delegate { .. } => Ok(()),
    }
}

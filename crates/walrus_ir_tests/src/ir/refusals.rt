//! Constant expressions that are read and written, locals that are added, and clones of what bodies
//! are made of, where memory is refused.
use crate::assertions::assert_equal;
use crate::fixtures::{are, clone_again, list, name_again};
use std::alloc::{AllocError, Global};
use std::process::Abort;
use walrus_ir::{
    BrTable, ConstExpr, ConstOp, ConstOpAt, FromRecordError, Id, IdsToIndices, IndicesToIds, Instr,
    InstrLocId, InstrSeq, InstrSeqType, LegacyCatch, Listed, Local, LocalId, ModuleLocals,
    ModuleTypes, ToRecordError, Try, TryTable, TryTableCatch, Val, ValType, Value,
};

// The constant expression. It is read again after a refusal.
fn eval_again(alloc: Global, ops: &[ConstOpAt]) -> Result<ConstExpr, FromRecordError> {
    let ids = IndicesToIds::new(alloc);
    match ConstExpr::eval(alloc, ops, &ids) {
        Err(FromRecordError::Memory) => ConstExpr::eval(alloc, ops, &ids),
        answer => answer,
    }
}

// The operations of the constant expression. They are written again after a refusal.
fn to_ops_again(alloc: Global, expr: &ConstExpr) -> Result<Vec<ConstOpAt>, ToRecordError> {
    let indices = IdsToIndices::new(alloc);
    match expr.to_ops(alloc, &indices) {
        Err(ToRecordError::Memory) => expr.to_ops(alloc, &indices),
        answer => answer,
    }
}

// The operations become this constant expression and are written as the same operations.
fn come_back(rt: &impl Abort, alloc: Global, ops: &[ConstOpAt], wanted: &ConstExpr) {
    let expr = eval_again(alloc, ops).expect(rt, "memory");
    assert!(rt; expr == *wanted);
    let written = to_ops_again(alloc, &expr).expect(rt, "memory");
    assert!(rt; written.as_slice() == ops);
}

#[test]
fn a_refused_constant_expression_is_read_when_it_is_given_again(rt: HostRuntime) {
    let ops = list(rt.alloc(), &[ConstOp::I32Const(4), ConstOp::RefI31]).expect(&rt, "memory");
    let expr = ConstExpr::Extended(Listed::from_vec(ops));
    let ops = [ConstOpAt::I32Const(4), ConstOpAt::RefI31];
    come_back(&rt, rt.alloc(), &ops, &expr);
}

#[test]
fn a_refused_value_is_written_when_it_is_given_again(rt: HostRuntime) {
    let expr = ConstExpr::Value(Value::I64(7));
    come_back(&rt, rt.alloc(), &[ConstOpAt::I64Const(7)], &expr);
}

#[test]
fn a_refused_clone_of_an_expression_comes_when_it_is_asked_for_again(rt: HostRuntime) {
    let ops = [ConstOp::GlobalGet(Id::from_index(5)), ConstOp::I32Add];
    let ops = list(rt.alloc(), &ops).expect(&rt, "memory");
    let source = ConstExpr::Extended(Listed::from_vec(ops));
    assert!(rt; clone_again(&source).expect(&rt, "memory") == source);
}

#[test]
fn refused_names_of_an_expression_come_when_they_are_asked_for_again(rt: HostRuntime) {
    let ops = list(rt.alloc(), &[ConstOp::StructNew(Id::from_index(3))]).expect(&rt, "memory");
    let init = ConstExpr::Extended(Listed::from_vec(ops));
    let mut names = Vec::new(rt.alloc());
    if init.referenced_types(&mut names).is_err() {
        init.referenced_types(&mut names).expect(&rt, "memory");
    }
    assert!(rt; are(names.as_slice(), &[3]));
}

// The type of sequences that take this and leave nothing. It is asked for again after a refusal.
fn seq_type_again(types: &mut ModuleTypes, params: &[ValType]) -> Result<InstrSeqType, AllocError> {
    match InstrSeqType::new(types, params, &[]) {
        Ok(ty) => Ok(ty),
        Err(_) => InstrSeqType::new(types, params, &[]),
    }
}

#[test]
fn a_refused_sequence_type_is_added_when_it_is_asked_for_again(rt: HostRuntime) {
    let mut types = ModuleTypes::new(rt.alloc());
    let ty = seq_type_again(&mut types, &[Val::I32]).expect(&rt, "memory");
    assert_equal(&rt, ty, InstrSeqType::MultiValue(Id::from_index(0)));
}

// A local, three of type `i64`, and one of type `f32`. They are added again after a refusal.
fn add_again(locals: &mut ModuleLocals) -> Result<(LocalId, Vec<LocalId>), AllocError> {
    let first = match locals.add(Val::I32) {
        Ok(id) => id,
        Err(_) => locals.add(Val::I32)?,
    };
    let types = [Val::I64, Val::I64, Val::I64, Val::F32];
    match locals.add_all(&types) {
        Ok(ids) => Ok((first, ids)),
        Err(_) => Ok((first, locals.add_all(&types)?)),
    }
}

#[test]
fn refused_locals_are_added_when_they_are_asked_for_again(rt: HostRuntime) {
    let mut locals = ModuleLocals::new(rt.alloc());
    let (first, ids) = add_again(&mut locals).expect(&rt, "memory");
    assert_equal(&rt, first.index(), 0);
    assert!(rt; are(ids.as_slice(), &[1, 2, 3, 4]));
    let last = LocalId::from_index(4);
    assert!(rt; locals.contains(last) && locals.get(last).ty() == Val::F32);
    let copy = clone_again(&locals).expect(&rt, "memory");
    assert!(rt; locals.iter().eq(copy.iter()));
}

#[test]
fn a_refused_clone_of_a_local_comes_when_it_is_asked_for_again(rt: HostRuntime) {
    let mut source = Local::new(Id::from_index(4), Val::I64);
    source.name = Some(name_again(rt.alloc()).expect(&rt, "memory"));
    assert!(rt; clone_again(&source).expect(&rt, "memory") == source);
}

fn branches(alloc: Global) -> Result<Instr, AllocError> {
    Ok(Instr::BrTable(BrTable {
        blocks: Listed::from_vec(list(alloc, &[Id::from_index(4)])?),
        default: Id::from_index(6),
    }))
}

fn catches(alloc: Global) -> Result<Instr, AllocError> {
    let clause = TryTableCatch::CatchAll {
        label: Id::from_index(7),
    };
    Ok(Instr::TryTable(TryTable {
        seq: Id::from_index(4),
        catches: Listed::from_vec(list(alloc, &[clause])?),
    }))
}

fn older_catches(alloc: Global) -> Result<Instr, AllocError> {
    let clause = LegacyCatch::Delegate { relative_depth: 7 };
    Ok(Instr::Try(Try {
        seq: Id::from_index(4),
        catches: Listed::from_vec(list(alloc, &[clause])?),
    }))
}

// A sequence of the three instructions that hold lists.
fn sequence(alloc: Global) -> Result<InstrSeq, AllocError> {
    let mut seq = InstrSeq::new(alloc, Id::from_index(4), InstrSeqType::Simple(None));
    if seq.instrs.reserve(3).is_err() {
        seq.instrs.reserve(3)?;
    }
    let place = InstrLocId::new(8);
    seq.instrs.push((branches(alloc)?, place))?;
    seq.instrs.push((catches(alloc)?, place))?;
    seq.instrs.push((older_catches(alloc)?, place))?;
    Ok(seq)
}

#[test]
fn a_refused_clone_of_a_sequence_comes_when_it_is_asked_for_again(rt: HostRuntime) {
    let source = sequence(rt.alloc()).expect(&rt, "memory");
    assert!(rt; clone_again(&source).expect(&rt, "memory").instrs == source.instrs);
}

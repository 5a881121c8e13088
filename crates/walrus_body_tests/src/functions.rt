//! The functions of the worked walks, as the calls of a builder make them.
ghost use Rattle.walrus_body.specs.Building.{function_of, IsKnown, Stays, StayKnown};

use crate::bodies::{NOTHING, add, block, empty, id, number, with_locations};
use std::alloc::{AllocError, Global};
use std::process::Abort;
use walrus_body::{BuildError, FunctionBuilder, InstrSeqBuilder, LocalFunction};
use walrus_ir::{
    Instr, InstrSeqId, InstrSeqType, LegacyCatch, TagId, Try, TryTable, TryTableCatch,
};
use walrus_types::{Listed, ModuleTypes, TypeId};

/// The words of a walk in order over the test function.
pub(crate) const IN_ORDER: &str =
    "start 1 drop block start 2 drop if-else start 3 drop end start 4 drop end 5 drop end 6 drop try tag start 7 drop end start 8 drop end start 9 drop end 10 drop end";

// The builder of a function that takes and leaves nothing. It has the type 0, and its entry, the
// sequence 0, has the type 1 and these instructions.
fn begin(alloc: Global, entry: Vec<Instr>) -> Result<FunctionBuilder, AllocError> {
    let located = with_locations(alloc, entry)?;
    let mut types = ModuleTypes::new(alloc);
    let mut f = FunctionBuilder::new(alloc, &mut types, &[], &[])?;
    let mut body = f.func_body();
    *body.instrs_mut() = located;
    Ok(f)
}

// Adds the number, and takes it away.
fn add_number(seq: &mut InstrSeqBuilder<'_>, number: i32) -> Result<(), BuildError>
    requires { IsKnown seq.old }
    ensures same { Stays seq.old seq.new }
    ensures known { StayKnown (function_of seq.old) (function_of seq.new) }
{
    seq.i32_const(number)?;
    seq.drop()
}

// Adds a sequence of this number that no instruction names yet.
fn add_dangling(
    f: &mut FunctionBuilder,
    ty: TypeId,
    number: i32,
) -> Result<InstrSeqId, BuildError> {
    let mut seq = f.dangling_instr_seq(InstrSeqType::MultiValue(ty))?;
    add_number(&mut seq, number)?;
    Ok(seq.id())
}

// The builder of a function that takes and leaves nothing, and the type of its inner sequences,
// which is in the table first.
fn begin_typed(alloc: Global) -> Result<(FunctionBuilder, TypeId), AllocError> {
    let mut types = ModuleTypes::new(alloc);
    let inner = types.add(&[], &[])?;
    let f = FunctionBuilder::new(alloc, &mut types, &[], &[])?;
    Ok((f, inner))
}

// A block with an `if` in it, and a `try` with two handlers, among numbers. The three sequences of
// the `try` are made before all else.
pub(crate) fn test_function(rt: &impl Abort, alloc: Global) -> LocalFunction {
    let (mut f, ty) = begin_typed(alloc).expect(rt, "memory");
    let attempt = attempt(rt, alloc, &mut f, ty);
    assert!(rt; f.entry().is_some());
    fill_entry(rt, &mut f.func_body(), ty, attempt);
    f.local_func(Vec::new(alloc))
}

// A `try` of new sequences, with a handler of the tag 0 and one of all else.
fn attempt(rt: &impl Abort, alloc: Global, f: &mut FunctionBuilder, ty: TypeId) -> Try {
    let seq = add_dangling(f, ty, 7).expect(rt, "memory");
    let handler = add_dangling(f, ty, 8).expect(rt, "memory");
    let other = add_dangling(f, ty, 9).expect(rt, "memory");
    let tag = TagId::from_index(0);
    let caught = LegacyCatch::Catch { tag, handler };
    let all = LegacyCatch::CatchAll { handler: other };
    let catches = vec![in alloc; caught, all].expect(rt, "memory");
    Try {
        seq,
        catches: Listed::from_vec(catches),
    }
}

fn fill_entry(rt: &impl Abort, entry: &mut InstrSeqBuilder<'_>, ty: TypeId, attempt: Try)
    requires { IsKnown entry.old }
{
    add_number(entry, 1).expect(rt, "memory");
    entry
        .block(InstrSeqType::MultiValue(ty), |block| fill_block(block, ty))
        .expect(rt, "memory");
    add_number(entry, 6).expect(rt, "memory");
    entry.instr(Instr::Try(attempt)).expect(rt, "memory");
    add_number(entry, 10).expect(rt, "memory");
}

fn fill_block(block: &mut InstrSeqBuilder<'_>, ty: TypeId) -> Result<(), BuildError>
    requires { IsKnown block.old }
    ensures { Stays block.old block.new }
{
    add_number(block, 2)?;
    let ty = InstrSeqType::MultiValue(ty);
    block.if_else(ty, |arm| add_number(arm, 3), |arm| add_number(arm, 4))?;
    add_number(block, 5)
}

// Two blocks of the entry name the sequence 1, which holds the constant 5.
pub(crate) fn shared(rt: &impl Abort, alloc: Global) -> LocalFunction {
    let entry = vec![in alloc; block(1), block(1)].expect(rt, "memory");
    let mut f = begin(alloc, entry).expect(rt, "memory");
    let inside = vec![in alloc; number(5)].expect(rt, "memory");
    add(alloc, &mut f, NOTHING, inside).expect(rt, "memory");
    f.local_func(Vec::new(alloc))
}

// An entry without instructions.
pub(crate) fn empty_entry(rt: &impl Abort, alloc: Global) -> LocalFunction {
    let mut f = empty(alloc);
    let entry = f.dangling_instr_seq(NOTHING).expect(rt, "memory").id();
    assert!(rt; f.contains_seq(entry));
    f.set_entry(entry);
    f.local_func(Vec::new(alloc))
}

/// A `try_table` among numbers, with a label for the tag 0 and one for all else. Its sequence and
/// both labels are made before all else.
pub(crate) fn try_table_function(rt: &impl Abort, alloc: Global) -> LocalFunction {
    let (mut f, ty) = begin_typed(alloc).expect(rt, "memory");
    let table = try_table(rt, alloc, &mut f, ty);
    assert!(rt; f.entry().is_some());
    let mut entry = f.func_body();
    add_number(&mut entry, 1).expect(rt, "memory");
    entry.instr(Instr::TryTable(table)).expect(rt, "memory");
    add_number(&mut entry, 99).expect(rt, "memory");
    f.local_func(Vec::new(alloc))
}

fn add_empty(rt: &impl Abort, f: &mut FunctionBuilder, ty: TypeId) -> InstrSeqId {
    let seq = f.dangling_instr_seq(InstrSeqType::MultiValue(ty));
    seq.expect(rt, "memory").id()
}

fn try_table(rt: &impl Abort, alloc: Global, f: &mut FunctionBuilder, ty: TypeId) -> TryTable {
    let seq = add_dangling(f, ty, 5).expect(rt, "memory");
    let label = add_empty(rt, f, ty);
    let other = add_empty(rt, f, ty);
    let tag = TagId::from_index(0);
    let caught = TryTableCatch::Catch { tag, label };
    let all = TryTableCatch::CatchAll { label: other };
    let catches = vec![in alloc; caught, all].expect(rt, "memory");
    TryTable {
        seq,
        catches: Listed::from_vec(catches),
    }
}

//! The walk that changes what it visits.
ghost use Rattle.std.specs.Prelude.{◌≡◌, ◌++◌, OnOk, OnErr, reverse};
ghost use Rattle.std.specs.List.{flat_map};
ghost use Rattle.walrus_ir.specs.Calls.{Full, Partial, Visits, each};
ghost use Rattle.walrus_ir.specs.Fields.{instr_calls, sequence_calls};
ghost use Rattle.walrus_functions.specs.Body.{Knows};
ghost use Rattle.walrus_functions.specs.Nesting.{IsNested, children};
ghost use Rattle.walrus_traversals_mut.specs.Steps.{keeping};
ghost use Rattle.walrus_traversals_mut.specs.Walks.{VisitsBlock, Walks, last_first, last_first_of};

use crate::VisitorMut;
use crate::fields_mut::{visit_fields, visit_type};
use std::alloc::Global;
use walrus_functions::LocalFunction;
use walrus_ir::{Instr, InstrLocId, InstrSeq, InstrSeqId};
use walrus_nesting::{WalkError, push_children};

/// Walks over the sequence `start` and all sequences below it, and changes them as the visitor
/// does.
///
/// A whole sequence is visited first: its start, its type, each instruction with its fields and
/// the tags of its clauses, its end. Then come its children as they then stand: those of the last
/// instruction first, within one instruction in written order. Each hook is given what stands
/// after the hooks before it. A sequence that is named twice is visited twice, the second time as
/// the first left it.
///
/// The body has to be nested from `start`: unfolding it ends, and each sequence is known. The walk
/// leaves it nested from there, whether it ends with `Ok` or with an error, so another walk from
/// `start` needs no new check.
///
/// The walk ends with [`WalkError::Hook`] where a hook refuses, and with [`WalkError::Memory`]
/// where memory for its stack is refused. Visitor and body are then as after a first part of the
/// hook calls. The parameters of the function never change, nor does anything of its body but the
/// sequences.
pub fn dfs_pre_order_mut<V: VisitorMut>(
    alloc: Global,
    visitor: &mut V,
    func: &mut LocalFunction,
    start: InstrSeqId,
) -> Result<(), WalkError<V::Error>>
    requires { IsNested func.old.body start }
    ensures ok { OnOk result (Walks V.step (visitor.old, func.old.body) start Full
        (visitor.new, func.new.body)) }
    ensures err { OnErr result (Walks V.step (visitor.old, func.old.body) start Partial
        (visitor.new, func.new.body)) }
    ensures nested { IsNested func.new.body start }
    ensures args { func.new.args ≡ func.old.args }
{
    let mut stack = Vec::new(alloc);
    if let Err(_) = stack.push(start) {
        return Err(WalkError::Memory);
    }
    while let Some(seq) = stack.pop() {
        visit_block(visitor, func, seq, &mut stack)?;
    }
    Ok(())
}

// The hooks of a sequence of the function. Its children are pushed, so that they come off in the
// order of the walk.
fn visit_block<V: VisitorMut>(
    visitor: &mut V,
    func: &mut LocalFunction,
    id: InstrSeqId,
    stack: &mut Vec<InstrSeqId>,
) -> Result<(), WalkError<V::Error>>
    requires { Knows func.old.body id }
    ensures ok { OnOk result (VisitsBlock (keeping V.step) (visitor.old, func.old.body) id Full
        (visitor.new, func.new.body)) }
    ensures err { OnErr result (VisitsBlock (keeping V.step) (visitor.old, func.old.body) id Partial
        (visitor.new, func.new.body)) }
    ensures pushed { OnOk result (reverse stack.new.items ≡ last_first_of func.new.body id
        ++ reverse stack.old.items) }
    ensures args { func.new.args ≡ func.old.args }
{
    visit_seq(visitor, func.block_mut(id), stack)
}

// The hooks of a sequence. Its children are pushed.
fn visit_seq<V: VisitorMut>(
    visitor: &mut V,
    seq: &mut InstrSeq,
    stack: &mut Vec<InstrSeqId>,
) -> Result<(), WalkError<V::Error>>
    ensures ok { OnOk result (Visits (keeping V.step) visitor.old (sequence_calls seq.old)
        Full visitor.new seq.new) }
    ensures err { OnErr result (Visits (keeping V.step) visitor.old (sequence_calls seq.old)
        Partial visitor.new seq.new) }
    ensures pushed { OnOk result (reverse stack.new.items ≡ last_first seq.new
        ++ reverse stack.old.items) }
{
    if let Err(error) = visitor.start_instr_seq_mut(seq) {
        return Err(WalkError::Hook(error));
    }
    if let Err(error) = visit_type(visitor, &mut seq.ty) {
        return Err(WalkError::Hook(error));
    }
    visit_instrs(visitor, &mut seq.instrs, stack)?;
    if let Err(error) = visitor.end_instr_seq_mut(seq) {
        return Err(WalkError::Hook(error));
    }
    Ok(())
}

// The hooks of instructions in turn. The children of each are pushed.
fn visit_instrs<V: VisitorMut>(
    visitor: &mut V,
    instrs: &mut Vec<(Instr, InstrLocId)>,
    stack: &mut Vec<InstrSeqId>,
) -> Result<(), WalkError<V::Error>>
    ensures ok { OnOk result (Visits (keeping V.step)
        visitor.old (each instr_calls instrs.old.items) Full visitor.new instrs.new.items) }
    ensures err { OnErr result (Visits (keeping V.step)
        visitor.old (each instr_calls instrs.old.items) Partial visitor.new instrs.new.items) }
    ensures pushed { OnOk result (reverse stack.new.items
        ≡ flat_map (λ item. children item.0) (reverse instrs.new.items)
        ++ reverse stack.old.items) }
{
    for i in 0..instrs.len() {
        let (instr, loc) = &mut instrs[i];
        if let Err(error) = visit_instr(visitor, instr, loc) {
            return Err(WalkError::Hook(error));
        }
        if let Err(_) = push_children(stack, instr) {
            return Err(WalkError::Memory);
        }
    }
    Ok(())
}

// The hooks of an instruction: its own, then those of its fields and tags.
fn visit_instr<V: VisitorMut>(
    visitor: &mut V,
    instr: &mut Instr,
    loc: &mut InstrLocId,
) -> Result<(), V::Error>
    ensures ok { OnOk result (Visits (keeping V.step) visitor.old
        (instr_calls (instr.old, loc.old)) Full visitor.new (instr.new, loc.new)) }
    ensures err { OnErr result (Visits (keeping V.step) visitor.old
        (instr_calls (instr.old, loc.old)) Partial visitor.new (instr.new, loc.new)) }
{
    visitor.visit_instr_mut(instr, loc)?;
    visit_fields(visitor, instr)
}

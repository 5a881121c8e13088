//! The walk in order.
ghost use Rattle.std.specs.Prelude.{◌≡◌, ◌+◌, ◌<◌, ◌^◌, ◌++◌, [], ◌∷◌, map, reverse, OnOk, OnErr};
ghost use Rattle.std.specs.List.{FoldsTo};
ghost use Rattle.walrus_functions.specs.Body.{Knows, sequence};
ghost use Rattle.walrus_functions.specs.Nesting.{children, IsNested};
ghost use Rattle.walrus_ir.specs.Calls.{at, reported};
ghost use Rattle.walrus_ir.specs.Fields.{type_fields};
ghost use Rattle.walrus_ir.specs.Hooks.{start_instr_seq};
ghost use Rattle.walrus_traversals.specs.Events.{events, AfterFirst};
ghost use Rattle.walrus_traversals.specs.Steps.Walking.{Goes, Stops, seq_of, has_items};
ghost use Rattle.walrus_traversals.specs.declared.traversals.stack.Work.TheVariants.{Enter, Resume};

mod stack;

use crate::fields::{report, report_type};
use crate::{Visitor, WalkError};
use stack::{Work, push_enter};
use std::alloc::{AllocError, Global};
use walrus_functions::LocalFunction;
use walrus_ir::{Instr, InstrLocId, InstrSeq, InstrSeqId};
use walrus_nesting::push_children;

/// Calls the hooks of the visitor in order over what is reached from `start`.
///
/// For a sequence these are: its start; its type, by the type hook where it is one of the function
/// types and by the heap type hook where it is a reference; for each instruction the instruction,
/// its fields, the tags of its clauses, then all of each of its children; its end. A sequence that
/// several name is visited each time.
///
/// The body has to be nested from `start`, which [`check_nesting`] says; [`used_ids`] is a caller
/// that checks and then walks. How deep it is nested is bounded by memory alone: nothing is on the
/// call stack.
///
/// # Errors
///
/// `Hook` with the error of the first hook that refuses, which ends the walk; `Memory` where memory
/// is refused. The visitor is then as after some first hook calls of the whole walk.
///
/// # Checking, then walking
///
/// ```
/// fn walk_if_nested<V: Visitor>(
///     alloc: Global,
///     visitor: &mut V,
///     func: &LocalFunction,
///     start: InstrSeqId,
/// ) -> Result<(), WalkError<V::Error>> {
///     match check_nesting(alloc, func, start) {
///         Ok(Nesting::Nested(_)) => dfs_in_order(alloc, visitor, func, start),
///         Ok(_) => Ok(()),
///         Err(_) => Err(WalkError::Memory),
///     }
/// }
/// ```
///
/// [`check_nesting`]: crate::check_nesting
/// [`used_ids`]: crate::used_ids
pub fn dfs_in_order<V: Visitor>(
    alloc: Global,
    visitor: &mut V,
    func: &LocalFunction,
    start: InstrSeqId,
) -> Result<(), WalkError<V::Error>>
    requires nested { IsNested func.now.body start }
    ensures ok { OnOk result (FoldsTo V.step visitor.old (events func.now.body start) visitor.new) }
    ensures err { OnErr result
        (AfterFirst V.step visitor.old (events func.now.body start) visitor.new) }
{
    let mut stack = Vec::new(alloc);
    if let Err(_) = push_enter(&mut stack, start) {
        return Err(WalkError::Memory);
    }
    while let Some(work) = stack.pop() {
        do_work(visitor, func, work, &mut stack)?;
    }
    Ok(())
}

// Does a piece of work, and what comes with it before the stack is looked at again.
fn do_work<V: Visitor>(
    visitor: &mut V,
    func: &LocalFunction,
    work: Work,
    stack: &mut Vec<Work>,
) -> Result<(), WalkError<V::Error>>
    requires { Knows func.now.body (seq_of work) }
    ensures ok { OnOk result (Goes V.step func.now.body visitor.old (stack.old.items ++ work ∷ [])
        visitor.new stack.new.items) }
    ensures err { OnErr result
        (Stops V.step func.now.body visitor.old (stack.old.items ++ work ∷ []) visitor.new) }
{
    match work {
        Work::Enter(id) => enter(visitor, func, id, stack),
        Work::Resume(id, place) => resume(visitor, func, id, place, stack),
    }
}

// Reports a sequence from its start on.
fn enter<V: Visitor>(
    visitor: &mut V,
    func: &LocalFunction,
    id: InstrSeqId,
    stack: &mut Vec<Work>,
) -> Result<(), WalkError<V::Error>>
    requires { Knows func.now.body id }
    ensures ok { OnOk result (Goes V.step func.now.body visitor.old
        (stack.old.items ++ Enter id ∷ []) visitor.new stack.new.items) }
    ensures err { OnErr result
        (Stops V.step func.now.body visitor.old (stack.old.items ++ Enter id ∷ []) visitor.new) }
{
    if let Err(e) = report_start(visitor, known_block(func, id)) {
        return Err(WalkError::Hook(e));
    }
    resume(visitor, func, id, 0, stack)
}

// Reports the start of a sequence and its type.
fn report_start<V: Visitor>(visitor: &mut V, seq: &InstrSeq) -> Result<(), V::Error>
    ensures ok { OnOk result (FoldsTo V.step visitor.old
        (at start_instr_seq seq.now ∷ reported (type_fields seq.now.ty)) visitor.new) }
    ensures err { OnErr result (AfterFirst V.step visitor.old
        (at start_instr_seq seq.now ∷ reported (type_fields seq.now.ty)) visitor.new) }
{
    visitor.start_instr_seq(seq)?;
    report_type(visitor, &seq.ty)
}

// Reports a sequence from a place on, up to an instruction in which sequences stand, and leaves
// these and what stands after it; or up to its end.
fn resume<V: Visitor>(
    visitor: &mut V,
    func: &LocalFunction,
    id: InstrSeqId,
    from: usize,
    stack: &mut Vec<Work>,
) -> Result<(), WalkError<V::Error>>
    requires { Knows func.now.body id }
    ensures ok { OnOk result (Goes V.step func.now.body visitor.old
        (stack.old.items ++ Resume id from ∷ []) visitor.new stack.new.items) }
    ensures err { OnErr result (Stops V.step func.now.body visitor.old
        (stack.old.items ++ Resume id from ∷ []) visitor.new) }
{
    let seq = known_block(func, id);
    for place in from..seq.instrs.len() {
        let entry = &seq.instrs[place];
        if let Err(e) = report(visitor, entry) {
            return Err(WalkError::Hook(e));
        }
        if has_children(&entry.0) {
            return match leave_at(stack, id, place, &entry.0) {
                Ok(()) => Ok(()),
                Err(_) => Err(WalkError::Memory),
            };
        }
    }
    match visitor.end_instr_seq(seq) {
        Ok(()) => Ok(()),
        Err(e) => Err(WalkError::Hook(e)),
    }
}

// Leaves what stands after a place of a sequence, and what is inside the instruction there.
fn leave_at(
    stack: &mut Vec<Work>,
    id: InstrSeqId,
    place: usize,
    instr: &Instr,
) -> Result<(), AllocError>
    requires { place + 1 < 2 ^ 64 }
    ensures { OnOk result (stack.new.items
        ≡ stack.old.items ++ Resume id (place + 1) ∷ reverse (map Enter (children instr.now))) }
{
    stack.push(Work::Resume(id, place + 1))?;
    push_children(stack, instr)
}

// Whether sequences stand in an instruction.
fn has_children(instr: &Instr) -> bool
    ensures { result ≡ has_items (children instr.now) }
{
    matches!(
        instr,
        Instr::Block(_) | Instr::Loop(_) | Instr::IfElse(_) | Instr::TryTable(_) | Instr::Try(_)
    )
}

fn known_block(func: &LocalFunction, id: InstrSeqId) -> &InstrSeq
    requires { Knows func.now.body id }
    ensures { result.now ≡ sequence func.now.body id }
{
    func.block(id)
}

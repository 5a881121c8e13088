//! A visitor of the changing walk that writes hook calls down, and makes changes of one kind.
ghost use Rattle.std.specs.Prelude.{◌≡◌};
ghost use Rattle.walrus_body.specs.Nesting.{children};
ghost use Rattle.walrus_body.specs.Premises.{KeepsChildren};

use super::adder::add_one;
use super::*;
use crate::calls::{HookCall, call_of, heap_call};
use crate::log::{Full, Log};
use std::marker::Model;
use walrus_body::traversals_mut_laws;
use walrus_ir::DropInstr;

/// What the visitor changes.
#[derive(Clone, Copy)]
pub(crate) enum Change {
    /// The start hook adds a `drop`.
    DropAtStart,
    /// The end hook does.
    DropAtEnd,
    /// The hook of instructions adds one to a constant of type i32.
    AddToConstants,
    /// Each type, memory and segment becomes the number of its report, counted from zero.
    NumberFields,
}

#[derive(Drop)]
pub(crate) struct Changer {
    pub(crate) log: Log,
    change: Change,
    /// How many fields were numbered.
    pub(crate) count: usize,
    /// Whether each of them had its number already.
    pub(crate) was_numbered: bool,
}

// Contracts do not see what it writes down.
impl Model for Changer {
    ghost Value = { Unit {0} };

    ghost view = { λ _. tt };
}

/// The visitor and the answer of a walk from the sequence 0. So many hook calls are not refused.
pub(crate) fn make_changes(
    rt: &impl Abort,
    alloc: Global,
    func: &mut LocalFunction,
    change: Change,
    limit: usize,
) -> (Changer, Result<(), WalkError<Full>>) {
    let mut visitor = Changer {
        log: Log::new(alloc, limit),
        change,
        count: 0,
        was_numbered: true,
    };
    assert_nested(rt, alloc, func);
    let answer = dfs_pre_order_mut(alloc, &mut visitor, func, Id::from_index(0));
    (visitor, answer)
}

// Adds a `drop` at the end of the sequence where there is memory.
fn add_drop(seq: &mut InstrSeq)
    ensures { KeepsChildren seq.old seq.new }
{
    let located = (Instr::Drop(DropInstr {}), InstrLocId::default());
    if let Err(_) = seq.instrs.push(located) {
        return;
    }
    traversals_mut_laws::instrs_without_children_may_be_added();
}

fn add_one_to(instr: &mut Instr)
    ensures { children instr.new ≡ children instr.old }
{
    if let Instr::Const(constant) = instr {
        add_one(&mut constant.value);
    }
}

impl Changer {
    // Writes a field of this number down, and returns the number that it gets.
    fn report(&mut self, call: HookCall, number: usize) -> Result<usize, Full> {
        self.log.add(call)?;
        if !matches!(self.change, Change::NumberFields) {
            return Ok(number);
        }
        let count = self.count;
        if number != count {
            self.was_numbered = false;
        }
        self.count = count.wrapping_add(1);
        Ok(count)
    }
}

impl VisitorMut for Changer {
    type Error = Full;

    ghost use Rattle.walrus_ir.specs.Hooks.{Hook, Given};

    ghost step = { λ _ _ _ _ _. Unit {0} };

    fn start_instr_seq_mut(&mut self, seq: &mut InstrSeq) -> Result<(), Full> {
        self.log.add(HookCall::Start(seq.id().index()))?;
        if matches!(self.change, Change::DropAtStart) {
            add_drop(seq);
        }
        Ok(())
    }

    fn end_instr_seq_mut(&mut self, seq: &mut InstrSeq) -> Result<(), Full> {
        self.log.add(HookCall::End(seq.id().index()))?;
        if matches!(self.change, Change::DropAtEnd) {
            add_drop(seq);
        }
        Ok(())
    }

    fn visit_instr_mut(&mut self, instr: &mut Instr, _at: &mut InstrLocId) -> Result<(), Full> {
        self.log.add(call_of(instr))?;
        if matches!(self.change, Change::AddToConstants) {
            add_one_to(instr);
        }
        Ok(())
    }

    fn visit_instr_seq_id_mut(&mut self, id: &mut InstrSeqId) -> Result<(), Full> {
        self.log.add(HookCall::Seq(id.index()))
    }

    fn visit_function_id_mut(&mut self, id: &mut FunctionId) -> Result<(), Full> {
        self.log.add(HookCall::Function(id.index()))
    }

    fn visit_type_id_mut(&mut self, id: &mut TypeId) -> Result<(), Full> {
        *id = Id::from_index(self.report(HookCall::Ty(id.index()), id.index())?);
        Ok(())
    }

    fn visit_table_id_mut(&mut self, id: &mut TableId) -> Result<(), Full> {
        self.log.add(HookCall::Table(id.index()))
    }

    fn visit_local_id_mut(&mut self, id: &mut LocalId) -> Result<(), Full> {
        self.log.add(HookCall::Local(id.index()))
    }

    fn visit_global_id_mut(&mut self, id: &mut GlobalId) -> Result<(), Full> {
        self.log.add(HookCall::Global(id.index()))
    }

    fn visit_memory_id_mut(&mut self, id: &mut MemoryId) -> Result<(), Full> {
        *id = Id::from_index(self.report(HookCall::Memory(id.index()), id.index())?);
        Ok(())
    }

    fn visit_data_id_mut(&mut self, id: &mut DataId) -> Result<(), Full> {
        *id = Id::from_index(self.report(HookCall::Data(id.index()), id.index())?);
        Ok(())
    }

    fn visit_element_id_mut(&mut self, id: &mut ElementId) -> Result<(), Full> {
        *id = Id::from_index(self.report(HookCall::Element(id.index()), id.index())?);
        Ok(())
    }

    fn visit_tag_id_mut(&mut self, id: &mut TagId) -> Result<(), Full> {
        self.log.add(HookCall::Tag(id.index()))
    }

    fn visit_heap_type_mut(&mut self, ty: &mut HeapType) -> Result<(), Full> {
        self.log.add(heap_call(ty))
    }

    fn visit_value_mut(&mut self, value: &mut Value) -> Result<(), Full> {
        self.log.add(HookCall::Value(*value))
    }
}

//! A visitor that writes hook calls down, and adds one to each constant of type i32.
ghost use Rattle.std.specs.Prelude.{◌≡◌};
ghost use Rattle.walrus_body_tests.specs.Adding.{plus_one, adding_at};

use super::*;
use crate::calls::{HookCall, call_of, heap_call};
use crate::log::{Full, Log};
use std::marker::Model;

#[derive(Drop)]
pub(super) struct Adder {
    pub(super) log: Log,
}

// Contracts do not see what it writes down.
impl Model for Adder {
    ghost Value = { Unit {0} };

    ghost view = { λ _. tt };
}

pub(super) fn add_one(value: &mut Value)
    ensures { value.new ≡ plus_one value.old }
{
    if let Value::I32(n) = value {
        *n = n.wrapping_add(1);
    }
}

impl VisitorMut for Adder {
    type Error = Full;

    ghost use Rattle.walrus_ir.specs.Hooks.{Hook, Given};

    ghost step = { λ hook _ x _ y. y ≡ adding_at hook x };

    fn start_instr_seq_mut(&mut self, seq: &mut InstrSeq) -> Result<(), Full> {
        self.log.add(HookCall::Start(seq.id().index()))
    }

    fn end_instr_seq_mut(&mut self, seq: &mut InstrSeq) -> Result<(), Full> {
        self.log.add(HookCall::End(seq.id().index()))
    }

    fn visit_instr_mut(
        &mut self,
        instr: &mut Instr,
        _location: &mut InstrLocId,
    ) -> Result<(), Full> {
        self.log.add(call_of(instr))
    }

    fn visit_value_mut(&mut self, value: &mut Value) -> Result<(), Full> {
        self.log.add(HookCall::Value(*value))?;
        add_one(value);
        Ok(())
    }

    fn visit_tag_id_mut(&mut self, id: &mut TagId) -> Result<(), Full> {
        self.log.add(HookCall::Tag(id.index()))
    }

    fn visit_instr_seq_id_mut(&mut self, id: &mut InstrSeqId) -> Result<(), Full> {
        self.log.add(HookCall::Seq(id.index()))
    }

    fn visit_function_id_mut(&mut self, id: &mut FunctionId) -> Result<(), Full> {
        self.log.add(HookCall::Function(id.index()))
    }

    fn visit_type_id_mut(&mut self, id: &mut TypeId) -> Result<(), Full> {
        self.log.add(HookCall::Ty(id.index()))
    }

    fn visit_table_id_mut(&mut self, id: &mut TableId) -> Result<(), Full> {
        self.log.add(HookCall::Table(id.index()))
    }

    fn visit_local_id_mut(&mut self, id: &mut LocalId) -> Result<(), Full> {
        self.log.add(HookCall::Local(id.index()))
    }

    fn visit_global_id_mut(&mut self, id: &mut GlobalId) -> Result<(), Full> {
        self.log.add(HookCall::Global(id.index()))
    }

    fn visit_memory_id_mut(&mut self, id: &mut MemoryId) -> Result<(), Full> {
        self.log.add(HookCall::Memory(id.index()))
    }

    fn visit_data_id_mut(&mut self, id: &mut DataId) -> Result<(), Full> {
        self.log.add(HookCall::Data(id.index()))
    }

    fn visit_element_id_mut(&mut self, id: &mut ElementId) -> Result<(), Full> {
        self.log.add(HookCall::Element(id.index()))
    }

    fn visit_heap_type_mut(&mut self, ty: &mut HeapType) -> Result<(), Full> {
        self.log.add(heap_call(ty))
    }
}

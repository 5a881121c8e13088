//! A visitor of the walk in order that writes hook calls down.
ghost use Rattle.std.specs.Prelude.{◌≡◌, OnErr};

use crate::assertions::assert_equal;
use crate::bodies::assert_nested;
use crate::calls::{HookCall, call_of, heap_call, words};
use std::alloc::Global;
use std::marker::Model;
use std::process::Abort;
use thiserror::Error;
use walrus_arena::Id;
use walrus_body::{LocalFunction, Visitor, WalkError, dfs_in_order};
use walrus_ir::{
    DataId, ElementId, FunctionId, GlobalId, Instr, InstrLocId, InstrSeq, InstrSeqId, LocalId,
    MemoryId, TableId, TagId, TypeId, Value,
};
use walrus_types::HeapType;

/// More than any walk of the tests makes.
pub(crate) const ALL: usize = 1_000_000;

/// The log has no room for the hook call of this number, counted from zero.
#[derive(Clone, Copy, PartialEq, Eq, Debug, Error)]
#[error("no room for call {0}")]
pub(crate) struct Full(pub(crate) usize);

/// The hook calls so far. A call past the limit is refused.
#[derive(Drop)]
pub(crate) struct Log {
    pub(crate) calls: Vec<HookCall>,
    limit: usize,
    // How many hook calls came, those that were refused among them.
    came: usize,
}

impl Model for Log {
    ghost use Rattle.std.specs.Prelude.{List};
    ghost use Rattle.walrus_body_tests.specs.declared.calls.HookCall.{HookCall};

    ghost Value = { List HookCall };

    ghost view = { λ l. l.calls.items };
}

impl Log {
    /// A log for so many calls.
    pub(crate) fn new(alloc: Global, limit: usize) -> Log {
        Log {
            calls: Vec::new(alloc),
            limit,
            came: 0,
        }
    }

    /// Writes a call down.
    pub(crate) fn add(&mut self, call: HookCall) -> Result<(), Full>
        ensures err { OnErr result (self.new ≡ self.old) }
    {
        let number = self.came;
        self.came = number.wrapping_add(1);
        if self.calls.len() >= self.limit {
            return Err(Full(number));
        }
        match self.calls.push(call) {
            Ok(()) => Ok(()),
            Err(_) => Err(Full(number)),
        }
    }
}

impl Visitor for Log {
    type Error = Full;

    ghost step = { λ _ _ _. Unit {0} };

    fn start_instr_seq(&mut self, seq: &InstrSeq) -> Result<(), Full> {
        self.add(HookCall::Start(seq.id().index()))
    }

    fn end_instr_seq(&mut self, seq: &InstrSeq) -> Result<(), Full> {
        self.add(HookCall::End(seq.id().index()))
    }

    fn visit_instr(&mut self, instr: &Instr, _location: &InstrLocId) -> Result<(), Full> {
        self.add(call_of(instr))
    }

    fn visit_instr_seq_id(&mut self, id: &InstrSeqId) -> Result<(), Full> {
        self.add(HookCall::Seq(id.index()))
    }

    fn visit_local_id(&mut self, id: &LocalId) -> Result<(), Full> {
        self.add(HookCall::Local(id.index()))
    }

    fn visit_memory_id(&mut self, id: &MemoryId) -> Result<(), Full> {
        self.add(HookCall::Memory(id.index()))
    }

    fn visit_table_id(&mut self, id: &TableId) -> Result<(), Full> {
        self.add(HookCall::Table(id.index()))
    }

    fn visit_global_id(&mut self, id: &GlobalId) -> Result<(), Full> {
        self.add(HookCall::Global(id.index()))
    }

    fn visit_function_id(&mut self, id: &FunctionId) -> Result<(), Full> {
        self.add(HookCall::Function(id.index()))
    }

    fn visit_data_id(&mut self, id: &DataId) -> Result<(), Full> {
        self.add(HookCall::Data(id.index()))
    }

    fn visit_element_id(&mut self, id: &ElementId) -> Result<(), Full> {
        self.add(HookCall::Element(id.index()))
    }

    fn visit_tag_id(&mut self, id: &TagId) -> Result<(), Full> {
        self.add(HookCall::Tag(id.index()))
    }

    fn visit_type_id(&mut self, id: &TypeId) -> Result<(), Full> {
        self.add(HookCall::Ty(id.index()))
    }

    fn visit_value(&mut self, value: &Value) -> Result<(), Full> {
        self.add(HookCall::Value(*value))
    }

    fn visit_heap_type(&mut self, heap_type: &HeapType) -> Result<(), Full> {
        self.add(heap_call(heap_type))
    }
}

/// What a walk from the sequence 0 wrote down before a call was refused, and what it answered.
pub(crate) fn walk(
    rt: &impl Abort,
    alloc: Global,
    func: &LocalFunction,
    limit: usize,
) -> (Log, Result<(), WalkError<Full>>) {
    let mut log = Log::new(alloc, limit);
    assert_nested(rt, alloc, func);
    let answer = dfs_in_order(alloc, &mut log, func, Id::from_index(0));
    (log, answer)
}

/// The log of a whole walk.
pub(crate) fn walk_whole(rt: &impl Abort, alloc: Global, func: &LocalFunction) -> Log {
    let (log, answer) = walk(rt, alloc, func, ALL);
    assert_equal(rt, answer, Ok(()));
    log
}

/// The calls have these words.
pub(crate) fn say(rt: &impl Abort, alloc: Global, calls: &[HookCall], text: &str) {
    let said = words(alloc, calls).expect(rt, "memory");
    assert_equal(rt, said.as_str(), text);
}

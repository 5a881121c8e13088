//! Visitors that look at instructions alone.
ghost use Rattle.std.specs.Prelude.{◌≡◌, OnOk, OnErr};
ghost use Rattle.walrus_traversals.specs.Instrs.{instr_in};
ghost use Rattle.walrus_traversals.specs.OneHook.{step_at};

use crate::Visitor;
use std::fmt::{Debug, Display};
use walrus_ir::{
    DataId, ElementId, FunctionId, GlobalId, Instr, InstrLocId, InstrSeq, InstrSeqId, LocalId,
    MemoryId, TableId, TagId, TypeId, Value,
};
use walrus_types::HeapType;

/// The one hook of a visitor that looks at instructions alone. [`OnlyInstrs`] makes a [`Visitor`]
/// of it. An `Err` leaves the visitor as it was, and ends the walk.
///
/// # Counting
///
/// ```
/// #[derive(Drop)]
/// struct Counter {
///     count: u64,
/// }
///
/// impl InstrVisitor for Counter {
///     type Error = Infallible;
///
///     ghost step = { λ _ _ _. Unit {0} };
///
///     fn visit_instr(&mut self, _: &Instr, _: &InstrLocId) -> Result<(), Infallible> {
///         self.count = self.count.wrapping_add(1);
///         Ok(())
///     }
/// }
/// ```
pub trait InstrVisitor {
    ghost use Rattle.std.specs.Prelude.{ℕ};
    ghost use Rattle.ir_instr.specs.declared.instr.Instr.{Instr as AnyInstr};

    /// Why the hook refuses.
    type Error: Debug + Display + Drop;

    /// What the hook does, for contracts: the visitor before, the instruction with its location,
    /// the visitor after.
    ghost step: { Self → AnyInstr × ℕ → Self → Type 0 };

    /// An instruction.
    fn visit_instr(&mut self, instr: &Instr, location: &InstrLocId) -> Result<(), Self::Error>
        ensures ok { OnOk result (step self.old (instr.now, location.now) self.new) }
        ensures err { OnErr result (self.new ≡ self.old) };
}

/// A [`Visitor`] that passes each instruction on, and does nothing at the other hooks.
///
/// ```
/// let mut only = OnlyInstrs { visitor: Counter { count: 0 } };
/// dfs_in_order(alloc, &mut only, func, start)?;
/// println!(rt; "{} instructions", only.visitor.count)?;
/// ```
#[derive(Drop)]
pub struct OnlyInstrs<V> {
    /// Where the instructions go.
    pub visitor: V,
}

impl<V: InstrVisitor> Visitor for OnlyInstrs<V> {
    type Error = V::Error;

    ghost step = { λ old e new. step_at instr_in V.step old.visitor e new.visitor };

    fn start_instr_seq(&mut self, _seq: &InstrSeq) -> Result<(), V::Error> {
        Ok(())
    }

    fn end_instr_seq(&mut self, _seq: &InstrSeq) -> Result<(), V::Error> {
        Ok(())
    }

    fn visit_instr(&mut self, instr: &Instr, location: &InstrLocId) -> Result<(), V::Error> {
        self.visitor.visit_instr(instr, location)
    }

    fn visit_instr_seq_id(&mut self, _id: &InstrSeqId) -> Result<(), V::Error> {
        Ok(())
    }

    fn visit_local_id(&mut self, _id: &LocalId) -> Result<(), V::Error> {
        Ok(())
    }

    fn visit_memory_id(&mut self, _id: &MemoryId) -> Result<(), V::Error> {
        Ok(())
    }

    fn visit_table_id(&mut self, _id: &TableId) -> Result<(), V::Error> {
        Ok(())
    }

    fn visit_global_id(&mut self, _id: &GlobalId) -> Result<(), V::Error> {
        Ok(())
    }

    fn visit_function_id(&mut self, _id: &FunctionId) -> Result<(), V::Error> {
        Ok(())
    }

    fn visit_data_id(&mut self, _id: &DataId) -> Result<(), V::Error> {
        Ok(())
    }

    fn visit_element_id(&mut self, _id: &ElementId) -> Result<(), V::Error> {
        Ok(())
    }

    fn visit_tag_id(&mut self, _id: &TagId) -> Result<(), V::Error> {
        Ok(())
    }

    fn visit_type_id(&mut self, _id: &TypeId) -> Result<(), V::Error> {
        Ok(())
    }

    fn visit_value(&mut self, _value: &Value) -> Result<(), V::Error> {
        Ok(())
    }

    fn visit_heap_type(&mut self, _heap_type: &HeapType) -> Result<(), V::Error> {
        Ok(())
    }
}

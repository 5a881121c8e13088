//! What walks call.
ghost use Rattle.std.specs.Prelude.{◌≡◌, OnOk, OnErr};
ghost use Rattle.walrus_ir.specs.Calls.{Event, at};
ghost use Rattle.walrus_ir.specs.Hooks.{start_instr_seq, end_instr_seq, visit_instr, visit_instr_seq_id, visit_local_id, visit_memory_id, visit_table_id, visit_global_id, visit_function_id, visit_data_id, visit_element_id, visit_tag_id, visit_type_id, visit_value, visit_heap_type};

use std::fmt::{Debug, Display};
use walrus_ir::{
    DataId, ElementId, FunctionId, GlobalId, Instr, InstrLocId, InstrSeq, InstrSeqId, LocalId,
    MemoryId, TableId, TagId, TypeId, Value,
};
use walrus_types::HeapType;

/// The hooks of a walk, which [`dfs_in_order`] calls in the order that its page gives. All are
/// required; one that has nothing to do returns `Ok(())`. An `Err` leaves the visitor as it was,
/// and ends the walk.
///
/// Resources are reported where an instruction or the type of a sequence names them. Some fields
/// are not: targets of `Br`, `BrIf` and `BrTable`, labels of a `TryTable`, the types of `Select`
/// and `RefNull`, and whatever names nothing, such as operators. [`UsedIds`] is a visitor.
///
/// [`dfs_in_order`]: crate::dfs_in_order
/// [`UsedIds`]: crate::UsedIds
pub trait Visitor {
    /// Why a hook refuses.
    type Error: Debug + Display + Drop;

    /// What a hook does, for contracts: the visitor before, the hook with what it is given, the
    /// visitor after.
    ghost step: { Self → Event → Self → Type 0 };

    /// A sequence begins.
    fn start_instr_seq(&mut self, seq: &InstrSeq) -> Result<(), Self::Error>
        ensures ok { OnOk result (step self.old (at start_instr_seq seq.now) self.new) }
        ensures err { OnErr result (self.new ≡ self.old) };

    /// A sequence ends.
    fn end_instr_seq(&mut self, seq: &InstrSeq) -> Result<(), Self::Error>
        ensures ok { OnOk result (step self.old (at end_instr_seq seq.now) self.new) }
        ensures err { OnErr result (self.new ≡ self.old) };

    /// An instruction, before its fields.
    fn visit_instr(&mut self, instr: &Instr, location: &InstrLocId) -> Result<(), Self::Error>
        ensures ok { OnOk result
            (step self.old (at visit_instr (instr.now, location.now)) self.new) }
        ensures err { OnErr result (self.new ≡ self.old) };

    /// A sequence that an instruction names.
    fn visit_instr_seq_id(&mut self, id: &InstrSeqId) -> Result<(), Self::Error>
        ensures ok { OnOk result (step self.old (at visit_instr_seq_id id.now) self.new) }
        ensures err { OnErr result (self.new ≡ self.old) };

    /// A local that an instruction names.
    fn visit_local_id(&mut self, id: &LocalId) -> Result<(), Self::Error>
        ensures ok { OnOk result (step self.old (at visit_local_id id.now) self.new) }
        ensures err { OnErr result (self.new ≡ self.old) };

    /// A memory that an instruction names.
    fn visit_memory_id(&mut self, id: &MemoryId) -> Result<(), Self::Error>
        ensures ok { OnOk result (step self.old (at visit_memory_id id.now) self.new) }
        ensures err { OnErr result (self.new ≡ self.old) };

    /// A table that an instruction names.
    fn visit_table_id(&mut self, id: &TableId) -> Result<(), Self::Error>
        ensures ok { OnOk result (step self.old (at visit_table_id id.now) self.new) }
        ensures err { OnErr result (self.new ≡ self.old) };

    /// A global that an instruction names.
    fn visit_global_id(&mut self, id: &GlobalId) -> Result<(), Self::Error>
        ensures ok { OnOk result (step self.old (at visit_global_id id.now) self.new) }
        ensures err { OnErr result (self.new ≡ self.old) };

    /// A function that an instruction names.
    fn visit_function_id(&mut self, id: &FunctionId) -> Result<(), Self::Error>
        ensures ok { OnOk result (step self.old (at visit_function_id id.now) self.new) }
        ensures err { OnErr result (self.new ≡ self.old) };

    /// A data segment that an instruction names.
    fn visit_data_id(&mut self, id: &DataId) -> Result<(), Self::Error>
        ensures ok { OnOk result (step self.old (at visit_data_id id.now) self.new) }
        ensures err { OnErr result (self.new ≡ self.old) };

    /// An element segment that an instruction names.
    fn visit_element_id(&mut self, id: &ElementId) -> Result<(), Self::Error>
        ensures ok { OnOk result (step self.old (at visit_element_id id.now) self.new) }
        ensures err { OnErr result (self.new ≡ self.old) };

    /// A tag that an instruction or a clause of it names.
    fn visit_tag_id(&mut self, id: &TagId) -> Result<(), Self::Error>
        ensures ok { OnOk result (step self.old (at visit_tag_id id.now) self.new) }
        ensures err { OnErr result (self.new ≡ self.old) };

    /// A type that an instruction names, or that a sequence has.
    fn visit_type_id(&mut self, id: &TypeId) -> Result<(), Self::Error>
        ensures ok { OnOk result (step self.old (at visit_type_id id.now) self.new) }
        ensures err { OnErr result (self.new ≡ self.old) };

    /// The value of a constant.
    fn visit_value(&mut self, value: &Value) -> Result<(), Self::Error>
        ensures ok { OnOk result (step self.old (at visit_value value.now) self.new) }
        ensures err { OnErr result (self.new ≡ self.old) };

    /// A heap type of an instruction or of the type of a sequence. Its id is not reported again.
    fn visit_heap_type(&mut self, heap_type: &HeapType) -> Result<(), Self::Error>
        ensures ok { OnOk result (step self.old (at visit_heap_type heap_type.now) self.new) }
        ensures err { OnErr result (self.new ≡ self.old) };
}

//! Visitors that change what they visit.
ghost use Rattle.std.specs.Prelude.{◌≡◌, OnOk, OnErr};
ghost use Rattle.walrus_functions.specs.Nesting.{children};
ghost use Rattle.walrus_ir.specs.Hooks.{start_instr_seq, end_instr_seq, visit_instr, visit_instr_seq_id, visit_heap_type, visit_function_id, visit_type_id, visit_table_id, visit_local_id, visit_global_id, visit_value, visit_memory_id, visit_data_id, visit_element_id, visit_tag_id};
ghost use Rattle.walrus_traversals_mut.specs.Premises.{KeepsChildren};

use std::fmt::{Debug, Display};
use walrus_ir::{
    DataId, ElementId, FunctionId, GlobalId, Instr, InstrLocId, InstrSeq, InstrSeqId, LocalId,
    MemoryId, TableId, TagId, TypeId, Value,
};
use walrus_types::HeapType;

/// The hooks of a walk that changes what it visits.
///
/// Each hook may change what it is given. An `Err` ends the walk, and leaves the visitor and what
/// the hook was given as they were.
///
/// A walk ends since hooks keep which sequences stand in which:
///
/// - [`start_instr_seq_mut`](VisitorMut::start_instr_seq_mut) and
///   [`end_instr_seq_mut`](VisitorMut::end_instr_seq_mut) keep the id of the sequence. They may add
///   and take away instructions in which no sequence stands; the others keep their children and
///   their order.
/// - [`visit_instr_mut`](VisitorMut::visit_instr_mut) may put another instruction in place of the
///   one that it is given, with the same children.
/// - [`visit_instr_seq_id_mut`](VisitorMut::visit_instr_seq_id_mut) keeps the id.
///
/// The children of an instruction are the sequences that stand in it: the body of a `block`, a
/// `loop`, a `try` or a `try_table`, both sequences of an `if`, the handlers of a `try`.
pub trait VisitorMut {
    ghost use Rattle.walrus_ir.specs.Hooks.{Hook, Given};

    /// Why a hook refuses.
    type Error: Debug + Display + Drop;

    /// What the visitor may do at a hook: the visitor and the value before it, and both after it.
    ghost step: { (hook : Hook) → Self → Given hook → Self → Given hook → Type 0 };

    /// A sequence, before anything in it. The walk goes on with the sequence as it then stands.
    fn start_instr_seq_mut(&mut self, seq: &mut InstrSeq) -> Result<(), Self::Error>
        ensures ok { OnOk result (step start_instr_seq self.old seq.old self.new seq.new) }
        ensures nesting { OnOk result (KeepsChildren seq.old seq.new) }
        ensures err { OnErr result ((self.new ≡ self.old) × (seq.new ≡ seq.old)) };

    /// A sequence, after all that is in it and before the sequences below it.
    fn end_instr_seq_mut(&mut self, seq: &mut InstrSeq) -> Result<(), Self::Error>
        ensures ok { OnOk result (step end_instr_seq self.old seq.old self.new seq.new) }
        ensures nesting { OnOk result (KeepsChildren seq.old seq.new) }
        ensures err { OnErr result ((self.new ≡ self.old) × (seq.new ≡ seq.old)) };

    /// An instruction and its location. The fields that are visited next are those of the
    /// instruction as it then stands.
    fn visit_instr_mut(
        &mut self,
        instr: &mut Instr,
        loc: &mut InstrLocId,
    ) -> Result<(), Self::Error>
        ensures ok { OnOk result (step visit_instr self.old (instr.old, loc.old)
            self.new (instr.new, loc.new)) }
        ensures nesting { OnOk result (children instr.new ≡ children instr.old) }
        ensures err { OnErr result ((self.new ≡ self.old) × (instr.new ≡ instr.old)
            × (loc.new ≡ loc.old)) };

    /// A sequence that an instruction names: one that stands in it, or the target of a branch on a
    /// reference.
    fn visit_instr_seq_id_mut(&mut self, id: &mut InstrSeqId) -> Result<(), Self::Error>
        ensures ok { OnOk result (step visit_instr_seq_id self.old id.old self.new id.new) }
        ensures nesting { OnOk result (id.new ≡ id.old) }
        ensures err { OnErr result ((self.new ≡ self.old) × (id.new ≡ id.old)) };

    /// A heap type of an instruction, or of the type of a sequence, as a whole: an id in it is not
    /// visited again.
    fn visit_heap_type_mut(&mut self, ty: &mut HeapType) -> Result<(), Self::Error>
        ensures ok { OnOk result (step visit_heap_type self.old ty.old self.new ty.new) }
        ensures err { OnErr result ((self.new ≡ self.old) × (ty.new ≡ ty.old)) };

    /// A function that an instruction names.
    fn visit_function_id_mut(&mut self, id: &mut FunctionId) -> Result<(), Self::Error>
        ensures ok { OnOk result (step visit_function_id self.old id.old self.new id.new) }
        ensures err { OnErr result ((self.new ≡ self.old) × (id.new ≡ id.old)) };

    /// A type that an instruction names, or that is the type of a sequence.
    fn visit_type_id_mut(&mut self, id: &mut TypeId) -> Result<(), Self::Error>
        ensures ok { OnOk result (step visit_type_id self.old id.old self.new id.new) }
        ensures err { OnErr result ((self.new ≡ self.old) × (id.new ≡ id.old)) };

    /// A table that an instruction names.
    fn visit_table_id_mut(&mut self, id: &mut TableId) -> Result<(), Self::Error>
        ensures ok { OnOk result (step visit_table_id self.old id.old self.new id.new) }
        ensures err { OnErr result ((self.new ≡ self.old) × (id.new ≡ id.old)) };

    /// A local that an instruction names.
    fn visit_local_id_mut(&mut self, id: &mut LocalId) -> Result<(), Self::Error>
        ensures ok { OnOk result (step visit_local_id self.old id.old self.new id.new) }
        ensures err { OnErr result ((self.new ≡ self.old) × (id.new ≡ id.old)) };

    /// A global that an instruction names.
    fn visit_global_id_mut(&mut self, id: &mut GlobalId) -> Result<(), Self::Error>
        ensures ok { OnOk result (step visit_global_id self.old id.old self.new id.new) }
        ensures err { OnErr result ((self.new ≡ self.old) × (id.new ≡ id.old)) };

    /// The value of a constant.
    fn visit_value_mut(&mut self, value: &mut Value) -> Result<(), Self::Error>
        ensures ok { OnOk result (step visit_value self.old value.old self.new value.new) }
        ensures err { OnErr result ((self.new ≡ self.old) × (value.new ≡ value.old)) };

    /// A memory that an instruction names.
    fn visit_memory_id_mut(&mut self, id: &mut MemoryId) -> Result<(), Self::Error>
        ensures ok { OnOk result (step visit_memory_id self.old id.old self.new id.new) }
        ensures err { OnErr result ((self.new ≡ self.old) × (id.new ≡ id.old)) };

    /// A data segment that an instruction names.
    fn visit_data_id_mut(&mut self, id: &mut DataId) -> Result<(), Self::Error>
        ensures ok { OnOk result (step visit_data_id self.old id.old self.new id.new) }
        ensures err { OnErr result ((self.new ≡ self.old) × (id.new ≡ id.old)) };

    /// An element segment that an instruction names.
    fn visit_element_id_mut(&mut self, id: &mut ElementId) -> Result<(), Self::Error>
        ensures ok { OnOk result (step visit_element_id self.old id.old self.new id.new) }
        ensures err { OnErr result ((self.new ≡ self.old) × (id.new ≡ id.old)) };

    /// A tag that an instruction, or a clause of it, names.
    fn visit_tag_id_mut(&mut self, id: &mut TagId) -> Result<(), Self::Error>
        ensures ok { OnOk result (step visit_tag_id self.old id.old self.new id.new) }
        ensures err { OnErr result ((self.new ≡ self.old) × (id.new ≡ id.old)) };
}

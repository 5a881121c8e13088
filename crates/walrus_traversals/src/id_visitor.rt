//! Visitors that look at ids alone.
ghost use Rattle.std.specs.Prelude.{◌≡◌, OnOk, OnErr};
ghost use Rattle.walrus_traversals.specs.OneHook.{step_at};
ghost use Rattle.walrus_traversals.specs.AnyIds.{id_in};

use crate::Visitor;
use std::fmt::{Debug, Display};
use walrus_ir::{
    DataId, ElementId, FunctionId, GlobalId, Instr, InstrLocId, InstrSeq, InstrSeqId, LocalId,
    MemoryId, TableId, TagId, TypeId, Value,
};
use walrus_types::HeapType;

/// An id that a walk reports, of any kind.
#[derive(Clone, Copy, PartialEq, Eq, Debug)]
pub enum AnyId {
    /// A sequence that an instruction names.
    InstrSeq(InstrSeqId),
    /// A local.
    Local(LocalId),
    /// A memory.
    Memory(MemoryId),
    /// A table.
    Table(TableId),
    /// A global.
    Global(GlobalId),
    /// A function.
    Function(FunctionId),
    /// A data segment.
    Data(DataId),
    /// An element segment.
    Element(ElementId),
    /// A tag.
    Tag(TagId),
    /// A type, by itself or in a heap type.
    Type(TypeId),
}

/// The one hook of a visitor that looks at ids alone. [`OnlyIds`] makes a [`Visitor`] of it. An
/// `Err` leaves the visitor as it was, and ends the walk.
///
/// # Which functions are called
///
/// ```
/// #[derive(Drop)]
/// struct Functions {
///     ids: Listed<FunctionId>,
/// }
///
/// impl IdVisitor for Functions {
///     type Error = AllocError;
///
///     ghost step = { λ _ _ _. Unit {0} };
///
///     fn visit_id(&mut self, id: AnyId) -> Result<(), AllocError> {
///         match id {
///             AnyId::Function(id) => self.ids.push(id),
///             _ => Ok(()),
///         }
///     }
/// }
/// ```
pub trait IdVisitor {
    ghost use Rattle.walrus_traversals.specs.declared.id_visitor.AnyId.{AnyId};

    /// Why the hook refuses.
    type Error: Debug + Display + Drop;

    /// What the hook does, for contracts: the visitor before, the id, the visitor after.
    ghost step: { Self → AnyId → Self → Type 0 };

    /// An id that an instruction, a clause of it or the type of a sequence names.
    fn visit_id(&mut self, id: AnyId) -> Result<(), Self::Error>
        ensures ok { OnOk result (step self.old id self.new) }
        ensures err { OnErr result (self.new ≡ self.old) };
}

/// A [`Visitor`] that passes each id on, and does nothing at the other hooks. The id in a heap type
/// is that of a type.
///
/// ```
/// let mut only = OnlyIds { visitor: Functions { ids: Listed::from_vec(Vec::new(alloc)) } };
/// dfs_in_order(alloc, &mut only, func, start)?;
/// println!(rt; "{} calls and references", only.visitor.ids.len())?;
/// ```
#[derive(Drop)]
pub struct OnlyIds<V> {
    /// Where the ids go.
    pub visitor: V,
}

impl<V: IdVisitor> Visitor for OnlyIds<V> {
    type Error = V::Error;

    ghost step = { λ old e new. step_at id_in V.step old.visitor e new.visitor };

    fn start_instr_seq(&mut self, _seq: &InstrSeq) -> Result<(), V::Error> {
        Ok(())
    }

    fn end_instr_seq(&mut self, _seq: &InstrSeq) -> Result<(), V::Error> {
        Ok(())
    }

    fn visit_instr(&mut self, _instr: &Instr, _location: &InstrLocId) -> Result<(), V::Error> {
        Ok(())
    }

    fn visit_instr_seq_id(&mut self, id: &InstrSeqId) -> Result<(), V::Error> {
        self.visitor.visit_id(AnyId::InstrSeq(*id))
    }

    fn visit_local_id(&mut self, id: &LocalId) -> Result<(), V::Error> {
        self.visitor.visit_id(AnyId::Local(*id))
    }

    fn visit_memory_id(&mut self, id: &MemoryId) -> Result<(), V::Error> {
        self.visitor.visit_id(AnyId::Memory(*id))
    }

    fn visit_table_id(&mut self, id: &TableId) -> Result<(), V::Error> {
        self.visitor.visit_id(AnyId::Table(*id))
    }

    fn visit_global_id(&mut self, id: &GlobalId) -> Result<(), V::Error> {
        self.visitor.visit_id(AnyId::Global(*id))
    }

    fn visit_function_id(&mut self, id: &FunctionId) -> Result<(), V::Error> {
        self.visitor.visit_id(AnyId::Function(*id))
    }

    fn visit_data_id(&mut self, id: &DataId) -> Result<(), V::Error> {
        self.visitor.visit_id(AnyId::Data(*id))
    }

    fn visit_element_id(&mut self, id: &ElementId) -> Result<(), V::Error> {
        self.visitor.visit_id(AnyId::Element(*id))
    }

    fn visit_tag_id(&mut self, id: &TagId) -> Result<(), V::Error> {
        self.visitor.visit_id(AnyId::Tag(*id))
    }

    fn visit_type_id(&mut self, id: &TypeId) -> Result<(), V::Error> {
        self.visitor.visit_id(AnyId::Type(*id))
    }

    fn visit_value(&mut self, _value: &Value) -> Result<(), V::Error> {
        Ok(())
    }

    fn visit_heap_type(&mut self, heap_type: &HeapType) -> Result<(), V::Error> {
        match heap_type {
            HeapType::Abstract(_) => Ok(()),
            HeapType::Concrete(id) => self.visitor.visit_id(AnyId::Type(*id)),
            HeapType::Exact(id) => self.visitor.visit_id(AnyId::Type(*id)),
        }
    }
}

//! A visitor that renames types.
ghost use Rattle.std.specs.Prelude.{◌≡◌};
ghost use Rattle.walrus_ty.specs.Value.{rename_heap};
ghost use Rattle.walrus_traversals_mut.specs.Renaming.{new_type_id, rename_at};

use crate::VisitorMut;
use std::convert::Infallible;
use std::marker::Model;
use walrus_ir::{
    DataId, ElementId, FunctionId, GlobalId, Instr, InstrLocId, InstrSeq, InstrSeqId, LocalId,
    MemoryId, TableId, TagId, TypeId, Value,
};
use walrus_types::{Heap, HeapType};

/// A visitor that gives types new ids, as after the types of a module were put into another order.
///
/// It renames the types that instructions name, those in their heap types, and the types of
/// sequences. Not visited, and so not renamed, are the types in the reference types of `ref.null`
/// and `select`, those of locals, those in constant expressions, and the type of the function
/// itself (`LocalFunction::ty`).
///
/// A walk that ends with `Ok` leaves each sequence that is reached from its start renamed as often
/// as it is visited, and nothing else of the body changes: other sequences, ids of sequences,
/// locations and all that is not a type stay. A sequence that is named twice is visited twice, and
/// renamed twice, be it by one instruction; where none is named twice, each is renamed once.
/// [`rename_types_renames_the_body`](crate::laws::rename_types_renames_the_body) is the law.
///
/// ```
/// // the types 0 and 1 change places
/// let mut visitor = RenameTypes::new(vec![in alloc; types[1], types[0]]?);
/// let start = func.entry_block();
/// dfs_pre_order_mut(alloc, &mut visitor, &mut func, start)?;
/// ```
#[derive(Drop)]
pub struct RenameTypes {
    names: Vec<TypeId>,
}

impl Model for RenameTypes {
    ghost use Rattle.std.specs.Prelude.{ℕ, List};

    ghost Value = { List ℕ };

    ghost view = { λ r. r.names.items };
}

impl RenameTypes {
    /// The type with id `i` becomes `names[i]`. Types past the end of the list keep their ids.
    pub fn new(names: Vec<TypeId>) -> RenameTypes
        ensures { result ≡ names.items }
    {
        RenameTypes { names }
    }

    fn rename(&self, id: &mut TypeId)
        ensures { id.new ≡ new_type_id self.now id.old }
    {
        let at = id.index();
        if at < self.names.len() {
            *id = self.names[at];
        }
    }

    fn rename_heap_type(&self, ty: &mut HeapType)
        ensures { ty.new ≡ rename_heap (new_type_id self.now) ty.old }
    {
        match ty {
            Heap::Concrete(id) => self.rename(id),
            Heap::Exact(id) => self.rename(id),
            Heap::Abstract(_) => {}
        }
    }
}

impl VisitorMut for RenameTypes {
    type Error = Infallible;

    ghost use Rattle.walrus_ir.specs.Hooks.{Hook, Given};

    ghost step = { λ hook v x w y. (w ≡ v) × (y ≡ rename_at v hook x) };

    fn start_instr_seq_mut(&mut self, _seq: &mut InstrSeq) -> Result<(), Infallible> {
        Ok(())
    }

    fn end_instr_seq_mut(&mut self, _seq: &mut InstrSeq) -> Result<(), Infallible> {
        Ok(())
    }

    fn visit_instr_mut(
        &mut self,
        _instr: &mut Instr,
        _loc: &mut InstrLocId,
    ) -> Result<(), Infallible> {
        Ok(())
    }

    fn visit_instr_seq_id_mut(&mut self, _id: &mut InstrSeqId) -> Result<(), Infallible> {
        Ok(())
    }

    fn visit_heap_type_mut(&mut self, ty: &mut HeapType) -> Result<(), Infallible> {
        self.rename_heap_type(ty);
        Ok(())
    }

    fn visit_function_id_mut(&mut self, _id: &mut FunctionId) -> Result<(), Infallible> {
        Ok(())
    }

    fn visit_type_id_mut(&mut self, id: &mut TypeId) -> Result<(), Infallible> {
        self.rename(id);
        Ok(())
    }

    fn visit_table_id_mut(&mut self, _id: &mut TableId) -> Result<(), Infallible> {
        Ok(())
    }

    fn visit_local_id_mut(&mut self, _id: &mut LocalId) -> Result<(), Infallible> {
        Ok(())
    }

    fn visit_global_id_mut(&mut self, _id: &mut GlobalId) -> Result<(), Infallible> {
        Ok(())
    }

    fn visit_value_mut(&mut self, _value: &mut Value) -> Result<(), Infallible> {
        Ok(())
    }

    fn visit_memory_id_mut(&mut self, _id: &mut MemoryId) -> Result<(), Infallible> {
        Ok(())
    }

    fn visit_data_id_mut(&mut self, _id: &mut DataId) -> Result<(), Infallible> {
        Ok(())
    }

    fn visit_element_id_mut(&mut self, _id: &mut ElementId) -> Result<(), Infallible> {
        Ok(())
    }

    fn visit_tag_id_mut(&mut self, _id: &mut TagId) -> Result<(), Infallible> {
        Ok(())
    }
}

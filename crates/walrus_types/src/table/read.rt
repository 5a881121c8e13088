//! What reading a section does to a table, beside adding types.
ghost use Rattle.std.specs.Prelude.{◌≡◌, IfOk, OnOk, OnErr};
ghost use Rattle.walrus_types.specs.Table.{IsSameTable};
ghost use Rattle.walrus_types.specs.Steps.TableReads.{ReadsSingle, UsesUpId};

use super::ModuleTypes;
use crate::{CompositeType, FunctionType, Type, TypeId};
use std::alloc::{AllocError, Global};

impl ModuleTypes {
    // The id of an equal type that was added alone, where the next id is used up, or else of this
    // one as a new type.
    pub(crate) fn add_single(&mut self, ty: Type) -> Result<TypeId, AllocError>
        ensures ok { IfOk result (λ id. ReadsSingle self.old self.new ty id) }
        ensures err { OnErr result (IsSameTable self.old self.new) }
        ensures keys { self.new.types.keys ≡ self.old.types.keys }
    {
        match self.find_equal(&ty) {
            Some(id) => {
                self.use_up_id()?;
                Ok(id)
            }
            None => self.add_new(ty),
        }
    }

    // Leaves a dead slot at the end.
    fn use_up_id(&mut self) -> Result<(), AllocError>
        ensures ok { OnOk result (UsesUpId self.old self.new) }
        ensures err { OnErr result (IsSameTable self.old self.new) }
    {
        let alloc = self.allocator();
        let nothing = FunctionType::new(Vec::new(alloc), Vec::new(alloc));
        let id = self.types.next_id();
        let ty = Type::new(alloc, id, CompositeType::Function(nothing), true, None);
        self.group_of.reserve(1)?;
        self.types.alloc_dead(ty)?;
        self.group_of.push_reserved(0);
        Ok(())
    }
}

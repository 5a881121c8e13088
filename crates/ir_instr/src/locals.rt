//! The locals of functions.
ghost use Rattle.std.specs.Prelude.{◌≡◌, ◌<◌, ◌↔◌, [], ◌∷◌, ◌++◌, length, map, slice_get, IsTrue, IfOk, OnOk, OnErr, Some};
ghost use Rattle.std.specs.Borrow.{sem};
ghost use Rattle.std.specs.List.{AllZip};
ghost use Rattle.ir_instr.specs.Locals.{unnamed_local, unnamed_locals};
ghost use Rattle.ir_instr.specs.LocalLends.{LendsLocal};

mod iter;

pub use iter::LocalsIter;
use std::alloc::{AllocError, Global};
use std::marker::Model;
use walrus_ty::{Id, ValType};

/// A local of a function: a parameter, or a variable that it declares.
#[derive(Clone, PartialEq, Eq, Hash, Debug, Drop)]
pub struct Local {
    id: LocalId,
    ty: ValType,
    /// The name that debug information gives the local.
    pub name: Option<String>,
}

/// The id of a local: its place among the locals of its module.
pub type LocalId = Id<Local>;

impl Model for Local {
    ghost use Rattle.ir_instr.specs.Locals.{LocalVariable};

    ghost Value = { LocalVariable };

    ghost view = { λ l. record { id = l.id; ty = l.ty; name = l.name } };

    ghost inverse = { λ l. record { id = l.id; ty = l.ty; name = l.name } };
}

impl Local {
    /// The local with this id and this type, and without a name.
    pub fn new(id: LocalId, ty: ValType) -> Local
        ensures { result ≡ unnamed_local id ty }
    {
        Local { id, ty, name: None }
    }

    /// The id that it was made with.
    pub fn id(&self) -> LocalId
        ensures { result ≡ self.now.id }
    {
        self.id
    }

    /// The type of its values.
    pub fn ty(&self) -> ValType
        ensures { result ≡ self.now.ty }
    {
        self.ty
    }
}

/// The locals of all functions of a module, seen as the list of them. An id is a place in this
/// list.
#[derive(Drop)]
pub struct ModuleLocals {
    locals: Vec<Local>,
}

impl Model for ModuleLocals {
    ghost use Rattle.std.specs.Prelude.{List};
    ghost use Rattle.ir_instr.specs.Locals.{LocalVariable};

    ghost Value = { List LocalVariable };

    ghost view = { λ m. m.locals.items };
}

impl ModuleLocals {
    /// No locals. It takes no memory.
    pub fn new(alloc: Global) -> ModuleLocals
        ensures { result ≡ [] }
    {
        ModuleLocals {
            locals: Vec::new(alloc),
        }
    }

    /// Adds a local of this type without a name, and returns its id: the number of locals before. A
    /// refusal changes nothing.
    pub fn add(&mut self, ty: ValType) -> Result<LocalId, AllocError>
        ensures id { IfOk result (λ id. id ≡ length self.old) }
        ensures ok { OnOk result (self.new ≡ self.old ++ unnamed_local (length self.old) ty ∷ []) }
        ensures err { OnErr result (self.new ≡ self.old) }
    {
        let id = Id::from_index(self.locals.len());
        self.locals.push(Local::new(id, ty))?;
        Ok(id)
    }

    /// Adds a local without a name for each of these types, in order, and returns their ids. All or
    /// none: a refusal changes nothing.
    ///
    /// walrus has no such call.
    pub fn add_all(&mut self, types: &[ValType]) -> Result<Vec<LocalId>, AllocError>
        ensures ids { IfOk result
            (λ ids. ids.items ≡ map (λ l. l.id) (unnamed_locals (length self.old) types.now)) }
        ensures ok { OnOk result
            (self.new ≡ self.old ++ unnamed_locals (length self.old) types.now) }
        ensures err { OnErr result (self.new ≡ self.old) }
    {
        let mut ids = Vec::with_capacity(*self.locals.allocator(), types.len())?;
        self.locals.reserve(types.len())?;
        for ty in types {
            let id = Id::from_index(self.locals.len());
            ids.push_reserved(id);
            self.locals.push_reserved(Local::new(id, *ty));
        }
        Ok(ids)
    }

    /// Whether there is a local with this id.
    pub fn contains(&self, id: LocalId) -> bool
        ensures { IsTrue result ↔ (id < length self.now) }
    {
        id.index() < self.locals.len()
    }

    /// The local with this id.
    pub fn get(&self, id: LocalId) -> &Local
        requires { id < length self.now }
        ensures { slice_get self.now id ≡ Some result.now }
    {
        &self.locals[id.index()]
    }

    /// The local with this id, for writing. A whole local that is written over it keeps the id that
    /// it brings, and stays at this place.
    pub fn get_mut(&mut self, id: LocalId) -> &mut Local
        requires { id < length self.old }
        ensures* writes_back { sem 𝓛 (LendsLocal self.entry id result) }
        ensures value { slice_get self.old id ≡ Some result.now }
    {
        &mut self.locals[id.index()]
    }

    /// All locals in the order of their ids.
    pub fn iter(&self) -> LocalsIter<'_>
        ensures { result ≡ self.now }
    {
        LocalsIter {
            left: self.locals.as_slice(),
        }
    }
}

impl Clone for ModuleLocals {
    ghost is_clone = { AllZip ⟦<Local as Clone>⟧.is_clone };

    fn clone(&self) -> Result<ModuleLocals, AllocError> {
        Ok(ModuleLocals {
            locals: self.locals.clone()?,
        })
    }
}

//! Adding types to a table.
ghost use Rattle.std.specs.Prelude.{◌≡◌, [], IfOk, OnErr, Some, None, IfSome, true, false};
ghost use Rattle.walrus_types.specs.TypesById.{found_id};
ghost use Rattle.walrus_ty.specs.Types.{unnamed_type, function};
ghost use Rattle.walrus_types.specs.Table.{FindsOrAdds, HoldsAlone, AddsType, IsSameTable, next_id};
ghost use Rattle.walrus_ty.specs.declared.ty.composite.CompositeType.TheVariants as kind;

use super::{ModuleTypes, RecGroup};
use crate::{
    ArrayType, CompositeType, FieldType, FunctionType, Listed, StructType, Type, TypeId, ValType,
};
use std::alloc::AllocError;

impl ModuleTypes {
    /// Returns the id of the final function type with these parameters and results, and without
    /// supertype (WebAssembly core specification, "Types", composite types).
    ///
    /// If the table finds an equal type that was added alone, this is its id. Otherwise the type is
    /// new, and gets a group of its own at the end. Types of explicit groups are never returned.
    ///
    /// # Errors
    ///
    /// `AllocError` comes where memory was refused. Then the table has the same types and groups,
    /// finds the same, and no id is used up.
    ///
    /// # An equal type is added once
    ///
    /// ```
    /// let mut types = ModuleTypes::new(alloc);
    /// let first = types.add(&[ValType::I32], &[ValType::I64])?;
    /// let again = types.add(&[ValType::I32], &[ValType::I64])?;
    /// assert_eq!(rt; first, again);
    /// ```
    pub fn add(&mut self, params: &[ValType], results: &[ValType]) -> Result<TypeId, AllocError>
        ensures holds { IfOk result
            (λ id. HoldsAlone self.new
            (unnamed_type (function params.now results.now) true None false (next_id self.old))
            id) }
        ensures ok { IfOk result
            (λ id. FindsOrAdds self.old self.new
            (unnamed_type (function params.now results.now) true None false (next_id self.old))
            id) }
        ensures err { OnErr result (IsSameTable self.old self.new) }
    {
        let alloc = *self.groups.allocator();
        let ty = FunctionType::new(params.to_vec(alloc)?, results.to_vec(alloc)?);
        self.add_composite(CompositeType::Function(ty), true, None)
    }

    /// Returns the id of the final struct type with these fields, and without supertype. It is
    /// found or added as by [`add_composite`](ModuleTypes::add_composite), with the same errors.
    pub fn add_struct(&mut self, fields: Vec<FieldType>) -> Result<TypeId, AllocError>
        ensures holds { IfOk result
            (λ id. HoldsAlone self.new
            (unnamed_type (kind.Struct (record { fields = fields.items })) true None false
            (next_id self.old)) id) }
        ensures ok { IfOk result
            (λ id. FindsOrAdds self.old self.new
            (unnamed_type (kind.Struct (record { fields = fields.items })) true None false
            (next_id self.old)) id) }
        ensures err { OnErr result (IsSameTable self.old self.new) }
    {
        let ty = StructType {
            fields: Listed::from_vec(fields),
        };
        self.add_composite(CompositeType::Struct(ty), true, None)
    }

    /// Returns the id of the final array type with these elements, and without supertype. It is
    /// found or added as by [`add_composite`](ModuleTypes::add_composite), with the same errors.
    pub fn add_array(&mut self, element: FieldType) -> Result<TypeId, AllocError>
        ensures holds { IfOk result
            (λ id. HoldsAlone self.new
            (unnamed_type (kind.Array (record { field = element })) true None false
            (next_id self.old)) id) }
        ensures ok { IfOk result
            (λ id. FindsOrAdds self.old self.new
            (unnamed_type (kind.Array (record { field = element })) true None false
            (next_id self.old)) id) }
        ensures err { OnErr result (IsSameTable self.old self.new) }
    {
        self.add_composite(
            CompositeType::Array(ArrayType { field: element }),
            true,
            None,
        )
    }

    /// Returns the id of the type with this composite type, finality and supertype.
    ///
    /// If the table finds an equal type that was added alone, this is its id. Otherwise the type is
    /// new: it has no name, and gets a group of its own at the end. Types of explicit groups are
    /// never returned.
    ///
    /// # Errors
    ///
    /// `AllocError` comes where memory was refused. Then the table has the same types and groups,
    /// finds the same, and no id is used up.
    pub fn add_composite(
        &mut self,
        comp: CompositeType,
        is_final: bool,
        supertype: Option<TypeId>,
    ) -> Result<TypeId, AllocError>
        ensures holds { IfOk result
            (λ id. HoldsAlone self.new
            (unnamed_type comp is_final supertype false (next_id self.old)) id) }
        ensures ok { IfOk result
            (λ id. FindsOrAdds self.old self.new
            (unnamed_type comp is_final supertype false (next_id self.old)) id) }
        ensures err { OnErr result (IsSameTable self.old self.new) }
    {
        let id = self.types.next_id();
        let alloc = self.allocator();
        self.insert(Type::new(alloc, id, comp, is_final, supertype))
    }

    /// Returns the id of the type that marks a function body with these results: a final function
    /// type without parameters and supertype, with the mark of a function entry. It is found or
    /// added as by [`add_composite`](ModuleTypes::add_composite), with the same errors. Such a type
    /// is not written.
    pub fn add_entry_ty(&mut self, results: &[ValType]) -> Result<TypeId, AllocError>
        ensures holds { IfOk result
            (λ id. HoldsAlone self.new
            (unnamed_type (function [] results.now) true None true (next_id self.old)) id) }
        ensures ok { IfOk result
            (λ id. FindsOrAdds self.old self.new
            (unnamed_type (function [] results.now) true None true (next_id self.old)) id) }
        ensures err { OnErr result (IsSameTable self.old self.new) }
    {
        let results = results.to_vec(*self.groups.allocator())?;
        let id = self.types.next_id();
        self.insert(Type::for_function_entry(id, results))
    }

    // The id of an equal type that was added alone, or of this one as a new type.
    fn insert(&mut self, ty: Type) -> Result<TypeId, AllocError>
        ensures holds { IfOk result (λ id. HoldsAlone self.new ty id) }
        ensures ok { IfOk result (λ id. FindsOrAdds self.old self.new ty id) }
        ensures err { OnErr result (IsSameTable self.old self.new) }
    {
        match self.find_equal(&ty) {
            Some(id) => Ok(id),
            None => self.add_new(ty),
        }
    }

    // The id of an equal type that was added alone.
    pub(super) fn find_equal(&self, ty: &Type) -> Option<TypeId>
        ensures value { result ≡ found_id self.now.types ty.now }
        ensures holds { IfSome result (λ id. HoldsAlone self.now ty.now id) }
    {
        self.types.find(ty)
    }

    // A type that isn't found gets a new slot, and a group of its own.
    pub(super) fn add_new(&mut self, ty: Type) -> Result<TypeId, AllocError>
        requires { found_id self.old.types ty ≡ None }
        ensures holds { IfOk result (λ id. HoldsAlone self.new ty id) }
        ensures ok { IfOk result (λ id. AddsType self.old self.new ty id) }
        ensures err { OnErr result (IsSameTable self.old self.new) }
    {
        let at = self.types.next_id();
        let ids = vec![in *self.groups.allocator(); at]?;
        self.groups.reserve(1)?;
        self.group_of.reserve(1)?;
        let id = self.types.alloc_and_register(ty)?;
        self.group_of.push_reserved(self.groups.len());
        self.groups.push_reserved(RecGroup {
            types: Listed::from_vec(ids),
            is_explicit: false,
        });
        Ok(id)
    }
}

//! Tables of function types.
ghost use Rattle.std.specs.Prelude.{IfOk, OnErr};

use crate::{TypeId, ValType};
use std::alloc::AllocError;

/// A table in which function types are found and added, such as the `ModuleTypes` of
/// `walrus_types`.
///
/// The type of an instruction sequence can be a function type, so it needs such a table when it is
/// made.
pub trait FunctionTypes {
    ghost use Rattle.std.specs.Prelude.{ℕ, List, Option};
    ghost use Rattle.walrus_ty.specs.declared.ty.value.Val.{Val};

    /// How the table may change where the type with these parameters and results is added, and
    /// which id the type has.
    ghost adds: { Self → List (Val ℕ) → List (Val ℕ) → Self → ℕ → Type 0 };

    /// What the table then has at that id.
    ghost has: { Self → List (Val ℕ) → List (Val ℕ) → Self → ℕ → Type 0 };

    /// That it is the same table.
    ghost is_same: { Self → Self → Type 0 };

    /// The type with these parameters and results that is found, if one is.
    ghost finds: { Self → List (Val ℕ) → List (Val ℕ) → Option ℕ → Type 0 };

    /// Returns the id of the function type with these parameters and results. The type is found or
    /// added.
    ///
    /// # Errors
    ///
    /// `AllocError` comes where memory was refused. Then it is the same table.
    fn add_function(
        &mut self,
        params: &[ValType],
        results: &[ValType],
    ) -> Result<TypeId, AllocError>
        ensures answer { IfOk result (λ id. has self.old params.now results.now self.new id) }
        ensures ok { IfOk result (λ id. adds self.old params.now results.now self.new id) }
        ensures err { OnErr result (is_same self.old self.new) };

    /// Returns a function type with these parameters and results, if the table has one. It takes no
    /// memory.
    fn find_function(&self, params: &[ValType], results: &[ValType]) -> Option<TypeId>
        ensures { finds self.now params.now results.now result };
}

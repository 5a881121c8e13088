//! The table as one of function types, for the types of instruction sequences.
ghost use Rattle.walrus_types.specs.FunctionTypes.{new_function};
ghost use Rattle.walrus_types.specs.Table.{FindsOrAdds, HoldsAlone, IsFirst, IsPlainFunction, IsSameTable};

use super::ModuleTypes;
use crate::{FunctionTypes, TypeId, ValType};
use std::alloc::AllocError;

/// Function types are found as by [`find`](ModuleTypes::find), and added as by
/// [`add`](ModuleTypes::add).
impl FunctionTypes for ModuleTypes {
    ghost adds = { λ old params results new id.
        FindsOrAdds old new (new_function old params results) id };

    ghost has = { λ old params results new id. HoldsAlone new (new_function old params results) id };

    ghost is_same = { IsSameTable };

    ghost finds = { λ t params results found. IsFirst t (IsPlainFunction params results) found };

    fn add_function(
        &mut self,
        params: &[ValType],
        results: &[ValType],
    ) -> Result<TypeId, AllocError> {
        self.add(params, results)
    }

    fn find_function(&self, params: &[ValType], results: &[ValType]) -> Option<TypeId> {
        self.find(params, results)
    }
}

//! What block types are in a module's table of types, and the laws of block types, of constant
//! expressions and of locals.
ghost use Rattle.std.specs.Prelude.{◌≡◌, Some, None, IfSome, IfOk, OnErr, Ok, MatchOption};
ghost use Rattle.ir_instr.specs.BlockTypes.{simple_result, IsMultiValue};
ghost use Rattle.ir_instr.specs.declared.instr_seq_type.InstrSeqType.TheVariants.{Simple};
ghost use Rattle.walrus_types.specs.FunctionTypes.{new_function};
ghost use Rattle.walrus_types.specs.Table.{FindsOrAdds, HoldsAlone, IsSameTable, IsFirst, IsPlainFunction};

use crate::{InstrSeqType, ModuleTypes, ValType};
pub use ir_const_expr::laws::operations_come_back;
pub use ir_instr::laws::{
    equal_block_types_are_the_same, equal_locals_are_the_same, local_hashes_agree,
};
use std::alloc::AllocError;

/// Calls [`InstrSeqType::new`] with the types of a module. Its clauses say what that call returns
/// and changes there.
pub fn new_block_type(
    types: &mut ModuleTypes,
    params: &[ValType],
    results: &[ValType],
) -> Result<InstrSeqType, AllocError>
    ensures simple { IfSome (simple_result params.now results.now) (λ of. result ≡ Ok (Simple of)) }
    ensures unchanged { IfSome (simple_result params.now results.now)
        (λ of. types.new ≡ types.old) }
    ensures holds { simple_result params.now results.now ≡ None →
        IfOk result (λ ty. IsMultiValue ty
        (λ id. HoldsAlone types.new (new_function types.old params.now results.now) id)) }
    ensures ok { simple_result params.now results.now ≡ None →
        IfOk result (λ ty. IsMultiValue ty
        (λ id. FindsOrAdds types.old types.new
        (new_function types.old params.now results.now) id)) }
    ensures err { OnErr result (IsSameTable types.old types.new) }
{
    InstrSeqType::new(types, params, results)
}

/// Calls [`InstrSeqType::existing`] with the types of a module. Its clauses say what that call
/// returns there.
pub fn existing_block_type(
    types: &ModuleTypes,
    params: &[ValType],
    results: &[ValType],
) -> Option<InstrSeqType>
    ensures simple { IfSome (simple_result params.now results.now)
        (λ of. result ≡ Some (Simple of)) }
    ensures found { simple_result params.now results.now ≡ None → MatchOption result
        (IsFirst types.now (IsPlainFunction params.now results.now) None)
        (λ ty. IsMultiValue ty (λ id.
        IsFirst types.now (IsPlainFunction params.now results.now) (Some id))) }
{
    InstrSeqType::existing(types, params, results)
}

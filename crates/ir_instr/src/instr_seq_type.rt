//! The types of instruction sequences.
ghost use Rattle.std.specs.Prelude.{◌≡◌, Some, None, IfSome, IfOk, OnErr, Ok, MatchOption, option_map};
ghost use Rattle.ir_instr.specs.BlockTypes.{block_type_name, simple_result, IsMultiValue};
ghost use Rattle.ir_instr.specs.declared.instr_seq_type.InstrSeqType.TheVariants.{Simple, MultiValue};

use std::alloc::AllocError;
use walrus_ty::{FunctionTypes, TypeId, ValType};

/// The type of an instruction sequence: what it takes from the stack, and what it leaves there.
/// `blocktype` in the WebAssembly core specification.
#[derive(Clone, Copy, PartialEq, Eq, Debug)]
pub enum InstrSeqType {
    /// It takes nothing, and leaves one value of this type or nothing.
    Simple(Option<ValType>),
    /// It takes the parameters of this function type, and leaves its results.
    MultiValue(TypeId),
}

impl InstrSeqType {
    /// Returns the type of sequences that take `params` and leave `results`. Without `params` and
    /// with at most one result it is `Simple`, and the table stays as it is. Otherwise it is the
    /// function type that the table finds or adds.
    ///
    /// The table is usually a `ModuleTypes`, with the function type that its `add` returns.
    ///
    /// # Errors
    ///
    /// `AllocError` comes where memory was refused. Then the table is as it was.
    pub fn new<T: FunctionTypes>(
        types: &mut T,
        params: &[ValType],
        results: &[ValType],
    ) -> Result<InstrSeqType, AllocError>
        ensures simple { IfSome (simple_result params.now results.now)
            (λ of. result ≡ Ok (Simple of)) }
        ensures unchanged { IfSome (simple_result params.now results.now)
            (λ of. types.new ≡ types.old) }
        ensures holds { simple_result params.now results.now ≡ None → IfOk result
            (λ ty. IsMultiValue ty (λ id. T.has types.old params.now results.now types.new id)) }
        ensures ok { simple_result params.now results.now ≡ None → IfOk result
            (λ ty. IsMultiValue ty (λ id. T.adds types.old params.now results.now types.new id)) }
        ensures err { OnErr result (T.is_same types.old types.new) }
    {
        match simple(params, results) {
            Some(ty) => Ok(ty),
            None => Ok(InstrSeqType::MultiValue(types.add_function(params, results)?)),
        }
    }

    /// Returns the type of sequences that take `params` and leave `results`, if the table need not
    /// grow for it: `Simple` where `new` returns that, or else the function type that the table
    /// finds. It takes no memory.
    pub fn existing<T: FunctionTypes>(
        types: &T,
        params: &[ValType],
        results: &[ValType],
    ) -> Option<InstrSeqType>
        ensures simple { IfSome (simple_result params.now results.now)
            (λ of. result ≡ Some (Simple of)) }
        ensures found { simple_result params.now results.now ≡ None → MatchOption result
            (T.finds types.now params.now results.now None)
            (λ ty. IsMultiValue ty (λ id.
            T.finds types.now params.now results.now (Some id))) }
    {
        match simple(params, results) {
            Some(ty) => Some(ty),
            None => match types.find_function(params, results) {
                Some(id) => Some(InstrSeqType::MultiValue(id)),
                None => None,
            },
        }
    }

    /// The type of the module that it names, if it names one: the function type of `MultiValue`, or
    /// the type that the value type of `Simple` refers to.
    pub fn type_id(&self) -> Option<TypeId>
        ensures { result ≡ block_type_name self.now }
    {
        match self {
            InstrSeqType::Simple(None) => None,
            InstrSeqType::Simple(Some(of)) => of.type_id(),
            InstrSeqType::MultiValue(id) => Some(*id),
        }
    }
}

// The form that needs no function type, where there is one.
fn simple(params: &[ValType], results: &[ValType]) -> Option<InstrSeqType>
    ensures { result ≡ option_map Simple (simple_result params.now results.now) }
{
    match (params, results) {
        ([], []) => Some(InstrSeqType::Simple(None)),
        ([], [only]) => Some(InstrSeqType::Simple(Some(*only))),
        _ => None,
    }
}

/// The type of sequences that take nothing and leave one value of this type, or nothing.
impl From<Option<ValType>> for InstrSeqType {
    ghost from_gives = { λ of ty. ty ≡ Simple of };

    fn from(of: Option<ValType>) -> InstrSeqType {
        InstrSeqType::Simple(of)
    }
}

/// The type of sequences that take nothing and leave one value of this type.
impl From<ValType> for InstrSeqType {
    ghost from_gives = { λ of ty. ty ≡ Simple (Some of) };

    fn from(of: ValType) -> InstrSeqType {
        InstrSeqType::Simple(Some(of))
    }
}

/// The type of sequences that take the parameters of this function type and leave its results.
impl From<TypeId> for InstrSeqType {
    ghost from_gives = { λ id ty. ty ≡ MultiValue id };

    fn from(id: TypeId) -> InstrSeqType {
        InstrSeqType::MultiValue(id)
    }
}

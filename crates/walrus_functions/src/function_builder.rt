//! Building functions.
//! WebAssembly core specification, "Functions" and "Expressions".
ghost use Rattle.std.specs.Prelude.{◌≡◌, ◌↔◌, ◌≤◌, length, IsTrue, IfOk, OnOk, OnErr, Some, None, IsSome, IfSome, IfErr, slice_get, option_copied};
ghost use Rattle.std.specs.Borrow.{sem, Lends, RestsIfErr};
ghost use Rattle.std.specs.String.{string_bytes};
ghost use Rattle.walrus_functions.specs.Beginning.{Begins, FailsToBegin};
ghost use Rattle.walrus_functions.specs.Body.{bare, Knows, sequence, instrs_of, next_seq, with_new, with_instrs, with_instr, with_instr_at};
ghost use Rattle.walrus_functions.specs.Functions.{next_function, with_new_function};

mod instr_seq_builder;
mod nested;
mod plain;
mod sequences;

use crate::{BuildError, LocalFunction, LocalFunctions};
pub use instr_seq_builder::InstrSeqBuilder;
use sequences::Sequences;
use std::alloc::{AllocError, Global};
use std::marker::Model;
use walrus_ir::{Instr, InstrLocId, InstrSeq, InstrSeqId, InstrSeqType, LocalId};
use walrus_types::{FunctionId, ModuleTypes, TypeId, ValType};

/// Builds a function: its sequences of instructions by id, which of them runs first, its type and
/// its name.
///
/// A contract sees it as `Body`: the list of its sequences, each at the place that is its id, an
/// entry, a type and the bytes of a name. Sequences are added and never removed, so a known id
/// stays known.
///
/// # Example
///
/// ```
/// let mut builder = FunctionBuilder::new(alloc, &mut types, &[], &[])?;
/// let mut body = builder.func_body();
/// body.i32_const(1234)?;
/// body.drop()?;
/// let id = builder.finish(Vec::new(alloc), &mut funcs);
/// ```
#[derive(Debug, Drop)]
pub struct FunctionBuilder {
    seqs: Sequences,
    ty: TypeId,
    entry: Option<InstrSeqId>,
    name: Option<String>,
}

impl Model for FunctionBuilder {
    ghost use Rattle.std.specs.Prelude.{option_map, IfSome, ◌<◌, length};
    ghost use Rattle.std.specs.String.{string_bytes};
    ghost use Rattle.walrus_functions.specs.Body.{Body};

    ghost Value = { Body };

    ghost view = { λ b. record {
      seqs = b.seqs;
      entry = b.entry;
      ty = b.ty;
      name = option_map string_bytes b.name;
    } };

    ghost invariant = { λ b. IfSome b.entry (λ id. id < length b.seqs) };
}

impl FunctionBuilder {
    ghost use Rattle.walrus_functions.specs.Building.{seq_id, function_of, loan_of, StayKnown};
    ghost use Rattle.walrus_functions.specs.Rows.{instrs_row};
    ghost use Rattle.walrus_functions.specs.Steps.SeqLends.{LendsSeq};
    ghost use Rattle.walrus_functions.specs.contracts.function_builder.FunctionBuilder.{the_row};

    /// Returns a builder of a function that takes `params` and leaves `results`. It has one
    /// sequence, without instructions, which runs first.
    ///
    /// Two types are found in the table or else added: the function type by `ModuleTypes::add`, and
    /// then by `ModuleTypes::add_entry_ty` the type that marks the body, which is not written.
    ///
    /// # Errors
    ///
    /// `AllocError` comes where memory was refused. Then the table is as it was, or has the
    /// function type, or has both types.
    pub fn new(
        alloc: Global,
        types: &mut ModuleTypes,
        params: &[ValType],
        results: &[ValType],
    ) -> Result<FunctionBuilder, AllocError>
        ensures ok { IfOk result (λ f. Begins types.old params.now results.now f types.new) }
        ensures err { OnErr result (FailsToBegin types.old params.now results.now types.new) }
    {
        let ty = types.add(params, results)?;
        let mut builder = FunctionBuilder::without_entry(alloc, ty);
        let entry_ty = types.add_entry_ty(results)?;
        let entry = builder.add_seq(InstrSeqType::MultiValue(entry_ty))?;
        builder.entry = Some(entry);
        Ok(builder)
    }

    /// Returns a builder of a function of this type, without sequences, entry and name. It takes no
    /// memory.
    pub fn without_entry(alloc: Global, ty: TypeId) -> FunctionBuilder
        ensures { result ≡ bare ty }
    {
        FunctionBuilder {
            seqs: Sequences::new(alloc),
            ty,
            entry: None,
            name: None,
        }
    }

    /// The id of the sequence that runs first, if there is one. It is a known id.
    pub fn entry(&self) -> Option<InstrSeqId>
        ensures value { result ≡ self.now.entry }
        ensures known { IfSome result (Knows self.now) }
    {
        self.entry
    }

    /// Makes a known sequence the one that runs first.
    pub fn set_entry(&mut self, id: InstrSeqId)
        requires { Knows self.old id }
        ensures { self.new ≡ record (self.old) { entry = Some id } }
    {
        self.entry = Some(id);
    }

    /// Names the function. Only the last name that is given stays.
    pub fn name(&mut self, function_name: String) -> &mut FunctionBuilder
        ensures same { result.ghost_name ≡ self.entry.ghost_name }
        ensures value { result.now ≡
            record (self.old) { name = Some (string_bytes function_name) } }
    {
        self.name = Some(function_name);
        self
    }

    /// The id of the sequence that runs first. There must be an entry.
    pub fn func_body_id(&self) -> InstrSeqId
        requires { IsSome self.now.entry }
        ensures value { self.now.entry ≡ Some result }
        ensures known { Knows self.now result }
    {
        self.entry.unwrap()
    }

    /// Returns a builder that adds instructions to the sequence that runs first. There must be an
    /// entry.
    pub fn func_body(&mut self) -> InstrSeqBuilder<'_>
        requires { IsSome self.old.entry }
        ensures same { loan_of result ≡ self.entry.ghost_name }
        ensures value { function_of result ≡ self.old }
        ensures id { self.old.entry ≡ Some (seq_id result) }
        ensures known { Knows self.old (seq_id result) }
    {
        let id = self.func_body_id();
        self.instr_seq(id)
    }

    /// Whether there is a sequence with this id.
    pub fn contains_seq(&self, id: InstrSeqId) -> bool
        ensures { IsTrue result ↔ Knows self.now id }
    {
        self.seqs.contains(id)
    }

    /// Returns a builder that adds further instructions to the sequence of a known id.
    pub fn instr_seq(&mut self, id: InstrSeqId) -> InstrSeqBuilder<'_>
        requires { Knows self.old id }
        ensures same { loan_of result ≡ self.entry.ghost_name }
        ensures value { function_of result ≡ self.old }
        ensures id { seq_id result ≡ id }
    {
        InstrSeqBuilder { id, builder: self }
    }

    /// Makes a new sequence of this type, without instructions, and returns a builder that adds
    /// instructions to it. No instruction names the sequence yet. It runs only where an instruction
    /// such as `Block` with its id is added to a sequence that runs. Where memory is refused
    /// nothing changes.
    ///
    /// # Example
    ///
    /// ```
    /// let mut dangling = builder.dangling_instr_seq(InstrSeqType::Simple(None))?;
    /// dangling.unreachable()?;
    /// let seq = dangling.id();
    /// builder.func_body().instr(Instr::Block(Block { seq }))?;
    /// ```
    pub fn dangling_instr_seq(
        &mut self,
        ty: InstrSeqType,
    ) -> Result<InstrSeqBuilder<'_>, BuildError>
        ensures* rests { sem 𝓛 (RestsIfErr the_row self.entry loan_of result (λ f. f ≡ self.old)) }
        ensures same { IfOk result (λ b. loan_of b ≡ self.entry.ghost_name) }
        ensures id { IfOk result (λ b. seq_id b ≡ next_seq self.old) }
        ensures ok { IfOk result (λ b. function_of b ≡ with_new self.old ty) }
        ensures known { IfOk result (λ b. StayKnown self.old (function_of b)) }
        ensures err { IfErr result (λ e. e ≡ BuildError.Memory) }
    {
        let id = self.add_seq(ty)?;
        Ok(InstrSeqBuilder { id, builder: self })
    }

    /// The id of its type.
    pub fn ty(&self) -> TypeId
        ensures { result ≡ self.now.ty }
    {
        self.ty
    }

    /// The name that it was given last, if it was given one. [`FunctionBuilder::name`] gives it
    /// one.
    pub fn name_text(&self) -> Option<&str>
        ensures { option_copied result ≡ self.now.name }
    {
        match &self.name {
            Some(name) => Some(name.as_str()),
            None => None,
        }
    }

    /// How many sequences it has. Their ids count from 0, so the known ids are those below this
    /// number.
    pub fn seq_count(&self) -> usize
        ensures { result ≡ length self.now.seqs }
    {
        self.seqs.len()
    }

    /// The sequence of a known id, as it is so far.
    pub fn seq(&self, id: InstrSeqId) -> &InstrSeq
        requires { Knows self.now id }
        ensures value { slice_get self.now.seqs id ≡ Some result.now }
        ensures same { result.now ≡ sequence self.now id }
    {
        self.seqs.get(id)
    }

    /// Returns the function as it is, with these locals as its parameters. It takes no memory.
    pub fn local_func(self, args: Vec<LocalId>) -> LocalFunction
        ensures { result ≡ record { body = self; args = args.items } }
    {
        LocalFunction::new(self, args)
    }

    /// Adds the function as it is, with these locals as its parameters, to `funcs`, and returns its
    /// id there. Where memory is refused or no id is left, the error is the function itself, and
    /// `funcs` is as it was.
    pub fn finish(
        self,
        args: Vec<LocalId>,
        funcs: &mut LocalFunctions,
    ) -> Result<FunctionId, LocalFunction>
        ensures id { IfOk result (λ id. id ≡ next_function funcs.old) }
        ensures ok { OnOk result (funcs.new ≡
            with_new_function funcs.old (record { body = self; args = args.items })) }
        ensures back { IfErr result (λ func. func ≡ record { body = self; args = args.items }) }
        ensures err { OnErr result (funcs.new ≡ funcs.old) }
    {
        funcs.add(self.local_func(args))
    }

    // The sequence of a known id, for writing.
    pub(crate) fn seq_mut(&mut self, id: InstrSeqId) -> &mut InstrSeq
        requires { Knows self.old id }
        ensures* writes_back { sem 𝓛 (LendsSeq self.entry id result) }
        ensures value { slice_get self.old.seqs id ≡ Some result.now }
        ensures same { result.now ≡ sequence self.old id }
    {
        self.seqs.get_mut(id)
    }

    // The instructions of a known sequence, for writing.
    fn instrs_mut(&mut self, id: InstrSeqId) -> &mut Vec<(Instr, InstrLocId)>
        requires { Knows self.old id }
        ensures* writes_back { sem 𝓛
            (Lends the_row instrs_row self.entry result (λ w. with_instrs self.old id w.items)) }
        ensures value { result.now.items ≡ instrs_of self.old id }
    {
        let seq = self.seq_mut(id);
        instrs_of_mut(seq)
    }

    // A new sequence without instructions, which no instruction names.
    fn add_seq(&mut self, ty: InstrSeqType) -> Result<InstrSeqId, AllocError>
        ensures id { IfOk result (λ id. id ≡ next_seq self.old) }
        ensures ok { OnOk result (self.new ≡ with_new self.old ty) }
        ensures err { OnErr result (self.new ≡ self.old) }
    {
        self.seqs.add(ty)
    }

    // Adds an instruction at the end of a known sequence.
    #[tactic(auto, using(crate::proofs::BodyLemmas::same_instrs))]
    fn push(&mut self, id: InstrSeqId, instr: Instr) -> Result<(), AllocError>
        requires { Knows self.old id }
        ensures ok { OnOk result (self.new ≡ with_instr self.old id instr) }
        ensures err { OnErr result (self.new ≡ self.old) }
    {
        let instrs = self.instrs_mut(id);
        instrs.push((instr, InstrLocId::default()))?;
        Ok(())
    }

    // Puts an instruction into a known sequence, at this position.
    #[tactic(auto, using(crate::proofs::BodyLemmas::same_instrs))]
    fn insert(&mut self, id: InstrSeqId, position: usize, instr: Instr) -> Result<(), AllocError>
        requires known { Knows self.old id }
        requires position { position ≤ length (instrs_of self.old id) }
        ensures ok { OnOk result (self.new ≡ with_instr_at self.old id position instr) }
        ensures err { OnErr result (self.new ≡ self.old) }
    {
        let instrs = self.instrs_mut(id);
        instrs.insert(position, (instr, InstrLocId::default()))?;
        Ok(())
    }
}

impl Clone for FunctionBuilder {
    ghost is_clone = { λ f g. g ≡ f };

    fn clone(&self) -> Result<FunctionBuilder, AllocError> {
        Ok(FunctionBuilder {
            seqs: self.seqs.clone()?,
            ty: self.ty,
            entry: self.entry,
            name: self.name.clone()?,
        })
    }
}

ghost use Rattle.ir_instr.specs.contracts.instr_seq.InstrSeq.{the_row as seq_row};
ghost use Rattle.walrus_functions.specs.Rows.{instrs_row};

// The instructions of a sequence, for writing.
fn instrs_of_mut(seq: &mut InstrSeq) -> &mut Vec<(Instr, InstrLocId)>
    ensures* writes_back { sem 𝓛
        (Lends seq_row instrs_row seq.entry result (λ w. record (seq.old) { instrs = w.items })) }
    ensures value { result.now.items ≡ seq.old.instrs }
{
    &mut seq.instrs
}

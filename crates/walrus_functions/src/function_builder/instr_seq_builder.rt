//! Adding instructions to a sequence.
ghost use Rattle.std.specs.Prelude.{◌≡◌, ◌≤◌, length, OnOk, IfErr};
ghost use Rattle.std.specs.Borrow.{sem, Lends};
ghost use Rattle.ir_instr.specs.declared.instr.Instr.{Instr};
ghost use Rattle.walrus_functions.specs.Body.{instrs_of, with_instrs};

use super::FunctionBuilder;
use crate::BuildError;
use walrus_ir::{Instr, InstrLocId, InstrSeqId};

/// Adds instructions to one sequence of a function that is being built.
///
/// An added instruction has the default location. Where memory is refused, a call that adds returns
/// `Memory`, and nothing has changed. All calls except `id`, `builder`, `builder_mut` and the ones
/// that take closures require that the sequence is known. It is known from the start, unless the
/// whole function is replaced through `builder_mut`.
///
/// # Instructions that have sequences inside
///
/// `block`, `loop_` and `if_else`, and the same with `_at`, make a new sequence, without
/// instructions, and have a closure fill it. `if_else` makes two. Then they look up their own
/// sequence, the parent, as the closures have left it, and add the instruction to it.
///
/// An `Err` of a closure is returned at once. `NoParent` comes where the parent isn't known by
/// then, and `Position` where it is known and the position is past its end by then. After an error
/// the call has added no instruction to the parent, but the new sequences and all that the closures
/// did stay.
///
/// A closure has to accept a builder of the new sequence, and may not replace the builder that it
/// is lent by another one.
#[derive(Drop)]
pub struct InstrSeqBuilder<'a> {
    pub(super) id: InstrSeqId,
    pub(super) builder: &'a mut FunctionBuilder,
}

impl<'a> InstrSeqBuilder<'a> {
    ghost use Rattle.walrus_functions.specs.Building.{seq_id, function_of, with_function, IsKnown, StayKnown, Stays, Adds, AddsAt, AddsNothing, AddsOrNothing};
    ghost use Rattle.walrus_functions.specs.Rows.{self_row, function_row, instrs_row};

    /// The id of the sequence.
    pub fn id(&self) -> InstrSeqId
        ensures { result ≡ seq_id self.now }
    {
        self.id
    }

    /// The function with the sequence.
    pub fn builder(&self) -> &FunctionBuilder
        ensures { result.now ≡ function_of self.now }
    {
        &*self.builder
    }

    /// The function with the sequence, for writing. Another function can be put in its place, which
    /// may not have the sequence.
    pub fn builder_mut(&mut self) -> &mut FunctionBuilder
        ensures* writes_back { sem 𝓛
            (Lends self_row function_row self.entry result (with_function self.old)) }
        ensures value { result.now ≡ function_of self.old }
    {
        &mut *self.builder
    }

    /// The instructions of the sequence, each with its location.
    pub fn instrs(&self) -> &[(Instr, InstrLocId)]
        requires { IsKnown self.now }
        ensures { result.now ≡ instrs_of (function_of self.now) (seq_id self.now) }
    {
        let seq = self.builder.seq(self.id);
        seq.instrs.as_slice()
    }

    /// The instructions of the sequence, each with its location, for writing. Nothing else of the
    /// function changes.
    pub fn instrs_mut(&mut self) -> &mut Vec<(Instr, InstrLocId)>
        requires { IsKnown self.old }
        ensures* writes_back { sem 𝓛 (Lends self_row instrs_row self.entry result (λ w.
            with_function self.old
            (with_instrs (function_of self.old) (seq_id self.old) w.items))) }
        ensures value { result.now.items ≡ instrs_of (function_of self.old) (seq_id self.old) }
    {
        let id = self.id;
        let builder = &mut *self.builder;
        builder.instrs_mut(id)
    }

    /// Adds an instruction at the end of the sequence. Where memory is refused nothing changes.
    ///
    /// # Example
    ///
    /// ```
    /// body.instr(Instr::Binop(Binop { op: BinaryOp::I32Add }))?;
    /// ```
    pub fn instr(&mut self, instr: Instr) -> Result<(), BuildError>
        requires { IsKnown self.old }
        ensures same { Stays self.old self.new }
        ensures known { StayKnown (function_of self.old) (function_of self.new) }
        ensures ok { OnOk result (Adds self.old self.new instr) }
        ensures err { IfErr result (AddsNothing self.old self.new) }
    {
        self.push(instr)
    }

    /// Puts an instruction into the sequence at this position, counted from 0. The position may not
    /// be past the end. Where memory is refused nothing changes.
    pub fn instr_at(&mut self, position: usize, instr: Instr) -> Result<(), BuildError>
        requires known { IsKnown self.old }
        requires position { position ≤ length (instrs_of (function_of self.old) (seq_id self.old)) }
        ensures same { Stays self.old self.new }
        ensures known { StayKnown (function_of self.old) (function_of self.new) }
        ensures ok { OnOk result (AddsAt self.old self.new position instr) }
        ensures err { IfErr result (AddsNothing self.old self.new) }
    {
        self.builder.insert(self.id, position, instr)?;
        Ok(())
    }

    // Adds an instruction at the end of the sequence.
    pub(super) fn push(&mut self, instr: Instr) -> Result<(), BuildError>
        requires { IsKnown self.old }
        ensures { AddsOrNothing self.old self.new result instr }
    {
        self.builder.push(self.id, instr)?;
        Ok(())
    }
}

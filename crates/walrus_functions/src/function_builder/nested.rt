//! Instructions that have sequences inside.
//! WebAssembly core specification, "Control Instructions" and "Structured Control Flow".
ghost use Rattle.std.specs.Prelude.{◌≡◌, ◌⊎◌, [], ◌∷◌, OnOk, IfOk, IfErr, Ok};
ghost use Rattle.ir_instr.specs.declared.instr.Instr.TheVariants as instr;

use super::InstrSeqBuilder;
use crate::BuildError;
use walrus_ir::{Block, IfElse, Instr, InstrSeqId, InstrSeqType, Loop};

impl<'a> InstrSeqBuilder<'a> {
    ghost use Rattle.walrus_functions.specs.Body.{next_seq};
    ghost use Rattle.walrus_functions.specs.Building.{seq_id, function_of, IsKnown, Stays};
    ghost use Rattle.walrus_functions.specs.NestedForms.{TakesNew, KeepsFunction, Fills, FailsToFill, AfterFilling, at_end, behind, Attaches, FailsToAttach, Nests, FailsToNest};

    /// Adds a `block` over a new sequence of this type, which `make_block` fills.
    ///
    /// # Example
    ///
    /// ```
    /// body.block(InstrSeqType::Simple(None), |block| {
    ///     block.i32_const(1337)?;
    ///     block.drop()
    /// })?;
    /// ```
    pub fn block<F: FnOnce(&mut InstrSeqBuilder<'_>) -> Result<(), BuildError>>(
        &mut self,
        ty: InstrSeqType,
        make_block: F,
    ) -> Result<(), BuildError>
        requires takes { TakesNew (F.pre make_block) (function_of self.old) ty }
        requires keeps { KeepsFunction (F.post make_block) (function_of self.old) ty }
        ensures same { Stays self.old self.new }
        ensures known { OnOk result (IsKnown self.new) }
        ensures ok { OnOk result (Nests (F.post make_block ∷ []) ty (at_end (seq_id self.old))
            (λ seq. instr.Block (record { seq = seq }))
            (function_of self.old) (function_of self.new)) }
        ensures err { IfErr result (λ e. FailsToNest (F.post make_block ∷ []) ty
            (at_end (seq_id self.old)) (function_of self.old) e (function_of self.new)) }
    {
        let seq = self.fill_new(ty, make_block)?;
        self.attach(Instr::Block(Block { seq }))
    }

    /// Adds a `loop` over a new sequence of this type, which `make_loop` fills.
    pub fn loop_<F: FnOnce(&mut InstrSeqBuilder<'_>) -> Result<(), BuildError>>(
        &mut self,
        ty: InstrSeqType,
        make_loop: F,
    ) -> Result<(), BuildError>
        requires takes { TakesNew (F.pre make_loop) (function_of self.old) ty }
        requires keeps { KeepsFunction (F.post make_loop) (function_of self.old) ty }
        ensures same { Stays self.old self.new }
        ensures known { OnOk result (IsKnown self.new) }
        ensures ok { OnOk result (Nests (F.post make_loop ∷ []) ty (at_end (seq_id self.old))
            (λ seq. instr.Loop (record { seq = seq }))
            (function_of self.old) (function_of self.new)) }
        ensures err { IfErr result (λ e. FailsToNest (F.post make_loop ∷ []) ty
            (at_end (seq_id self.old)) (function_of self.old) e (function_of self.new)) }
    {
        let seq = self.fill_new(ty, make_loop)?;
        self.attach(Instr::Loop(Loop { seq }))
    }

    /// Adds an `if` over two new sequences of this type. `consequent` fills the first, which runs
    /// where the condition is not zero, and then `alternative` the second.
    pub fn if_else<
        F: FnOnce(&mut InstrSeqBuilder<'_>) -> Result<(), BuildError>,
        G: FnOnce(&mut InstrSeqBuilder<'_>) -> Result<(), BuildError>,
    >(&mut self, ty: InstrSeqType, consequent: F, alternative: G) -> Result<(), BuildError>
        requires takes { TakesNew (F.pre consequent) (function_of self.old) ty }
        requires keeps { KeepsFunction (F.post consequent) (function_of self.old) ty }
        requires takes_second { AfterFilling (F.post consequent) ty (function_of self.old)
            (λ mid. TakesNew (G.pre alternative) mid ty) }
        requires keeps_second { AfterFilling (F.post consequent) ty (function_of self.old)
            (λ mid. KeepsFunction (G.post alternative) mid ty) }
        ensures same { Stays self.old self.new }
        ensures known { OnOk result (IsKnown self.new) }
        ensures ok { OnOk result
            (Nests (F.post consequent ∷ G.post alternative ∷ []) ty (at_end (seq_id self.old))
            (λ first second. instr.IfElse (record { consequent = first; alternative = second }))
            (function_of self.old) (function_of self.new)) }
        ensures err { IfErr result (λ e. FailsToNest (F.post consequent ∷ G.post alternative ∷ [])
            ty (at_end (seq_id self.old)) (function_of self.old) e (function_of self.new)) }
    {
        let same_ty = ty;
        let first = self.fill_new(ty, consequent)?;
        let second = self.fill_new(same_ty, alternative)?;
        self.attach(Instr::IfElse(IfElse {
            consequent: first,
            alternative: second,
        }))
    }

    /// Puts a `block` over a new sequence of this type, which `make_block` fills, at this position,
    /// counted from 0.
    pub fn block_at<F: FnOnce(&mut InstrSeqBuilder<'_>) -> Result<(), BuildError>>(
        &mut self,
        position: usize,
        ty: InstrSeqType,
        make_block: F,
    ) -> Result<(), BuildError>
        requires takes { TakesNew (F.pre make_block) (function_of self.old) ty }
        requires keeps { KeepsFunction (F.post make_block) (function_of self.old) ty }
        ensures same { Stays self.old self.new }
        ensures known { OnOk result (IsKnown self.new) }
        ensures ok { OnOk result
            (Nests (F.post make_block ∷ []) ty (behind (seq_id self.old) position)
            (λ seq. instr.Block (record { seq = seq }))
            (function_of self.old) (function_of self.new)) }
        ensures err { IfErr result (λ e. FailsToNest (F.post make_block ∷ []) ty
            (behind (seq_id self.old) position) (function_of self.old) e (function_of self.new)) }
    {
        let seq = self.fill_new(ty, make_block)?;
        self.attach_at(position, Instr::Block(Block { seq }))
    }

    /// Puts a `loop` over a new sequence of this type, which `make_loop` fills, at this position,
    /// counted from 0.
    pub fn loop_at<F: FnOnce(&mut InstrSeqBuilder<'_>) -> Result<(), BuildError>>(
        &mut self,
        position: usize,
        ty: InstrSeqType,
        make_loop: F,
    ) -> Result<(), BuildError>
        requires takes { TakesNew (F.pre make_loop) (function_of self.old) ty }
        requires keeps { KeepsFunction (F.post make_loop) (function_of self.old) ty }
        ensures same { Stays self.old self.new }
        ensures known { OnOk result (IsKnown self.new) }
        ensures ok { OnOk result
            (Nests (F.post make_loop ∷ []) ty (behind (seq_id self.old) position)
            (λ seq. instr.Loop (record { seq = seq }))
            (function_of self.old) (function_of self.new)) }
        ensures err { IfErr result (λ e. FailsToNest (F.post make_loop ∷ []) ty
            (behind (seq_id self.old) position) (function_of self.old) e (function_of self.new)) }
    {
        let seq = self.fill_new(ty, make_loop)?;
        self.attach_at(position, Instr::Loop(Loop { seq }))
    }

    /// Puts an `if` over two new sequences of this type, which `consequent` and then `alternative`
    /// fill, at this position, counted from 0.
    pub fn if_else_at<
        F: FnOnce(&mut InstrSeqBuilder<'_>) -> Result<(), BuildError>,
        G: FnOnce(&mut InstrSeqBuilder<'_>) -> Result<(), BuildError>,
    >(
        &mut self,
        position: usize,
        ty: InstrSeqType,
        consequent: F,
        alternative: G,
    ) -> Result<(), BuildError>
        requires takes { TakesNew (F.pre consequent) (function_of self.old) ty }
        requires keeps { KeepsFunction (F.post consequent) (function_of self.old) ty }
        requires takes_second { AfterFilling (F.post consequent) ty (function_of self.old)
            (λ mid. TakesNew (G.pre alternative) mid ty) }
        requires keeps_second { AfterFilling (F.post consequent) ty (function_of self.old)
            (λ mid. KeepsFunction (G.post alternative) mid ty) }
        ensures same { Stays self.old self.new }
        ensures known { OnOk result (IsKnown self.new) }
        ensures ok { OnOk result
            (Nests (F.post consequent ∷ G.post alternative ∷ []) ty
            (behind (seq_id self.old) position)
            (λ first second. instr.IfElse (record { consequent = first; alternative = second }))
            (function_of self.old) (function_of self.new)) }
        ensures err { IfErr result (λ e. FailsToNest (F.post consequent ∷ G.post alternative ∷ [])
            ty (behind (seq_id self.old) position) (function_of self.old) e (function_of self.new)) }
    {
        let same_ty = ty;
        let first = self.fill_new(ty, consequent)?;
        let second = self.fill_new(same_ty, alternative)?;
        self.attach_at(
            position,
            Instr::IfElse(IfElse {
                consequent: first,
                alternative: second,
            }),
        )
    }

    // The id of a new sequence of this type, which the closure has filled.
    fn fill_new<F: FnOnce(&mut InstrSeqBuilder<'_>) -> Result<(), BuildError>>(
        &mut self,
        ty: InstrSeqType,
        make: F,
    ) -> Result<InstrSeqId, BuildError>
        requires takes { TakesNew (F.pre make) (function_of self.old) ty }
        requires keeps { KeepsFunction (F.post make) (function_of self.old) ty }
        ensures same { Stays self.old self.new }
        ensures id { IfOk result (λ id. id ≡ next_seq (function_of self.old)) }
        ensures ok { OnOk result
            (Fills (F.post make) ty (function_of self.old) (Ok tt) (function_of self.new)) }
        ensures err { IfErr result (λ e.
            FailsToFill (F.post make) ty (function_of self.old) e (function_of self.new)) }
    {
        let id = self.builder.add_seq(ty)?;
        let mut inner = InstrSeqBuilder {
            id,
            builder: &mut *self.builder,
        };
        make(&mut inner)?;
        Ok(id)
    }

    // Adds an instruction at the end of the sequence, if the sequence is known.
    fn attach(&mut self, instr: Instr) -> Result<(), BuildError>
        ensures same { Stays self.old self.new }
        ensures known { OnOk result (IsKnown self.new) }
        ensures ok { OnOk result
            (Attaches (function_of self.old) (at_end (seq_id self.old)) instr (function_of self.new)) }
        ensures err { IfErr result (λ e. (function_of self.new ≡ function_of self.old)
            × FailsToAttach (function_of self.old) (at_end (seq_id self.old)) e) }
    {
        if !self.builder.contains_seq(self.id) {
            return Err(BuildError::NoParent);
        }
        self.builder.push(self.id, instr)?;
        Ok(())
    }

    // Puts an instruction into the sequence at this position, if the sequence is known and the
    // position is not past its end.
    fn attach_at(&mut self, position: usize, instr: Instr) -> Result<(), BuildError>
        ensures same { Stays self.old self.new }
        ensures known { OnOk result (IsKnown self.new) }
        ensures ok { OnOk result
            (Attaches (function_of self.old) (behind (seq_id self.old) position) instr
            (function_of self.new)) }
        ensures err { IfErr result (λ e. (function_of self.new ≡ function_of self.old)
            × FailsToAttach (function_of self.old) (behind (seq_id self.old) position) e) }
    {
        if !self.builder.contains_seq(self.id) {
            return Err(BuildError::NoParent);
        }
        if position > self.instrs().len() {
            return Err(BuildError::Position);
        }
        self.builder.insert(self.id, position, instr)?;
        Ok(())
    }
}

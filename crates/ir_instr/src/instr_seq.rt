//! Sequences of instructions.
ghost use Rattle.std.specs.Prelude.{◌≡◌};
ghost use Rattle.ir_instr.specs.Sequence.{empty_sequence};

use crate::{Instr, InstrLocId, InstrSeqType};
use std::alloc::{AllocError, Global};
use std::marker::Model;
use walrus_ty::Id;

/// The id of a sequence in its function.
pub type InstrSeqId = Id<InstrSeq>;

/// A sequence of instructions, such as the body of a block.
#[derive(Debug, Drop)]
pub struct InstrSeq {
    id: InstrSeqId,
    /// What it takes and what it leaves.
    pub ty: InstrSeqType,
    /// Its instructions in order, each with its location.
    pub instrs: Vec<(Instr, InstrLocId)>,
    /// The location of its end.
    pub end: InstrLocId,
}

impl Model for InstrSeq {
    ghost use Rattle.ir_instr.specs.Sequence.{Sequence};

    ghost Value = { Sequence };

    ghost view = { λ s. record { id = s.id; ty = s.ty; instrs = s.instrs.items; end = s.end } };
}

impl InstrSeq {
    /// The sequence with this id and type, without instructions, whose end has the default
    /// location. It takes no memory.
    pub fn new(alloc: Global, id: InstrSeqId, ty: InstrSeqType) -> InstrSeq
        ensures { result ≡ empty_sequence id ty }
    {
        InstrSeq {
            id,
            ty,
            instrs: Vec::new(alloc),
            end: InstrLocId::default(),
        }
    }

    /// The id that it was made with.
    pub fn id(&self) -> InstrSeqId
        ensures { result ≡ self.now.id }
    {
        self.id
    }
}

impl Clone for InstrSeq {
    ghost is_clone = { λ s t. t ≡ s };

    fn clone(&self) -> Result<InstrSeq, AllocError> {
        Ok(InstrSeq {
            id: self.id,
            ty: self.ty,
            instrs: self.instrs.clone()?,
            end: self.end,
        })
    }
}

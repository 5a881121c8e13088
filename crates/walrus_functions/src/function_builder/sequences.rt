//! The sequences of a function by id.
ghost use Rattle.std.specs.Prelude.{◌≡◌, ◌<◌, ◌↔◌, [], ◌∷◌, ◌++◌, length, slice_get, IsTrue, IfOk, OnOk, OnErr, Some};
ghost use Rattle.std.specs.Borrow.{sem};
ghost use Rattle.ir_instr.specs.Sequence.{empty_sequence};

use std::alloc::{AllocError, Global};
use std::marker::Model;
use walrus_ir::{Id, InstrSeq, InstrSeqId, InstrSeqType};

// Sequences by id. None of them is ever deleted, so contracts see the list of them, and an id is a
// place in it.
#[derive(Debug, Drop)]
pub(super) struct Sequences {
    items: Vec<InstrSeq>,
}

impl Model for Sequences {
    ghost use Rattle.std.specs.Prelude.{List};
    ghost use Rattle.ir_instr.specs.Sequence.{Sequence};

    ghost Value = { List Sequence };

    ghost view = { λ s. s.items.items };
}

impl Sequences {
    ghost use Rattle.walrus_functions.specs.Steps.SeqLends.{LendsAt};

    pub(super) fn new(alloc: Global) -> Sequences
        ensures { result ≡ [] }
    {
        Sequences {
            items: Vec::new(alloc),
        }
    }

    pub(super) fn len(&self) -> usize
        ensures { result ≡ length self.now }
    {
        self.items.len()
    }

    pub(super) fn contains(&self, id: InstrSeqId) -> bool
        ensures { IsTrue result ↔ (id < length self.now) }
    {
        id.index() < self.items.len()
    }

    pub(super) fn get(&self, id: InstrSeqId) -> &InstrSeq
        requires { id < length self.now }
        ensures { slice_get self.now id ≡ Some result.now }
    {
        &self.items[id.index()]
    }

    pub(super) fn get_mut(&mut self, id: InstrSeqId) -> &mut InstrSeq
        requires { id < length self.old }
        ensures* writes_back { sem 𝓛 (LendsAt self.entry id result) }
        ensures value { slice_get self.old id ≡ Some result.now }
    {
        &mut self.items[id.index()]
    }

    // Adds a sequence without instructions.
    pub(super) fn add(&mut self, ty: InstrSeqType) -> Result<InstrSeqId, AllocError>
        ensures id { IfOk result (λ id. id ≡ length self.old) }
        ensures ok { OnOk result (self.new ≡ self.old ++ empty_sequence (length self.old) ty ∷ []) }
        ensures err { OnErr result (self.new ≡ self.old) }
    {
        let alloc = *self.items.allocator();
        let id = Id::from_index(self.items.len());
        self.items.push(InstrSeq::new(alloc, id, ty))?;
        Ok(id)
    }
}

impl Clone for Sequences {
    ghost is_clone = { λ s t. t ≡ s };

    fn clone(&self) -> Result<Sequences, AllocError> {
        Ok(Sequences {
            items: self.items.clone()?,
        })
    }
}

//! A function that has a body.
//! WebAssembly core specification, "Functions".
ghost use Rattle.std.specs.Prelude.{◌≡◌, ◌↔◌, length, IsTrue, IsSome, IfSome, Some, slice_get, option_copied};
ghost use Rattle.std.specs.Borrow.{sem};
ghost use Rattle.walrus_functions.specs.Body.{Knows};

use crate::FunctionBuilder;
use std::alloc::AllocError;
use std::marker::Model;
use walrus_ir::{InstrSeq, InstrSeqId, LocalId};
use walrus_types::TypeId;

/// A function that has a body: its sequences of instructions by id, which of them runs first, its
/// type, its name, and its parameters. [`FunctionBuilder::local_func`] and
/// [`FunctionBuilder::finish`] make one.
#[derive(Debug, Drop)]
pub struct LocalFunction {
    builder: FunctionBuilder,
    /// The locals that are its parameters.
    pub args: Vec<LocalId>,
}

impl Model for LocalFunction {
    ghost use Rattle.walrus_functions.specs.FunctionWithArgs.{FunctionWithArgs};

    ghost Value = { FunctionWithArgs };

    ghost view = { λ f. record { body = f.builder; args = f.args.items } };
}

impl LocalFunction {
    ghost use Rattle.walrus_functions.specs.LocalLends.{LendsBlock, LendsBuilder};

    pub(crate) fn new(builder: FunctionBuilder, args: Vec<LocalId>) -> LocalFunction
        ensures { result ≡ record { body = builder; args = args.items } }
    {
        LocalFunction { builder, args }
    }

    /// The id of its type.
    pub fn ty(&self) -> TypeId
        ensures { result ≡ self.now.body.ty }
    {
        self.builder.ty()
    }

    /// The name that it was given last, if it was given one.
    pub fn name(&self) -> Option<&str>
        ensures { option_copied result ≡ self.now.body.name }
    {
        self.builder.name_text()
    }

    /// The id of the sequence that runs first, if there is one. It is a known id.
    pub fn entry(&self) -> Option<InstrSeqId>
        ensures value { result ≡ self.now.body.entry }
        ensures known { IfSome result (Knows self.now.body) }
    {
        self.builder.entry()
    }

    /// The id of the sequence that runs first. There must be an entry.
    pub fn entry_block(&self) -> InstrSeqId
        requires { IsSome self.now.body.entry }
        ensures value { self.now.body.entry ≡ Some result }
        ensures known { Knows self.now.body result }
    {
        self.builder.func_body_id()
    }

    /// The number of its sequences. Their ids count from 0, so the known ids are the ids below this
    /// number.
    pub fn block_count(&self) -> usize
        ensures { result ≡ length self.now.body.seqs }
    {
        self.builder.seq_count()
    }

    /// Whether there is a sequence with this id.
    pub fn contains_block(&self, id: InstrSeqId) -> bool
        ensures { IsTrue result ↔ Knows self.now.body id }
    {
        self.builder.contains_seq(id)
    }

    /// The sequence of a known id.
    pub fn block(&self, id: InstrSeqId) -> &InstrSeq
        requires { Knows self.now.body id }
        ensures { slice_get self.now.body.seqs id ≡ Some result.now }
    {
        self.builder.seq(id)
    }

    /// The sequence of a known id, for writing. Nothing else of the function changes. A whole
    /// sequence that is written over it takes its place, and has this id from then on, whatever its
    /// own `id()` says.
    pub fn block_mut(&mut self, id: InstrSeqId) -> &mut InstrSeq
        requires { Knows self.old.body id }
        ensures* writes_back { sem 𝓛 (LendsBlock self.entry id result) }
        ensures value { slice_get self.old.body.seqs id ≡ Some result.now }
    {
        self.builder.seq_mut(id)
    }

    /// The builder that it was made of.
    pub fn builder(&self) -> &FunctionBuilder
        ensures { result.now ≡ self.now.body }
    {
        &self.builder
    }

    /// The builder that it was made of, to go on building. Another builder can be put in its place.
    pub fn builder_mut(&mut self) -> &mut FunctionBuilder
        ensures* writes_back { sem 𝓛 (LendsBuilder self.entry result) }
        ensures value { result.now ≡ self.old.body }
    {
        &mut self.builder
    }
}

impl Clone for LocalFunction {
    ghost is_clone = { λ f g. g ≡ f };

    fn clone(&self) -> Result<LocalFunction, AllocError> {
        Ok(LocalFunction {
            builder: self.builder.clone()?,
            args: self.args.clone()?,
        })
    }
}

//! Laws of block types and of locals. Each function does nothing; its clauses are theorems, which a
//! caller gets by calling it.
ghost use Rattle.std.specs.Prelude.{◌≡◌, ◌<◌, ◌^◌, ◌↔◌, IsTrue};
ghost use Rattle.ir_instr.specs.declared.instr_seq_type.InstrSeqType.{InstrSeqType as BlockType};
ghost use Rattle.ir_instr.specs.LocalParts.{local_parts};
ghost use Rattle.ir_instr.specs.Locals.{LocalVariable};
ghost use Rattle.walrus_ty.specs.HashInput.{Fits, HashesBy};
ghost use Rattle.walrus_ty.specs.Value.{val_name};

use crate::{InstrSeqType, Local};
use std::hash::Hash;

/// Equal block types are the same in every part.
pub fn equal_block_types_are_the_same()
    ensures { (s t : BlockType) → (IsTrue (⟦<InstrSeqType as PartialEq>⟧.eq s t) ↔ (s ≡ t)) }
{}

/// Locals are equal exactly where their parts are: the id, the type and the bytes of the name.
pub fn equal_locals_are_the_same()
    ensures { (l m : LocalVariable) →
        (IsTrue (⟦<Local as PartialEq>⟧.eq l m) ↔ (local_parts l ≡ local_parts m)) }
{}

/// `Hash` looks at the same parts of a local as `==`: the id, the type and the bytes of the name.
pub fn local_hashes_agree()
    ensures { HashesBy local_parts (λ l. (l.id < 2 ^ 64) × Fits 64 (val_name l.ty))
        ⟦<Local as Hash>⟧.hash_input }
{}

//! What a walk has still to do.
ghost use Rattle.std.specs.Prelude.{◌≡◌, [], ◌∷◌, ◌++◌, OnOk};
ghost use Rattle.walrus_traversals.specs.declared.traversals.stack.Work.TheVariants.{Enter};

use std::alloc::AllocError;
use walrus_ir::InstrSeqId;

/// A piece of work.
#[derive(Clone, Copy)]
pub(crate) enum Work {
    /// A sequence from its start.
    Enter(InstrSeqId),
    /// A sequence from the instruction at a place on.
    Resume(InstrSeqId, usize),
}

impl From<InstrSeqId> for Work {
    ghost from_gives = { λ id work. work ≡ Enter id };

    fn from(id: InstrSeqId) -> Work {
        Work::Enter(id)
    }
}

/// Pushes the work of a whole sequence.
pub(super) fn push_enter(stack: &mut Vec<Work>, id: InstrSeqId) -> Result<(), AllocError>
    ensures ok { OnOk result (stack.new.items ≡ stack.old.items ++ Enter id ∷ []) }
{
    stack.push(Work::Enter(id))?;
    Ok(())
}

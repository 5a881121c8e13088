//! The sequences inside an instruction.
ghost use Rattle.std.specs.Prelude.{◌≡◌, [], ◌∷◌, OnOk, OnErr};
ghost use Rattle.std.specs.List.{flat_map};
ghost use Rattle.walrus_functions.specs.Nesting.{children, handlers};
ghost use Rattle.walrus_nesting.specs.Pushing.{Pushes, PushesBehind};

use std::alloc::AllocError;
use walrus_ir::{Instr, InstrSeqId, LegacyCatch};

/// Pushes the children of an instruction onto a stack, so that the first comes off first. Each is
/// pushed as what `T` makes of its id. The nesting check and both walks share this call.
///
/// The children are the sequences inside the instruction: the body of a `block`, a `loop`, a `try`
/// or a `try_table`, both sequences of an `if`, the handlers of a `try`. The label of a branch or
/// of a clause of `try_table` is no child (WebAssembly core specification, "Structured Control
/// Flow").
///
/// # Errors
///
/// Where memory is refused. Then what was on the stack is still there, below the children that were
/// pushed before: some of the last ones, or none.
///
/// # The children in order
///
/// ```
/// let mut stack: Vec<InstrSeqId> = Vec::new(alloc);
/// push_children(&mut stack, instr)?;
/// while let Some(child) = stack.pop() {
///     println!(rt; "{}", child.index())?;
/// }
/// ```
pub fn push_children<T: From<InstrSeqId> + Drop>(
    stack: &mut Vec<T>,
    instr: &Instr,
) -> Result<(), AllocError>
    ensures pushed { OnOk result
        (Pushes T.from_gives (children instr.now) stack.old.items stack.new.items) }
    ensures refused { OnErr result
        (PushesBehind T.from_gives (children instr.now) stack.old.items stack.new.items) }
{
    match instr {
        Instr::Block(x) => push(stack, x.seq),
        Instr::Loop(x) => push(stack, x.seq),
        Instr::TryTable(x) => push(stack, x.seq),
        Instr::IfElse(x) => {
            push(stack, x.alternative)?;
            push(stack, x.consequent)
        }
        Instr::Try(x) => {
            push_handlers(stack, x.catches.as_slice())?;
            push(stack, x.seq)
        }
        _ => Ok(()),
    }
}

// The handlers of the clauses of a `try`.
fn push_handlers<T: From<InstrSeqId> + Drop>(
    stack: &mut Vec<T>,
    clauses: &[LegacyCatch],
) -> Result<(), AllocError>
    ensures pushed { OnOk result
        (Pushes T.from_gives (flat_map handlers clauses.now) stack.old.items stack.new.items) }
    ensures refused { OnErr result (PushesBehind T.from_gives (flat_map handlers clauses.now)
        stack.old.items stack.new.items) }
{
    let mut left = clauses.len();
    while left > 0 {
        left -= 1;
        push_handler(stack, clauses[left])?;
    }
    Ok(())
}

fn push_handler<T: From<InstrSeqId> + Drop>(
    stack: &mut Vec<T>,
    clause: LegacyCatch,
) -> Result<(), AllocError>
    ensures pushed { OnOk result
        (Pushes T.from_gives (handlers clause) stack.old.items stack.new.items) }
    ensures refused { OnErr result
        (PushesBehind T.from_gives (handlers clause) stack.old.items stack.new.items) }
{
    match clause {
        LegacyCatch::Catch { handler, .. } => push(stack, handler),
        LegacyCatch::CatchAll { handler } => push(stack, handler),
        LegacyCatch::Delegate { .. } => Ok(()),
    }
}

#[tactic(auto, using(crate::proofs::Pushed::behind_first))]
fn push<T: From<InstrSeqId> + Drop>(stack: &mut Vec<T>, id: InstrSeqId) -> Result<(), AllocError>
    ensures pushed { OnOk result
        (Pushes T.from_gives (id ∷ []) stack.old.items stack.new.items) }
    ensures refused { OnErr result
        (PushesBehind T.from_gives (id ∷ []) stack.old.items stack.new.items) }
{
    stack.push(T::from(id))?;
    Ok(())
}

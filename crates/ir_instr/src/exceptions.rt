//! Exceptions, in the form of the specification and in the older one. WebAssembly core
//! specification, "Control Instructions"; `try` and `rethrow` are from the older exception handling
//! proposal.
ghost use Rattle.std.specs.Prelude.{◌≡◌};
ghost use Rattle.ir_instr.specs.declared.instr.Instr.TheVariants as instr;

use crate::{Instr, InstrSeqId};
use walrus_ty::{Listed, TagId};

/// A clause of `try_table`: for which exceptions it branches, where to, and with what.
#[derive(Clone, Copy, PartialEq, Eq, Debug)]
pub enum TryTableCatch {
    /// `catch`: an exception with this tag, with the values that it carries.
    Catch { tag: TagId, label: InstrSeqId },
    /// `catch_ref`: an exception with this tag, with its values and a reference to it.
    CatchRef { tag: TagId, label: InstrSeqId },
    /// `catch_all`: every exception, with nothing.
    CatchAll { label: InstrSeqId },
    /// `catch_all_ref`: every exception, with a reference to it.
    CatchAllRef { label: InstrSeqId },
}

/// A clause of the older `try`: what it does with an exception.
#[derive(Clone, Copy, PartialEq, Eq, Debug)]
pub enum LegacyCatch {
    /// `catch`: runs a sequence on an exception with this tag.
    Catch { tag: TagId, handler: InstrSeqId },
    /// `catch_all`: runs a sequence on every exception.
    CatchAll { handler: InstrSeqId },
    /// `delegate`: hands the exception on to the `try` that is this many labels out.
    Delegate { relative_depth: u32 },
}

/// `try_table`: runs a sequence, and branches on an exception by the first clause that takes it.
#[derive(Clone, PartialEq, Eq, Debug, Drop)]
pub struct TryTable {
    /// The sequence.
    pub seq: InstrSeqId,
    /// The clauses in order.
    pub catches: Listed<TryTableCatch>,
}

impl From<TryTable> for Instr {
    ghost from_gives = { λ x i. i ≡ instr.TryTable x };

    fn from(x: TryTable) -> Instr {
        Instr::TryTable(x)
    }
}

/// `try`: runs a sequence, and on an exception what the first clause that takes it says.
#[derive(Clone, PartialEq, Eq, Debug, Drop)]
pub struct Try {
    /// The sequence.
    pub seq: InstrSeqId,
    /// The clauses in order.
    pub catches: Listed<LegacyCatch>,
}

impl From<Try> for Instr {
    ghost from_gives = { λ x i. i ≡ instr.Try x };

    fn from(x: Try) -> Instr {
        Instr::Try(x)
    }
}

/// `throw`: throws an exception with the values taken.
#[derive(Clone, Copy, PartialEq, Eq, Debug)]
pub struct Throw {
    /// The tag of the exception.
    pub tag: TagId,
}

/// `throw_ref`: takes a reference to an exception and throws that exception.
#[derive(Clone, Copy, PartialEq, Eq, Debug)]
pub struct ThrowRef {}

/// `rethrow`: throws the exception that a clause of an older `try` has caught.
#[derive(Clone, Copy, PartialEq, Eq, Debug)]
pub struct Rethrow {
    /// How many labels out that clause is.
    pub relative_depth: u32,
}

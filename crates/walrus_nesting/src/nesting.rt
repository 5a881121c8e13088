//! The nesting check.
ghost use Rattle.std.specs.Prelude.{◌↔◌, IfOk};
ghost use Rattle.walrus_functions.specs.Nesting.{IsNested};
ghost use Rattle.walrus_nesting.specs.Certificates.{Shows, SaysNested};

mod search;

use search::Search;
use std::alloc::{AllocError, Global};
use walrus_functions::LocalFunction;
use walrus_ir::InstrSeqId;

/// What [`check_nesting`] returns, with what shows that it is so.
#[derive(Clone, PartialEq, Eq, Debug, Drop)]
pub enum Nesting {
    /// The body is nested. The list holds what is reached from the start and nothing else, each
    /// sequence once and after its children: the start stands last.
    Nested(Vec<InstrSeqId>),
    /// A sequence stands in itself.
    Cycle {
        /// Known sequences, the start first, each a child of the one before.
        path: Vec<InstrSeqId>,
        /// The place in the path of a child of its last.
        back_to: usize,
    },
    /// An id is reached that no sequence has. It is the last of this path, which begins with the
    /// start, and in which each is a child of the one before; all others in it are known.
    Unknown(Vec<InstrSeqId>),
}

/// Tells whether a body is nested from `start`: whether every sequence that is reached from there
/// through children is known, and none of them stands in itself. The walks ask for a body that is.
///
/// The children of a sequence are those of its instructions in order: the sequences of `Block`,
/// `Loop`, `IfElse`, `Try` and `TryTable`, and the handlers of a `Try`, not the labels that a
/// `TryTable` branches to (WebAssembly core specification, "Structured Control Flow", where a body
/// is nested by its grammar). A sequence may be the child of several.
///
/// Of several faults it returns the first that a search in depth meets, children in order. Each
/// sequence is entered at most once, so time and memory are linear in the size of the body; the
/// search is not on the call stack, so the depth of a body is bounded by memory alone.
///
/// # Errors
///
/// Where memory is refused.
///
/// # Which sequences are reached
///
/// ```
/// fn reached(alloc: Global, func: &LocalFunction) -> Result<Option<usize>, AllocError> {
///     let Some(entry) = func.entry() else {
///         return Ok(Some(0));
///     };
///     match check_nesting(alloc, func, entry)? {
///         Nesting::Nested(sequences) => Ok(Some(sequences.len())),
///         Nesting::Cycle { .. } | Nesting::Unknown(_) => Ok(None),
///     }
/// }
/// ```
pub fn check_nesting(
    alloc: Global,
    func: &LocalFunction,
    start: InstrSeqId,
) -> Result<Nesting, AllocError>
    ensures shows { IfOk result (Shows func.now.body start) }
    ensures exact { IfOk result (λ n. SaysNested n ↔ IsNested func.now.body start) }
{
    let mut search = Search::new(alloc, func, start)?;
    let found = search.run(func)?;
    search.verdict(found)
}

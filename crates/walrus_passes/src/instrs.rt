//! Passes that change the instructions of a function one by one.
ghost use Rattle.std.specs.Prelude.{◌≡◌};
ghost use Rattle.std.specs.List.{AllZip};
ghost use Rattle.walrus_passes.specs.MappedInstrs.{IsMapped, IsMappedSequence, IsMappedItem, Leaves};

use walrus_functions::LocalFunction;
use walrus_ir::{Id, Instr, InstrLocId, InstrSeq};

/// Changes each instruction of a function by the closure.
///
/// All sequences of the function are gone through in the order of their ids, each once, also those
/// that are not reached from its entry. Nothing else of the function changes: each instruction
/// stays at its place with its location, and sequences keep their types and their ends.
///
/// It takes no memory, and a time linear in the size of the function, if a call of the closure
/// takes constant time. The body need not be nested.
///
/// # Another memory for all loads
///
/// ```
/// map_instrs(&mut func, |instr| {
///     if let Instr::Load(x) = instr {
///         x.memory = memory;
///     }
/// });
/// ```
pub fn map_instrs<F: Fn(&mut Instr)>(func: &mut LocalFunction, change: F)
    requires { F.IsAlwaysCallable change }
    ensures { IsMapped (Leaves (F.post change)) func.old func.new }
{
    for index in 0..func.block_count() {
        map_seq(func.block_mut(Id::from_index(index)), &change);
    }
}

// The same for the instructions of one sequence.
fn map_seq<F: Fn(&mut Instr)>(seq: &mut InstrSeq, change: &F)
    requires { F.IsAlwaysCallable change.now }
    ensures { IsMappedSequence (Leaves (F.post change.now)) seq.old seq.new }
{
    map_items(&mut seq.instrs, change);
}

fn map_items<F: Fn(&mut Instr)>(items: &mut Vec<(Instr, InstrLocId)>, change: &F)
    requires { F.IsAlwaysCallable change.now }
    ensures { AllZip (IsMappedItem (Leaves (F.post change.now))) items.old.items items.new.items }
{
    for i in 0..items.len() {
        map_item(&mut items[i], change);
    }
}

fn map_item<F: Fn(&mut Instr)>(item: &mut (Instr, InstrLocId), change: &F)
    requires { F.IsAlwaysCallable change.now }
    ensures { IsMappedItem (Leaves (F.post change.now)) item.old item.new }
{
    change(&mut item.0);
}

//! Worked walks.
ghost use Rattle.std.specs.Prelude.{ℕ, List, OnOk};
ghost use Rattle.walrus_body.specs.FieldMaps.{IsMapped};
ghost use Rattle.walrus_body.specs.Nesting.{IsNested};
ghost use Rattle.walrus_body.specs.Unfolding.{Unfolds};
ghost use Rattle.walrus_body_tests.specs.Adding.{adding_at};

use super::adder::Adder;
use super::changer::{Change, make_changes};
use super::*;
use crate::calls::{HookCall, are_changed_before};
use crate::functions::{IN_ORDER, empty_entry, shared, test_function};
use crate::log::{ALL, Full, Log, say, walk_whole};
use walrus_body::traversals_mut_laws;

fn adder(alloc: Global, limit: usize) -> Adder {
    Adder {
        log: Log::new(alloc, limit),
    }
}

// A whole walk adds one to the constants of each sequence as often as it visits the sequence, and
// changes nothing else. Another walk may follow at once.
fn add_to_constants(
    alloc: Global,
    visitor: &mut Adder,
    func: &mut LocalFunction,
    start: InstrSeqId,
) -> Result<(), WalkError<Full>>
    requires { IsNested func.old.body start }
    ensures added { OnOk result ((visits : List ℕ) × Unfolds func.old.body start visits
        × IsMapped adding_at visits func.old.body func.new.body) }
    ensures nested { IsNested func.new.body start }
{
    traversals_mut_laws::field_maps_map_the_body::<Adder>();
    dfs_pre_order_mut(alloc, visitor, func, start)
}

// Walks from the sequence 0 of a body that is nested.
fn walk_mut(
    rt: &impl Abort,
    alloc: Global,
    visitor: &mut Adder,
    func: &mut LocalFunction,
) -> Result<(), WalkError<Full>> {
    assert_nested(rt, alloc, func);
    add_to_constants(alloc, visitor, func, Id::from_index(0))
}

// The hook calls of a walk that no hook refuses.
fn change_whole(rt: &impl Abort, alloc: Global, func: &mut LocalFunction) -> Vec<HookCall> {
    let mut visitor = adder(alloc, ALL);
    assert_equal(rt, walk_mut(rt, alloc, &mut visitor, func), Ok(()));
    visitor.log.calls
}

const FIRST: &str =
    "start 1 drop block 6 drop try tag 10 drop end start 7 drop end start 8 drop end start 9 drop end start 2 drop if-else 5 drop end start 3 drop end start 4 drop end";

const SECOND: &str =
    "start 2 drop block 7 drop try tag 11 drop end start 8 drop end start 9 drop end start 10 drop end start 3 drop if-else 6 drop end start 4 drop end start 5 drop end";

#[test]
fn children_of_the_last_instruction_come_first(rt: HostRuntime) {
    let alloc = rt.alloc();
    let mut func = test_function(&rt, alloc);
    say(&rt, alloc, &change_whole(&rt, alloc, &mut func), FIRST);
    say(&rt, alloc, &change_whole(&rt, alloc, &mut func), SECOND);
}

// The words of a walk in order where each constant is one greater.
const IN_ORDER_AFTER: &str =
    "start 2 drop block start 3 drop if-else start 4 drop end start 5 drop end 6 drop end 7 drop try tag start 8 drop end start 9 drop end start 10 drop end 11 drop end";

#[test]
fn a_walk_in_order_sees_each_constant_changed_and_all_else_as_before(rt: HostRuntime) {
    let alloc = rt.alloc();
    let mut func = test_function(&rt, alloc);
    let before = walk_whole(&rt, alloc, &func).calls;
    say(&rt, alloc, &before, IN_ORDER);
    change_whole(&rt, alloc, &mut func);
    let after = walk_whole(&rt, alloc, &func).calls;
    say(&rt, alloc, &after, IN_ORDER_AFTER);
    assert!(rt; are_changed_before(before.len(), &before, &after));
}

// The constant at the head of sequence 1.
fn constant(func: &LocalFunction) -> Option<i32> {
    match instrs_of(func, 1)? {
        [(Instr::Const(constant), _), ..] => match constant.value {
            Value::I32(n) => Some(n),
            _ => None,
        },
        _ => None,
    }
}

#[test]
fn a_shared_sequence_is_changed_twice(rt: HostRuntime) {
    let alloc = rt.alloc();
    let mut func = shared(&rt, alloc);
    assert_equal(&rt, change_whole(&rt, alloc, &mut func).len(), 15);
    assert_equal(&rt, constant(&func), Some(7));
}

// The entry has 7 hook calls: start, type, two blocks with one sequence id each, end. The shared
// sequence has 4: start, constant, value, end.
#[test]
fn a_refused_hook_leaves_what_the_hooks_before_it_did(rt: HostRuntime) {
    let alloc = rt.alloc();
    for (limit, left) in [(0, 5), (8, 5), (9, 6), (12, 6), (13, 7)] {
        let mut func = shared(&rt, alloc);
        let (visitor, answer) = make_changes(&rt, alloc, &mut func, Change::AddToConstants, limit);
        assert_equal(&rt, answer, Err(WalkError::Hook(Full(limit))));
        assert_equal(&rt, visitor.log.calls.len(), limit);
        assert_equal(&rt, constant(&func), Some(left));
    }
}

// How many of the calls are for types, and how many for starts.
fn count(calls: &[HookCall]) -> (usize, usize) {
    let types = calls
        .iter()
        .filter(|call| matches!(call, HookCall::Ty(_)))
        .count();
    let starts = calls
        .iter()
        .filter(|call| matches!(call, HookCall::Start(_)))
        .count();
    (types, starts)
}

// Every hook call in turn is refused, those for the types of the seven sequences among them: the
// log is that of the whole walk, cut there, the error is that of the refused call, and the body is
// changed by the calls before it alone, as another walk sees.
#[test]
fn a_refusing_hook_cuts_the_walk(rt: HostRuntime) {
    let alloc = rt.alloc();
    let whole = change_whole(&rt, alloc, &mut test_function(&rt, alloc));
    assert_equal(&rt, count(&whole), (7, 7));
    for limit in 0..whole.len() {
        let mut func = test_function(&rt, alloc);
        let mut cut = adder(alloc, limit);
        let answer = walk_mut(&rt, alloc, &mut cut, &mut func);
        assert_equal(&rt, answer, Err(WalkError::Hook(Full(limit))));
        assert!(rt; cut.log.calls.as_slice() == &whole[..limit]);
        let again = change_whole(&rt, alloc, &mut func);
        assert!(rt; are_changed_before(limit, &whole, &again));
    }
}

// A walk over an entry without instructions has these calls, and leaves one `drop` in it.
fn adds_a_drop(rt: &impl Abort, alloc: Global, at: Change, want: &[HookCall]) {
    let mut func = empty_entry(rt, alloc);
    let (visitor, answer) = make_changes(rt, alloc, &mut func, at, ALL);
    assert_equal(rt, answer, Ok(()));
    let instrs = instrs_of(&func, 0).expect(rt, "a sequence");
    assert!(rt; matches!(instrs, [(Instr::Drop(_), _)]));
    assert!(rt; visitor.log.calls.as_slice() == want);
}

#[test]
fn an_instruction_that_the_start_hook_adds_is_visited(rt: HostRuntime) {
    let want = [HookCall::Start(0), HookCall::Dropping, HookCall::End(0)];
    adds_a_drop(&rt, rt.alloc(), Change::DropAtStart, &want);
}

#[test]
fn an_instruction_that_the_end_hook_adds_is_not(rt: HostRuntime) {
    let want = [HookCall::Start(0), HookCall::End(0)];
    adds_a_drop(&rt, rt.alloc(), Change::DropAtEnd, &want);
}

#[test]
fn a_body_of_ten_thousand_levels_is_walked(rt: HostRuntime) {
    let alloc = rt.alloc();
    let mut func = chain(&rt, alloc, 10_000);
    let calls = change_whole(&rt, alloc, &mut func);
    // of each sequence a start and an end, and of each block the instruction and its sequence
    assert_equal(&rt, calls.len(), 40_002);
    assert_equal(&rt, count(&calls), (0, 10_001));
}

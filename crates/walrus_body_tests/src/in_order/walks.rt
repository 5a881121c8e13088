//! Worked walks.
use super::*;
use crate::calls::HookCall;
use crate::functions::{IN_ORDER, shared, test_function, try_table_function};
use crate::log::{Full, say, walk, walk_whole};
use walrus_body::WalkError;
use walrus_ir::{BrOnCast, Select};
use walrus_types::{AbstractHeapType, HeapType, ModuleTypes, RefType, ValType};

// A whole walk has these words.
fn says(rt: &impl Abort, alloc: Global, func: &LocalFunction, text: &str) {
    say(rt, alloc, &walk_whole(rt, alloc, func).calls, text);
}

#[test]
fn sequences_are_visited_in_order(rt: HostRuntime) {
    let alloc = rt.alloc();
    let func = test_function(&rt, alloc);
    says(&rt, alloc, &func, IN_ORDER);
}

// Every hook call in turn is refused: the log is that of the whole walk, cut there, and the error
// is that of the refused call.
#[test]
fn a_refusing_hook_cuts_the_walk(rt: HostRuntime) {
    let alloc = rt.alloc();
    let func = test_function(&rt, alloc);
    let whole = walk_whole(&rt, alloc, &func);
    for limit in 0..whole.calls.len() {
        let (log, answer) = walk(&rt, alloc, &func, limit);
        assert_equal(&rt, answer, Err(WalkError::Hook(Full(limit))));
        assert!(rt; log.calls.as_slice() == &whole.calls[..limit]);
    }
}

#[test]
fn labels_of_a_try_table_are_not_entered(rt: HostRuntime) {
    let alloc = rt.alloc();
    let func = try_table_function(&rt, alloc);
    let text = "start 1 drop try-table tag start 5 drop end 99 drop end";
    says(&rt, alloc, &func, text);
}

#[test]
fn fields_follow_their_instruction(rt: HostRuntime) {
    let alloc = rt.alloc();
    let mut types = ModuleTypes::new(alloc);
    let mut f = FunctionBuilder::new(alloc, &mut types, &[], &[]).expect(&rt, "memory");
    let mut b = f.func_body();
    b.call_indirect(id(0), id(1)).expect(&rt, "memory");
    let func = f.local_func(Vec::new(alloc));
    let log = walk_whole(&rt, alloc, &func);
    let want = [
        HookCall::Start(0),
        HookCall::Ty(1),
        HookCall::Other,
        HookCall::Ty(0),
        HookCall::Table(1),
        HookCall::End(0),
    ];
    assert!(rt; log.calls.as_slice() == want.as_slice());
    let (log, answer) = walk(&rt, alloc, &func, 3);
    assert_equal(&rt, answer, Err(WalkError::Hook(Full(3))));
    assert!(rt; log.calls.as_slice() == &want[..3]);
}

fn funcref() -> ValType {
    ValType::Ref(RefType {
        nullable: true,
        heap_type: HeapType::Abstract(AbstractHeapType::Func),
    })
}

#[test]
fn heap_types_are_reported_whole(rt: HostRuntime) {
    let alloc = rt.alloc();
    let mut f = empty(alloc);
    let cast = Instr::BrOnCast(BrOnCast {
        block: id(0),
        from_nullable: true,
        from_heap_type: HeapType::Abstract(AbstractHeapType::Any),
        to_nullable: true,
        to_heap_type: HeapType::Concrete(id(3)),
    });
    let select = Instr::Select(Select {
        ty: Some(funcref()),
    });
    let ty = InstrSeqType::Simple(Some(funcref()));
    let instrs = vec![in alloc; cast, select].expect(&rt, "memory");
    add(alloc, &mut f, ty, instrs).expect(&rt, "memory");
    let func = f.local_func(Vec::new(alloc));
    let log = walk_whole(&rt, alloc, &func);
    let want = [
        HookCall::Start(0),
        HookCall::AbstractHeap(AbstractHeapType::Func),
        HookCall::BrOnCast,
        HookCall::Seq(0),
        HookCall::AbstractHeap(AbstractHeapType::Any),
        HookCall::ConcreteHeap(3),
        HookCall::Select,
        HookCall::End(0),
    ];
    assert!(rt; log.calls.as_slice() == want.as_slice());
}

// A sequence that two blocks name is visited for each.
#[test]
fn a_shared_sequence_is_visited_each_time(rt: HostRuntime) {
    let func = shared(&rt, rt.alloc());
    let text = "start block start 5 end block start 5 end end";
    says(&rt, rt.alloc(), &func, text);
}

#[test]
fn depth_of_a_walk_is_bounded_by_memory_alone(rt: HostRuntime) {
    let alloc = rt.alloc();
    let func = chain(&rt, alloc, 10_000);
    let log = walk_whole(&rt, alloc, &func);
    let starts = log
        .calls
        .iter()
        .filter(|call| matches!(call, HookCall::Start(_)))
        .count();
    assert_equal(&rt, starts, 10_001);
}

#[test]
fn errors_print(rt: HostRuntime) {
    let alloc = rt.alloc();
    let memory: WalkError<Full> = WalkError::Memory;
    let text = format!(in alloc; "{memory}").expect(&rt, "memory");
    assert_equal(&rt, text.as_str(), "out of memory");
    let hook = WalkError::Hook(Full(3));
    let text = format!(in alloc; "{hook}").expect(&rt, "memory");
    assert_equal(&rt, text.as_str(), "no room for call 3");
}

#[test]
fn a_cloned_error_is_the_same(rt: HostRuntime) {
    let hook = WalkError::Hook(Full(3));
    let same = hook.clone().expect(&rt, "memory");
    assert_equal(&rt, same, WalkError::Hook(Full(3)));
    let memory: WalkError<Full> = WalkError::Memory;
    let same = memory.clone().expect(&rt, "memory");
    assert_equal(&rt, same, WalkError::Memory);
}

//! Calls that add an instruction without sequences inside, each with every request refused.
use super::super::calls::{PlainCall, ROWS, add};
use super::super::refusals::begin_again;
use super::super::texts::is;
use super::super::*;
use walrus_ir::InstrSeqId;

// The entry must have this instruction this many times, and still be the one sequence and the
// entry.
fn shows(rt: &impl Abort, alloc: Global, f: &mut FunctionBuilder, text: &str, count: usize) {
    let entry: InstrSeqId = Id::from_index(0);
    assert_equal(rt, f.entry(), Some(Id::from_index(0)));
    assert!(rt; f.contains_seq(entry) && !f.contains_seq(Id::from_index(1)));
    let body = f.instr_seq(entry);
    assert_equal(rt, body.instrs().len(), count);
    for (instr, _) in body.instrs() {
        is(rt, alloc, instr, text);
    }
}

// Makes the call for the entry. After a refusal it must have the instructions that it had, this
// many, and the call is made again.
fn add_again(
    rt: &impl Abort,
    alloc: Global,
    f: &mut FunctionBuilder,
    call: PlainCall,
    text: &str,
    count: usize,
) -> Result<(), BuildError> {
    let entry: InstrSeqId = Id::from_index(0);
    assert!(rt; f.contains_seq(Id::from_index(0)));
    let answer = add(alloc, &mut f.instr_seq(Id::from_index(0)), call);
    if answer.is_ok() {
        return answer;
    }
    assert_equal(rt, answer, Err(BuildError::Memory));
    shows(rt, alloc, f, text, count);
    assert!(rt; f.contains_seq(entry));
    add(alloc, &mut f.instr_seq(entry), call)
}

// Makes the call five times. Each time it must add its instruction.
fn adds_five(rt: &impl Abort, alloc: Global, call: PlainCall, text: &str) {
    let mut f = begin_again(alloc).expect(rt, "memory");
    for count in 0..5usize {
        add_again(rt, alloc, &mut f, call, text, count).expect(rt, "memory");
    }
    shows(rt, alloc, &mut f, text, 5);
}

#[test]
fn a_refused_instruction_is_not_added(rt: HostRuntime) {
    for (call, text) in ROWS {
        adds_five(&rt, rt.alloc(), *call, text);
    }
}

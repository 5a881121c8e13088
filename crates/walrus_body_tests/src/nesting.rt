//! Worked answers of the nesting check.
mod refusals;

use crate::assertions::assert_equal;
use crate::bodies::{body, chain, id};
use std::alloc::{AllocError, Global};
use std::process::Abort;
use walrus_body::{LocalFunction, Nesting, check_nesting};
use walrus_ir::InstrSeqId;

// A name, a body, the sequence from which it is checked, and the answer.
//
// Of two faults the first in the order of the instructions is answered.
const BODIES: &str = "\
a sequence named twice stands once           | block 1; if 2 2;              | 0 | nested 2 1 0
a cycle is answered                          | block 1; block 2; loop 1      | 0 | cycle 0 1 2 back to 1
a sequence that holds itself is a cycle      | block 0                       | 0 | cycle 0 back to 0
an unknown sequence is answered              | loop 9                        | 0 | unknown 0 9
an unknown start is answered                 |                               | 5 | unknown 5
a branch is no child                         | br 0                          | 0 | nested 0
an unknown sequence comes before a cycle     | block 9, block 0              | 0 | unknown 0 9
a cycle comes before an unknown sequence     | block 0, block 9              | 0 | cycle 0 back to 0
a cycle below comes before an unknown child  | block 1, block 9; block 0     | 0 | cycle 0 1 back to 0
an unknown child below comes before a cycle  | block 1, block 0; block 9     | 0 | unknown 0 1 9
handlers are children and labels are not     | try 1 2 3; ; ; try_table 2 0  | 0 | nested 1 2 3 0
";

fn columns(row: &str) -> [&str; 4] {
    let (name, rest) = row.split_once('|').unwrap_or((row, ""));
    let (body, rest) = rest.split_once('|').unwrap_or((rest, ""));
    let (start, answer) = rest.split_once('|').unwrap_or((rest, ""));
    [name, body, start, answer]
}

// The answer in words.
fn said(alloc: Global, answer: &Nesting) -> Result<String, AllocError> {
    let mut text = String::new(alloc);
    match answer {
        Nesting::Nested(seqs) => add_ids(&mut text, "nested", seqs.as_slice())?,
        Nesting::Cycle { path, back_to } => {
            add_ids(&mut text, "cycle", path.as_slice())?;
            write!(text, " back to {back_to}")?;
        }
        Nesting::Unknown(path) => add_ids(&mut text, "unknown", path.as_slice())?,
    }
    Ok(text)
}

fn add_ids(text: &mut String, word: &str, seqs: &[InstrSeqId]) -> Result<(), AllocError> {
    text.push_str(word)?;
    for seq in seqs {
        write!(text, " {}", seq.index())?;
    }
    Ok(())
}

// The answer for the body of the row is that of the row.
fn is_answered(rt: &impl Abort, alloc: Global, row: &str) {
    let [name, text, start, wanted] = columns(row);
    let func = body(alloc, text).expect(rt, "memory");
    let start = id(start.trim().parse().ok().unwrap_or(0));
    let answer = check_nesting(alloc, &func, start).expect(rt, "memory");
    let answer = said(alloc, &answer).expect(rt, "memory");
    assert_eq!(rt; answer.as_str(), wanted.trim(), "{name}");
}

#[test]
fn bodies_are_judged(rt: HostRuntime) {
    for row in BODIES.lines() {
        is_answered(&rt, rt.alloc(), row);
    }
}

// The function is nested, and so many sequences are reached in it.
fn is_nested(rt: &impl Abort, alloc: Global, func: &LocalFunction, count: usize) {
    match check_nesting(alloc, func, id(0)).expect(rt, "memory") {
        Nesting::Nested(list) => assert_equal(rt, list.len(), count),
        _ => panic!(rt; "not nested"),
    }
}

// Sixty sequences, each with two blocks that name the next, and a last empty one. The first has these
// instructions too.
fn levels(rt: &impl Abort, alloc: Global, more: &str) -> LocalFunction {
    let mut text = String::new(alloc);
    write!(text, "block 1, block 1{more};").expect(rt, "memory");
    for next in 2..61 {
        write!(text, "block {next}, block {next};").expect(rt, "memory");
    }
    body(alloc, text.as_str()).expect(rt, "memory")
}

// Every path anew would be 2^60 steps.
#[test]
fn each_sequence_is_entered_once(rt: HostRuntime) {
    let alloc = rt.alloc();
    is_nested(&rt, alloc, &levels(&rt, alloc, ""), 61);
    let func = levels(&rt, alloc, ", block 99");
    let answer = check_nesting(alloc, &func, id(0)).expect(&rt, "memory");
    let answer = said(alloc, &answer).expect(&rt, "memory");
    assert_equal(&rt, answer.as_str(), "unknown 0 99");
}

#[test]
fn depth_is_bounded_by_memory_alone(rt: HostRuntime) {
    let func = chain(&rt, rt.alloc(), 10_000);
    is_nested(&rt, rt.alloc(), &func, 10_001);
}

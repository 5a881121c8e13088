//! Hook calls, as the visitors of the tests write them down.
use std::alloc::{AllocError, Global};
use std::process::Abort;
use walrus_ir::{Instr, Value};
use walrus_types::{AbstractHeapType, HeapType};

/// A hook call, as far as the tests look.
#[derive(Clone, Copy, PartialEq)]
pub(crate) enum HookCall {
    Start(usize),
    End(usize),
    Number(i32),
    Dropping,
    Block,
    IfElse,
    TryTable,
    Try,
    BrOnCast,
    Select,
    Other,
    Seq(usize),
    Local(usize),
    Memory(usize),
    Table(usize),
    Global(usize),
    Function(usize),
    Data(usize),
    Element(usize),
    Tag(usize),
    Ty(usize),
    Value(Value),
    AbstractHeap(AbstractHeapType),
    ConcreteHeap(usize),
    ExactHeap(usize),
}

/// The call for an instruction.
pub(crate) fn call_of(instr: &Instr) -> HookCall {
    match instr {
        Instr::Const(x) => match x.value {
            Value::I32(n) => HookCall::Number(n),
            _ => HookCall::Other,
        },
        Instr::Drop(_) => HookCall::Dropping,
        Instr::Block(_) => HookCall::Block,
        Instr::IfElse(_) => HookCall::IfElse,
        Instr::TryTable(_) => HookCall::TryTable,
        Instr::Try(_) => HookCall::Try,
        Instr::BrOnCast(_) => HookCall::BrOnCast,
        Instr::Select(_) => HookCall::Select,
        _ => HookCall::Other,
    }
}

/// The call for a heap type.
pub(crate) fn heap_call(heap_type: &HeapType) -> HookCall {
    match heap_type {
        HeapType::Abstract(of) => HookCall::AbstractHeap(*of),
        HeapType::Concrete(of) => HookCall::ConcreteHeap(of.index()),
        HeapType::Exact(of) => HookCall::ExactHeap(of.index()),
    }
}

/// A line for each instruction, with the fields that were reported of it: types, memories and
/// segments, and `other` for any other field.
pub(crate) fn fields_of(rt: &impl Abort, alloc: Global, calls: &[HookCall]) -> String {
    let mut text = String::new(alloc);
    for call in calls {
        add_field(rt, &mut text, *call);
    }
    text
}

fn add_field(rt: &impl Abort, text: &mut String, call: HookCall) {
    let (kind, number) = match call {
        HookCall::Start(_) | HookCall::End(_) => return,
        HookCall::Memory(index) => (" memory ", index),
        HookCall::Data(index) => (" data ", index),
        HookCall::Element(index) => (" element ", index),
        HookCall::Ty(index) => (" type ", index),
        HookCall::Other => return text.push('\n').expect(rt, "memory"),
        _ => return text.push_str(" other").expect(rt, "memory"),
    };
    write!(text, "{kind}{number}").expect(rt, "memory");
}

/// The words of the worked walks, one space between two: starts and ends, instructions and tags.
pub(crate) fn words(alloc: Global, calls: &[HookCall]) -> Result<String, AllocError> {
    let mut text = String::new(alloc);
    for call in calls {
        add_word(alloc, &mut text, *call)?;
    }
    Ok(text)
}

fn add_word(alloc: Global, text: &mut String, call: HookCall) -> Result<(), AllocError> {
    let word = match call {
        HookCall::Start(_) => "start",
        HookCall::End(_) => "end",
        HookCall::Number(n) => {
            return add_text(text, format!(in alloc; "{n}")?.as_str());
        }
        HookCall::Dropping => "drop",
        HookCall::Block => "block",
        HookCall::IfElse => "if-else",
        HookCall::TryTable => "try-table",
        HookCall::Try => "try",
        HookCall::Tag(_) => "tag",
        _ => return Ok(()),
    };
    add_text(text, word)
}

fn add_text(text: &mut String, word: &str) -> Result<(), AllocError> {
    if text.len() > 0 {
        text.push_str(" ")?;
    }
    text.push_str(word)
}

/// Whether the calls are the same, but that the constants have changed whose values are reported
/// among the first so many. A value is reported next after its constant.
pub(crate) fn are_changed_before(limit: usize, old: &[HookCall], new: &[HookCall]) -> bool {
    if old.len() != new.len() {
        return false;
    }
    for i in 0..old.len() {
        if new[i] != call_after(limit, i, old[i]) {
            return false;
        }
    }
    true
}

// What the call at this place becomes.
fn call_after(limit: usize, place: usize, call: HookCall) -> HookCall {
    match call {
        HookCall::Number(n) if place.wrapping_add(1) < limit => {
            HookCall::Number(n.wrapping_add(1))
        }
        HookCall::Value(Value::I32(n)) if place < limit => {
            HookCall::Value(Value::I32(n.wrapping_add(1)))
        }
        other => other,
    }
}

//! Which fields both walks report of instructions for memories and arrays, and in which order, and
//! that what a hook of the changing walk writes is kept. The tests in Rust have the other
//! instructions.
//!
//! A field that walrus marks as not to be visited has the number 90, which is never reported.
mod objects;
mod plain;

use crate::assertions::assert_equal;
use crate::bodies::{NOTHING, add, empty, id};
use crate::calls::fields_of;
use crate::changing::changer::{Change, Changer, make_changes};
use crate::log::{ALL, walk_whole};
use std::alloc::Global;
use std::process::Abort;
use walrus_body::LocalFunction;
use walrus_ir::Instr;

// Instructions, and what a walk is to report of them: a line for each.
#[derive(Drop)]
struct Rows {
    instrs: Vec<Instr>,
    wanted: String,
    has_room: bool,
}

impl Rows {
    fn new(alloc: Global) -> Rows {
        Rows {
            instrs: Vec::new(alloc),
            wanted: String::new(alloc),
            has_room: true,
        }
    }

    // An instruction, of which just these fields are reported, in this order.
    fn add(&mut self, instr: Instr, fields: &str) {
        let is_added = self.instrs.push(instr).is_ok();
        let is_wanted = write!(self.wanted, "\n {fields}").is_ok();
        self.has_room = self.has_room && is_added && is_wanted;
    }

    // Both walks report them. A second changing walk sees at each report what the first one wrote
    // there.
    fn are_reported(self, rt: &impl Abort, alloc: Global) {
        let Rows {
            instrs,
            wanted,
            has_room,
        } = self;
        assert!(rt; has_room);
        let mut func = function(rt, alloc, instrs);
        let log = walk_whole(rt, alloc, &func);
        let text = fields_of(rt, alloc, &log.calls);
        assert_equal(rt, text.as_str(), wanted.as_str());
        let first = numbered(rt, alloc, &mut func);
        let text = fields_of(rt, alloc, &first.log.calls);
        assert_equal(rt, text.as_str(), wanted.as_str());
        let second = numbered(rt, alloc, &mut func);
        assert!(rt; second.was_numbered && second.count == first.count);
    }
}

// The sequence 0 has these instructions.
fn function(rt: &impl Abort, alloc: Global, instrs: Vec<Instr>) -> LocalFunction {
    let mut f = empty(alloc);
    add(alloc, &mut f, NOTHING, instrs).expect(rt, "memory");
    f.local_func(Vec::new(alloc))
}

// The visitor of a whole walk that numbers the fields.
fn numbered(rt: &impl Abort, alloc: Global, func: &mut LocalFunction) -> Changer {
    let (visitor, answer) = make_changes(rt, alloc, func, Change::NumberFields, ALL);
    assert_equal(rt, answer, Ok(()));
    visitor
}

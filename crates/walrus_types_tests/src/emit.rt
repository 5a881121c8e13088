//! Tables made by hand, and the sections that they are written as.
mod refusals;

use crate::assertions::assert_equal;
use crate::fixtures::{columns, section_again};
use crate::table::calls::{id, make};
use std::alloc::Global;
use std::process::Abort;
use walrus_types::{EmitError, GroupAt, IdsToIndices, ModuleTypes, TypeId};

// The section of the table. It is asked for again after a refusal of memory.
fn emit_again(types: &ModuleTypes) -> Result<(Vec<GroupAt>, IdsToIndices), EmitError> {
    match types.emit() {
        Err(EmitError::Memory) => types.emit(),
        answer => answer,
    }
}

// The table is written as this section, and these types have its indices.
fn gives(
    rt: &impl Abort,
    alloc: Global,
    types: &ModuleTypes,
    wanted: &str,
    ids: &str,
) -> IdsToIndices {
    let wanted = section_again(alloc, wanted).expect(rt, "memory");
    let (groups, indices) = emit_again(types).expect(rt, "memory");
    assert!(rt; groups == wanted);
    for (place, word) in ids.split_whitespace().enumerate() {
        let index = indices.get_type_index(id(rt, word));
        assert_equal(rt, index.map(|index| index as usize), Ok(place));
    }
    indices
}

fn misses(rt: &impl Abort, types: &ModuleTypes, from: TypeId, to: TypeId) {
    let missing = EmitError::NoIndex { from, to };
    assert_equal(rt, emit_again(types).err(), Some(missing));
}

// A name, calls that make a table, its section, and the types that have its indices.
const WRITTEN: &str = "\
an entry type stops a run                               | add struct i = 0; add entry 0 = 1; add func = 2           | si f | 0 2
a run is sorted                                         | add struct i = 0; add func = 1                            | f si | 1 0
a type that was written over another comes twice        | add func = 0; add struct i = 1; copy_over 0 1; iter = 0 0 | f f  | 0 1
an entry type that was written over another is left out | add entry = 0; add struct i = 1; copy_over 0 1            |      |
";

// A name, calls that make a table, a type, and what it names though that has no index.
const MISSED: &str = "\
a deleted type             | add struct i = 0; add struct 0 = 1; delete 0      | 1 | 0
a later group              | add func = 0; add struct = 1; kind_mut 0 struct 1 | 0 | 1
an entry type              | add entry = 0; add struct 0 = 1                   | 1 | 0
a field before a supertype | add_composite 8 struct 9 = 0                      | 0 | 9
";

#[test]
fn tables_are_written(rt: HostRuntime) {
    for row in WRITTEN.lines() {
        let [name, calls, wanted, ids, _] = columns(row);
        let types = make(&rt, rt.alloc(), name, calls);
        gives(&rt, rt.alloc(), &types, wanted, ids);
    }
}

#[test]
fn a_type_without_an_index_is_missed(rt: HostRuntime) {
    for row in MISSED.lines() {
        let [name, calls, from, to, _] = columns(row);
        let types = make(&rt, rt.alloc(), name, calls);
        misses(&rt, &types, id(&rt, from), id(&rt, to));
    }
}

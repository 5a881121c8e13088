//! That sections are read, what is read of them, and which refusal comes.
mod refusals;

use crate::assertions::assert_equal;
use crate::error::says;
use crate::fixtures::section;
use crate::table::are;
use std::alloc::Global;
use std::process::Abort;
use walrus_types::{
    GroupAt, HashKeys, ModuleTypes, ReadError, RecGroup, SectionReader, TypeId, parse_types,
};

// Whether the group has these members and this mark.
fn is(group: &RecGroup, members: &[usize], is_explicit: bool) -> bool {
    group.is_explicit == is_explicit && are(group.types.as_slice(), members)
}

// The table and the ids of these groups.
fn read(rt: &impl Abort, alloc: Global, text: &str) -> (ModuleTypes, Vec<TypeId>) {
    let groups = section(alloc, text).expect(rt, "memory");
    parse_types(alloc, HashKeys::fixed(), groups.as_slice()).expect(rt, "memory")
}

// Pushes the groups of this text, until one is refused.
fn push(
    rt: &impl Abort,
    alloc: Global,
    reader: &mut SectionReader,
    text: &str,
) -> Result<(), ReadError> {
    for group in &section(alloc, text).expect(rt, "memory") {
        reader.push_group(group)?;
    }
    Ok(())
}

#[test]
fn a_refused_group_leaves_the_reader(rt: HostRuntime) {
    let alloc = rt.alloc();
    let mut reader = SectionReader::new(alloc);
    let refused = ReadError::BadIndex {
        entry: 1,
        index: 5,
        end: 2,
    };
    assert_equal(&rt, push(&rt, alloc, &mut reader, "f s5"), Err(refused));
    assert_equal(&rt, push(&rt, alloc, &mut reader, "( s1 )"), Ok(()));
    let (types, ids) = reader.finish();
    assert!(rt; are(ids.as_slice(), &[0, 1]));
    let groups = types.rec_groups();
    assert_equal(&rt, groups.len(), 2);
    assert!(rt; is(&groups[0], &[0], false));
    assert!(rt; is(&groups[1], &[1], true));
}

#[test]
fn an_equal_entry_is_sent_to_the_first(rt: HostRuntime) {
    let alloc = rt.alloc();
    let mut reader = SectionReader::new(alloc);
    assert_equal(&rt, push(&rt, alloc, &mut reader, "f f ( si )"), Ok(()));
    let (types, ids) = reader.finish();
    assert!(rt; are(ids.as_slice(), &[0, 0, 2]));
    let groups = types.rec_groups();
    assert_equal(&rt, groups.len(), 2);
    assert!(rt; is(&groups[0], &[0], false));
    assert!(rt; is(&groups[1], &[2], true));
    assert!(rt; !types.contains(TypeId::from_index(1)));
}

#[test]
fn an_empty_group_is_kept(rt: HostRuntime) {
    let (types, ids) = read(&rt, rt.alloc(), "( )");
    assert_equal(&rt, ids.len(), 0);
    assert_equal(&rt, types.rec_groups().len(), 1);
    assert!(rt; is(&types.rec_groups()[0], &[], true));
}

#[test]
fn refusals_print_what_is_wrong(rt: HostRuntime) {
    let bad = ReadError::BadIndex {
        entry: 0,
        index: 1,
        end: 1,
    };
    says(&rt, rt.alloc(), &bad, "entry 0 names 1, end 1");
    says(&rt, rt.alloc(), &ReadError::TooMany, "too many entries");
    says(&rt, rt.alloc(), &ReadError::Memory, "out of memory");
}

//! Sections that are read or cloned where memory is refused.
use crate::assertions::assert_equal;
use crate::fixtures::section_again;
use crate::table::{are, reference};
use std::alloc::Global;
use walrus_types::{GroupAt, HashKeys, ModuleTypes, ReadError, SectionReader, TypeId, parse_types};

// A function type, a `Rec` of two that name each other, the function type again, and a struct type.
const FOUR_GROUPS: &str = "f ( s2 f1 ) f s3";

// What was read of the first `count` of these groups: the id of each index, and how many groups the
// table has.
fn first_read(count: usize) -> (&'static [usize], usize) {
    match count {
        0 => (&[], 0),
        1 => (&[0], 1),
        2 => (&[0, 1, 2], 2),
        3 => (&[0, 1, 2, 0], 2),
        _ => (&[0, 1, 2, 0, 4], 3),
    }
}

// Whether this was read of the first `count` of these groups, and nothing else.
fn has_read(types: &ModuleTypes, ids: &[TypeId], count: usize) -> bool {
    let (indices, groups) = first_read(count);
    let plain = types.find(&[], &[]).map(|id| id.index());
    let namer = types.find(&[reference(1)], &[]).map(|id| id.index());
    for index in 0..6usize {
        if types.contains(TypeId::from_index(index)) != indices.iter().any(|i| *i == index) {
            return false;
        }
    }
    are(ids, indices)
        && types.rec_groups().len() == groups
        && plain == indices.first().copied()
        && namer == indices.get(2).copied()
}

// Pushes the first `count` groups. A push that is refused memory is made again.
fn push_again(alloc: Global, groups: &[GroupAt], count: usize) -> Result<SectionReader, ReadError> {
    let mut reader = SectionReader::new(alloc);
    for group in groups.iter().take(count) {
        match reader.push_group(group) {
            Err(ReadError::Memory) => reader.push_group(group)?,
            answer => answer?,
        }
    }
    Ok(reader)
}

#[test]
fn a_refused_group_is_not_read(rt: HostRuntime) {
    let groups = section_again(rt.alloc(), FOUR_GROUPS).expect(&rt, "memory");
    for (count, group) in groups.iter().enumerate() {
        let mut reader = push_again(rt.alloc(), groups.as_slice(), count).expect(&rt, "memory");
        let answer = reader.push_group(group);
        let (types, ids) = reader.finish();
        match answer {
            Ok(()) => assert!(rt; has_read(&types, ids.as_slice(), count + 1)),
            Err(error) => {
                assert_equal(&rt, error, ReadError::Memory);
                assert!(rt; has_read(&types, ids.as_slice(), count));
            }
        }
    }
}

#[test]
fn a_refused_group_is_read_when_it_is_pushed_again(rt: HostRuntime) {
    let groups = section_again(rt.alloc(), FOUR_GROUPS).expect(&rt, "memory");
    let ill = section_again(rt.alloc(), "( f s7 )").expect(&rt, "memory");
    let mut reader = push_again(rt.alloc(), groups.as_slice(), 4).expect(&rt, "memory");
    let bad = ReadError::BadIndex {
        entry: 6,
        index: 7,
        end: 7,
    };
    for group in &ill {
        assert_equal(&rt, reader.push_group(group), Err(bad));
    }
    let (types, ids) = reader.finish();
    assert!(rt; has_read(&types, ids.as_slice(), 4));
}

// What is read of the section. It is read again after a refusal of memory.
fn parse_again(alloc: Global, groups: &[GroupAt]) -> Result<(ModuleTypes, Vec<TypeId>), ReadError> {
    match parse_types(alloc, HashKeys::fixed(), groups) {
        Err(ReadError::Memory) => parse_types(alloc, HashKeys::fixed(), groups),
        answer => answer,
    }
}

#[test]
fn a_refused_section_is_read_when_it_is_given_again(rt: HostRuntime) {
    let groups = section_again(rt.alloc(), FOUR_GROUPS).expect(&rt, "memory");
    let (types, ids) = parse_again(rt.alloc(), groups.as_slice()).expect(&rt, "memory");
    assert!(rt; has_read(&types, ids.as_slice(), 4));
}

#[test]
fn a_refused_section_that_is_ill_has_its_error(rt: HostRuntime) {
    let groups = section_again(rt.alloc(), "f s2").expect(&rt, "memory");
    let bad = ReadError::BadIndex {
        entry: 1,
        index: 2,
        end: 2,
    };
    let refused = parse_again(rt.alloc(), groups.as_slice()).err();
    assert_equal(&rt, refused, Some(bad));
}

#[test]
fn a_refused_clone_of_a_section_comes_when_it_is_asked_for_again(rt: HostRuntime) {
    let source = section_again(rt.alloc(), FOUR_GROUPS).expect(&rt, "memory");
    let copy = source
        .clone()
        .or_else(|_| source.clone())
        .expect(&rt, "memory");
    assert!(rt; copy == source);
    assert_equal(&rt, copy.len(), 4);
}

//! Sections of a few groups, for the tests of types.
use std::alloc::{AllocError, Global};
use walrus_types::{CompAt, EntryAt, GroupAt, Listed};

fn function(alloc: Global) -> CompAt {
    CompAt::Function {
        params: Listed::from_vec(Vec::new(alloc)),
        results: Listed::from_vec(Vec::new(alloc)),
    }
}

fn structure(alloc: Global) -> CompAt {
    CompAt::Struct {
        fields: Listed::from_vec(Vec::new(alloc)),
    }
}

// The group of a final type without a supertype.
fn single(comp: CompAt) -> GroupAt {
    GroupAt::Single(EntryAt {
        comp,
        is_final: true,
        supertype: None,
    })
}

// A group of a section.
#[derive(Clone, Copy)]
pub(crate) enum Group {
    Function,
    Struct,
}

fn make_group(alloc: Global, group: Group) -> GroupAt {
    match group {
        Group::Function => single(function(alloc)),
        Group::Struct => single(structure(alloc)),
    }
}

// The section of these groups.
pub(crate) fn section(alloc: Global, groups: &[Group]) -> Result<Vec<GroupAt>, AllocError> {
    let mut section = Vec::new(alloc);
    for group in groups {
        section.push(make_group(alloc, *group))?;
    }
    Ok(section)
}

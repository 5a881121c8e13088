//! Groups that cannot be read.
use crate::assertions::assert_equal;
use walrus_sections::{ReadError, first_error};
use walrus_ty::{CompAt, EntryAt, Listed};

#[test]
fn a_group_that_cannot_be_read(rt: HostRuntime) {
    let entry = EntryAt {
        comp: CompAt::Struct {
            fields: Listed::from_vec(Vec::new(rt.alloc())),
        },
        is_final: true,
        supertype: None,
    };
    let error = first_error(&[entry], 4294967295);
    assert_equal(&rt, error, Some(ReadError::TooMany));
}

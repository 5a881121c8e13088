//! Refused memory: a call that was refused goes through when it is made again.
//! Each request for memory of these tests may be refused, one in a run, and they still pass.
use std::alloc::{AllocError, Global};
use walrus_text::{TextError, read_section, write_section};
use walrus_ty::GroupAt;

// The groups of the text. After a refusal the call is made again.
fn read_again(alloc: Global, text: &[u8]) -> Result<Vec<GroupAt>, TextError> {
    let mut reader = text;
    match read_section(alloc, &mut reader) {
        Err(TextError::Memory) => {
            let mut again = text;
            read_section(alloc, &mut again)
        }
        other => other,
    }
}

// Room for what is written, so that writing takes no memory. A refusal is asked again.
fn room(alloc: Global) -> Result<Vec<u8>, AllocError> {
    let Ok(room) = Vec::with_capacity(alloc, 64) else {
        return Vec::with_capacity(alloc, 64);
    };
    Ok(room)
}

#[test]
fn a_refused_reading_is_made_again(rt: HostRuntime) {
    let text = b"func i32 i64 -> f32\nrec\nstruct i8\nend\nstruct i32 mut:i16\n".as_slice();
    let mut out = room(rt.alloc()).expect(&rt, "memory");
    let groups = read_again(rt.alloc(), text).expect(&rt, "memory");
    write_section(&mut out, groups.as_slice()).expect(&rt, "memory");
    assert_eq!(rt; out.as_slice(), text);
}

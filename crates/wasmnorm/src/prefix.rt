//! The sections at the front of bytes, before the framing breaks or before the type section.
ghost use Rattle.std.specs.Prelude.{◌≡◌, take, IfSome};
ghost use Rattle.wasmnorm.specs.Judged.{BreaksBehind, IsBeforeTypes};

use wasm_binary::{DecodeError, section_around, type_section};

/// The id of the type section.
const TYPES: u8 = 1;

/// The sections before the one that breaks the framing of the bytes, if one does. Where that is the
/// first type section, the types of the sections before are not known, and there is no result.
pub fn sections_before_break(bytes: &[u8]) -> Option<&[u8]>
    ensures { IfSome result (λ prefix. BreaksBehind prefix.now bytes.now) }
{
    let Err(DecodeError::Malformed { offset, .. }) = type_section(bytes) else {
        return None;
    };
    let section = section_around(bytes, offset)?;
    let prefix = bytes_before(bytes, section.offset);
    if section.id == TYPES && !has_types(prefix) {
        return None;
    }
    Some(prefix)
}

/// Whether the bytes are a module with a type section.
fn has_types(bytes: &[u8]) -> bool {
    matches!(type_section(bytes), Ok(Some(_)))
}

/// The sections before the type section, whose framing may be broken.
pub fn sections_before_types(bytes: &[u8]) -> Option<&[u8]>
    ensures { IfSome result (λ before. IsBeforeTypes before.now bytes.now) }
{
    let section = section_around(bytes, place_in_types(bytes)?)?;
    if section.id != TYPES {
        return None;
    }
    Some(bytes_before(bytes, section.offset))
}

/// The place of a byte of the type section. Where the framing breaks, it is where it does.
fn place_in_types(bytes: &[u8]) -> Option<usize> {
    match type_section(bytes) {
        Ok(Some(content)) => Some(content.start.saturating_sub(1)),
        Err(DecodeError::Malformed { offset, .. }) => Some(offset),
        _ => None,
    }
}

fn bytes_before(bytes: &[u8], place: usize) -> &[u8]
    ensures { result.now ≡ take place bytes.now }
{
    if place > bytes.len() {
        return bytes;
    }
    &bytes[..place]
}

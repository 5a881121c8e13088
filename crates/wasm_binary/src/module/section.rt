//! The header of a module, and its sections one by one.
//! WebAssembly core specification, "Binary Format", sections and modules.
ghost use Rattle.std.specs.Prelude.{◌≡◌};
ghost use Rattle.wasm_binary.specs.Modules.{section};
ghost use Rattle.wasm_binary.specs.Steps.Framing.{Reads, literal_at, header_at, place_of, place_after, id_at, content_at, section_at};

use crate::error::{Expected, Fault};
use crate::leb128::read_size;

/// The id of custom sections.
pub const CUSTOM: u8 = 0;

/// The id of the type section.
pub const TYPE: u8 = 1;

const MAGIC: [u8; 4] = [0x00, 0x61, 0x73, 0x6D];

const VERSION: [u8; 4] = [0x01, 0x00, 0x00, 0x00];

/// The bytes after a module's header.
#[tactic(auto, unfolding(crate::specs::Steps::Framing::header_at))]
pub fn read_header(bytes: &[u8]) -> Result<&[u8], Fault>
    ensures { Reads (λ rest. (tt, rest.now)) result (header_at bytes.now) }
{
    let rest = read_literal(&MAGIC, Expected::Magic, bytes)?;
    read_literal(&VERSION, Expected::Version, rest)
}

/// The bytes after this text.
#[tactic(auto, unfolding(crate::specs::Steps::Framing::literal_at))]
fn read_literal<'a>(text: &[u8], expected: Expected, bytes: &'a [u8]) -> Result<&'a [u8], Fault>
    ensures { Reads (λ rest. (tt, rest.now)) result (literal_at expected text.now bytes.now) }
{
    let [wanted, text @ ..] = text else {
        return Ok(bytes);
    };
    match bytes {
        [byte, rest @ ..] if *byte == *wanted => read_literal(text, expected, rest),
        _ => Err(Fault::at(bytes, expected)),
    }
}

/// A section's id and its content, and the bytes after it. The section that is not custom and comes
/// last before it has the place `last`.
#[tactic(auto, unfolding(crate::specs::Steps::Framing::section_at))]
pub fn read_section(last: u8, bytes: &[u8]) -> Result<(u8, &[u8], &[u8]), Fault>
    ensures { Reads (λ x. (section x.0 x.1.now, x.2.now)) result (section_at last bytes.now) }
{
    let (id, rest) = read_id(last, bytes)?;
    let (content, rest) = read_content(rest)?;
    Ok((id, content, rest))
}

#[tactic(auto, unfolding(crate::specs::Steps::Framing::id_at))]
fn read_id(last: u8, bytes: &[u8]) -> Result<(u8, &[u8]), Fault>
    ensures { Reads (λ x. (x.0, x.1.now)) result (id_at last bytes.now) }
{
    let [id, rest @ ..] = bytes else {
        return Err(Fault::at(bytes, Expected::SectionId));
    };
    let id = *id;
    if id == CUSTOM {
        return Ok((id, rest));
    }
    let place = place(id);
    if place == 0 {
        return Err(Fault::at(bytes, Expected::SectionId));
    }
    if last >= place {
        return Err(Fault::at(bytes, Expected::LaterSection));
    }
    Ok((id, rest))
}

/// The place of the last section that is not custom, after one of this id.
pub fn place_after(last: u8, id: u8) -> u8
    ensures { result ≡ place_after last id }
{
    if id == CUSTOM { last } else { place(id) }
}

/// The place of a section in the order of those that are not custom, from 1 on; 0 where no other
/// section has this id.
#[tactic(auto, unfolding(crate::specs::Steps::Framing::place_of))]
fn place(id: u8) -> u8
    ensures { result ≡ place_of id }
{
    match id {
        1 => 1,
        2 => 2,
        3 => 3,
        4 => 4,
        5 => 5,
        13 => 6,
        6 => 7,
        7 => 8,
        8 => 9,
        9 => 10,
        12 => 11,
        10 => 12,
        11 => 13,
        _ => 0,
    }
}

/// The content of a section by its size, and the bytes after it.
#[tactic(auto, unfolding(crate::specs::Steps::Framing::content_at))]
fn read_content(bytes: &[u8]) -> Result<(&[u8], &[u8]), Fault>
    ensures { Reads (λ x. (x.0.now, x.1.now)) result (content_at bytes.now) }
{
    let (size, rest) = read_size(bytes)?;
    let size = size as usize;
    if size > rest.len() {
        return Err(Fault::at(&[], Expected::Content));
    }
    Ok(rest.split_at(size))
}

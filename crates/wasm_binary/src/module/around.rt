//! The section of a module that a byte is in.
//!
//! WebAssembly core specification, "Binary Format", modules and sections.
ghost use Rattle.std.specs.Prelude.{◌≡◌, ◌+◌, ◌-◌, ◌≤◌, ◌⊎◌, ℕ, List, drop, length, take, Ok, IfSome, IfNone};
ghost use Rattle.wasm_binary.specs.Modules.{IsModule, Section, section};
ghost use Rattle.wasm_binary.specs.Sections.{IsSectionHead, IsSizeAt, NoneEndsBetween, HasNoHeaderBy, EndsBy};
ghost use Rattle.wasm_binary.specs.Steps.Framing.{HasPassed, HeaderLeavesFewer, LeavesFewer, section_at};

use crate::leb128::read_size;
use crate::module::section::{place_after, read_header, read_section};

/// Where a section of a module is. It may be cut off, or may not be there: its id can be one that
/// no section has.
#[derive(Clone, Copy, PartialEq, Eq, Debug)]
pub struct SectionPlace {
    /// The id.
    pub id: u8,
    /// The place of the id, counted from 0.
    pub offset: usize,
    /// The number of bytes that the content has to have. `None` says that no integer is there.
    pub size: Option<u32>,
}

/// Returns the section that the byte at `place` is in. If a section before that byte can't be read,
/// it is that section. `None` says that the byte is in the header, or that no section begins before
/// the end. No memory is taken.
///
/// An error of [`type_section`](crate::type_section) or [`module_types`](crate::module_types) can
/// be at the end of its section. So its section is the one around the byte before it, unless the id
/// of a section was expected there.
///
/// # The section of a byte
///
/// ```
/// let bytes = [0, 0x61, 0x73, 0x6D, 1, 0, 0, 0, 1, 4, 1, 0x60, 0, 0];
/// let wanted = SectionPlace { id: 1, offset: 8, size: Some(4) };
/// assert_eq!(rt; section_around(&bytes, 11), Some(wanted));
/// ```
pub fn section_around(bytes: &[u8], place: usize) -> Option<SectionPlace>
    // The bytes before it are a module, so a section begins there,
    ensures before { IfSome result (λ s. (sections : List Section) ×
        IsModule (take s.offset bytes.now) sections) }
    // not behind the place,
    ensures place { IfSome result (λ s. s.offset ≤ place) }
    // and no section ends behind that up to the place.
    ensures last { IfSome result (λ s. NoneEndsBetween s.offset place bytes.now) }
    // It begins with this id,
    ensures id { IfSome result (λ s. IsSectionHead s.id (drop s.offset bytes.now)) }
    // and this size,
    ensures size { IfSome result (λ s. IfSome s.size (λ size.
        IsSizeAt size (drop (s.offset + 1) bytes.now))) }
    // or no size is there.
    ensures no_size { IfSome result (λ s. IfNone s.size
        ((size : ℕ) → ¬ IsSizeAt size (drop (s.offset + 1) bytes.now))) }
    // Otherwise there is no whole header up to the place, or the module ends by it.
    ensures none { IfNone result (HasNoHeaderBy place bytes.now ⊎ EndsBy place bytes.now) }
{
    let rest = sections_at(bytes, place)?;
    let [id, after_id @ ..] = rest else {
        return None;
    };
    Some(SectionPlace {
        id: *id,
        offset: bytes.len() - rest.len(),
        size: size_at(after_id),
    })
}

/// The bytes from the section on that the byte at `place` is in.
fn sections_at(bytes: &[u8], place: usize) -> Option<&[u8]>
    ensures passed { IfSome result (λ rest. (last : ℕ) × HasPassed bytes.now rest.now last ×
        LeavesFewer (length bytes.now - place) last rest.now) }
    ensures place { IfSome result (λ rest. length bytes.now ≤ place + length rest.now) }
    ensures none { IfNone result (HeaderLeavesFewer (length bytes.now - place) bytes.now) }
{
    let left = bytes.len().saturating_sub(place);
    let Ok(mut rest) = read_header(bytes) else {
        return None;
    };
    if rest.len() < left {
        return None;
    }
    let mut last = 0;
    while let Some((id, after)) = section_before(last, rest, left) {
        last = place_after(last, id);
        rest = after;
    }
    Some(rest)
}

/// The id of a section, and the bytes after it, where these are `left` at least.
fn section_before(last: u8, bytes: &[u8], left: usize) -> Option<(u8, &[u8])>
    ensures read { IfSome result (λ read. (content : List ℕ) ×
        (section_at last bytes.now ≡ Ok (section read.0 content, read.1.now))) }
    ensures left { IfSome result (λ read. left ≤ length read.1.now) }
    ensures none { IfNone result (LeavesFewer left last bytes.now) }
{
    let (id, _, after) = read_section(last, bytes).ok()?;
    if after.len() < left {
        return None;
    }
    Some((id, after))
}

/// The size of a section at the front.
#[tactic(auto, using(crate::proofs::Modules::Around::size_there))]
fn size_at(bytes: &[u8]) -> Option<u32>
    ensures size { IfSome result (λ size. IsSizeAt size bytes.now) }
    ensures none { IfNone result ((size : ℕ) → ¬ IsSizeAt size bytes.now) }
{
    match read_size(bytes) {
        Ok((size, _)) => Some(size),
        Err(_) => None,
    }
}

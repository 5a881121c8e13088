//! The normal form of what a reader gives, and where two of them differ.
ghost use Rattle.std.specs.Prelude.{◌≡◌, ◌↔◌, ◌<◌, ◌^◌, IfOk, IfSome, None};
ghost use Rattle.walrus_ty.specs.Records.{section_of};
ghost use Rattle.wasm_binary.specs.ModuleSections.{HasTypes};
ghost use Rattle.walrus_sections.specs.Section.{index_space, IsWellNamed};
ghost use Rattle.sametypes.specs.Runs.{HasSection, IsFirstDifference};
ghost use Rattle.sametypes.specs.Steps.Verdicts.{HasNormalForm};

use crate::failure::InputError;
use command_line::read_bytes;
use error_context::context_of_error;
use std::alloc::Global;
use std::io::Read;
use walrus_normal_form::{GroupAt, HashKeys, normalise_owned};
use walrus_text::read_section;
use walrus_types::{entries_before, first_difference};
use wasm_binary::module_types;

/// The four bytes with which each module begins, and no text of a section.
const MAGIC: [u8; 4] = [0x00, 0x61, 0x73, 0x6D];

/// The normal form of the section that a reader gives up to its end.
pub fn read_normal_form<R: Read>(
    alloc: Global,
    keys: HashKeys,
    reader: &mut R,
) -> Result<Vec<GroupAt>, InputError>
    ensures normal { IfOk result (λ form. IfSome (R.remaining reader.old)
        (λ bytes. HasNormalForm bytes form.items)) }
    ensures well_named { IfOk result (λ form. IsWellNamed (section_of form.items)) }
{
    let section = read_groups(alloc, reader)?;
    let (form, _) = normalise_owned(alloc, keys, section)?;
    Ok(form)
}

/// The section that a reader gives up to its end. Its bytes are not kept.
fn read_groups<R: Read>(alloc: Global, reader: &mut R) -> Result<Vec<GroupAt>, InputError>
    ensures { IfOk result (λ groups. IfSome (R.remaining reader.old)
        (λ bytes. HasSection bytes groups.items)) }
{
    let bytes = read_bytes(alloc, reader)?;
    section_in(alloc, bytes.as_slice())
}

/// The section of the bytes, as a module or as a text.
fn section_in(alloc: Global, bytes: &[u8]) -> Result<Vec<GroupAt>, InputError>
    ensures { IfOk result (λ groups. HasSection bytes.now groups.items) }
{
    if bytes.starts_with(&MAGIC) {
        return types_of(alloc, bytes);
    }
    let mut text = bytes;
    Ok(read_section(alloc, &mut text)?)
}

/// The types of a module.
fn types_of(alloc: Global, bytes: &[u8]) -> Result<Vec<GroupAt>, InputError>
    ensures { IfOk result (λ groups. HasTypes bytes.now groups.items) }
{
    match module_types(alloc, bytes) {
        Ok(groups) => Ok(groups),
        Err(error) => Err(InputError::Module {
            error,
            context: context_of_error(bytes, error),
        }),
    }
}

/// The index of the first entry of the first group in which two normal forms differ, or at which
/// one of them ends.
pub fn index_of_difference(first: &[GroupAt], second: &[GroupAt]) -> Option<usize>
    requires few { (index_space (section_of first.now)).count < 2 ^ 32 }
    ensures same { result ≡ None ↔ (first.now ≡ second.now) }
    ensures index { IfSome result (λ index. IsFirstDifference index first.now second.now) }
{
    match first_difference(first, second) {
        Some(place) => Some(entries_before(first, place)),
        None => None,
    }
}

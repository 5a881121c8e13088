//! Sections that are the same up to moves.
ghost use Rattle.std.specs.Prelude.{◌≡◌, ◌⊎◌, ◌↔◌, IsTrue, IfErr, IfOk, OnOk};
ghost use Rattle.walrus_sections.specs.declared.error.ReadError.TheVariants as read;
ghost use Rattle.walrus_sections.specs.FirstError.{IsFirstError};
ghost use Rattle.walrus_sections.specs.Moves.{AreJoined};
ghost use Rattle.walrus_ty.specs.Records.{section_of};
ghost use Rattle.walrus_sections.specs.Section.{IsWellNamed};

use crate::laws::equal_outputs_by_moves;
use crate::{GroupAt, HashKeys, ReadError, normalise};
use std::alloc::Global;

/// Returns whether a chain of moves leads from the one section to the other. It is so exactly where
/// the two have the same normal form. The moves are, with names moved along:
///
/// - an empty `Rec` comes in or goes out;
/// - a lone type that repeats an earlier one comes in or goes out;
/// - two neighbouring lone types that name nothing but themselves change places.
///
/// The keys begin the hash in [`normalise`]. No result depends on them. walrus has no such call.
///
/// # Errors
///
/// Where the first section can't be read, its error is returned. Otherwise, where the second can't
/// be read, its error is. `Memory` comes where memory was refused.
pub fn same_up_to_moves(
    alloc: Global,
    keys: HashKeys,
    a: &[GroupAt],
    b: &[GroupAt],
) -> Result<bool, ReadError>
    ensures well_named { OnOk result
        (IsWellNamed (section_of a.now) × IsWellNamed (section_of b.now)) }
    ensures joined { IfOk result
        (λ same. (IsTrue same ↔ AreJoined (section_of a.now) (section_of b.now))) }
    ensures refused { IfErr result (λ e. (e ≡ read.Memory) ⊎ IsFirstError (section_of a.now) e ⊎
        (IsWellNamed (section_of a.now) × IsFirstError (section_of b.now) e)) }
{
    equal_outputs_by_moves();
    let (first, _) = normalise(alloc, keys, a)?;
    let (second, _) = normalise(alloc, keys, b)?;
    Ok(same_records(first.as_slice(), second.as_slice()))
}

fn same_records(first: &[GroupAt], second: &[GroupAt]) -> bool
    ensures { IsTrue result ↔ (section_of first.now ≡ section_of second.now) }
{
    first == second
}

//! Renaming the indices of a whole group in place.
ghost use Rattle.std.specs.Prelude.{◌≡◌, map};
ghost use Rattle.walrus_ty.specs.Definition.{rename};
ghost use Rattle.walrus_ty.specs.Records.{entry_definition, group_of};
ghost use Rattle.walrus_sections.specs.NormalForm.{image};
ghost use Rattle.walrus_normal_form.specs.Steps.WrittenRecords.{rename_group};

use crate::rename::rename_entry;
use walrus_ty::{EntryAt, GroupAt, Listed};

/// Replaces each index that a record of the group names by the number that the list has for it.
pub(crate) fn rename_group(group: &mut GroupAt, numbers: &[u32])
    ensures { group_of group.new ≡ rename_group (image numbers.now) (group_of group.old) }
{
    match group {
        GroupAt::Single(entry) => rename_entry(entry, numbers),
        GroupAt::Rec(entries) => rename_entries(entries, numbers),
    }
}

/// Replaces each index that one of the records names by the number that the list has for it.
pub(crate) fn rename_entries(entries: &mut Listed<EntryAt>, numbers: &[u32])
    ensures { map entry_definition entries.new ≡
        map (rename (image numbers.now)) (map entry_definition entries.old) }
{
    for at in 0..entries.len() {
        rename_entry(&mut entries[at], numbers);
    }
}

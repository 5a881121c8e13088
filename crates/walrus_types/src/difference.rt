//! Where two sections differ.
ghost use Rattle.std.specs.Prelude.{◌≡◌, ◌↔◌, ◌<◌, ◌≤◌, ◌^◌, length, take, IfSome, IsTrue, None};
ghost use Rattle.walrus_ty.specs.Records.{group_of, section_of};
ghost use Rattle.walrus_sections.specs.FirstError.{definitions_of};
ghost use Rattle.walrus_sections.specs.Section.{index_space};
ghost use Rattle.walrus_types.specs.Differences.{DifferFirstAt};

use crate::GroupAt;
use walrus_ty::laws::equal_records_are_the_same;

/// Returns the first place, counted in groups from 0, where two sections differ: another group is
/// there, or one of the two ends there. `None` says that they are equal, record for record. Whether
/// two sections are the same up to moves shows in their normal forms.
///
/// [`entries_before`] leads from the place to the index of a type. walrus has no such call.
///
/// # Groups, and none
///
/// ```
/// assert_eq!(rt; first_difference(groups.as_slice(), &[]), Some(0));
/// ```
pub fn first_difference(a: &[GroupAt], b: &[GroupAt]) -> Option<usize>
    ensures same { result ≡ None ↔ (a.now ≡ b.now) }
    ensures place { IfSome result (λ place. DifferFirstAt a.now b.now place) }
    // Neither section ends before it.
    ensures within { IfSome result (λ place.
        (place ≤ length a.now) × (place ≤ length b.now)) }
{
    let shorter = a.len().min(b.len());
    for place in 0..shorter {
        if !same_group(&a[place], &b[place]) {
            return Some(place);
        }
    }
    if a.len() == b.len() {
        None
    } else {
        Some(shorter)
    }
}

fn same_group(a: &GroupAt, b: &GroupAt) -> bool
    ensures { IsTrue result ↔ (a.now ≡ b.now) }
{
    equal_records_are_the_same();
    a == b
}

/// Returns the number of entries in the groups before this place: the index of the first entry of
/// the group there.
///
/// # All entries of a section
///
/// ```
/// let count = entries_before(groups.as_slice(), groups.len());
/// ```
pub fn entries_before(groups: &[GroupAt], place: usize) -> usize
    requires few { (index_space (section_of groups.now)).count < 2 ^ 32 }
    requires within { place ≤ length groups.now }
    ensures { result ≡ (index_space (section_of (take place groups.now))).count }
{
    let mut count = 0;
    for before in 0..place {
        count += entry_count(&groups[before]);
    }
    count
}

fn entry_count(group: &GroupAt) -> usize
    ensures { result ≡ length (definitions_of (group_of group.now)) }
{
    match group {
        GroupAt::Single(_) => 1,
        GroupAt::Rec(entries) => entries.as_slice().len(),
    }
}

//! What a section is read into: its groups, with slots in place of indices.
use walrus_ty::GroupAt;

/// A recursion group of a section that was read. Its records name slots.
#[derive(Drop)]
pub(crate) struct SlotGroup {
    /// The slot of its first record. Those of the others come next.
    pub(crate) first: u32,
    /// Its records.
    pub(crate) group: GroupAt,
}

/// A section that was read.
#[derive(Drop)]
pub(crate) struct ReadSection {
    /// The slot of each index.
    pub(crate) slots: Vec<u32>,
    /// The groups that have slots of their own, in the order of the section.
    pub(crate) groups: Vec<SlotGroup>,
}

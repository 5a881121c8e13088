//! What a deletion does to an item.

/// What happens to an item when it is deleted.
pub trait Tombstone {
    /// Frees what the item holds, such as memory. It runs once for a deletion, when the slot is
    /// dead already. The item must stay valid, since it is dropped with its arena. No call shows it
    /// any more.
    fn on_delete(&mut self) {}
}

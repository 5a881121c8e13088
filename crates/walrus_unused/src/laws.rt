//! The law of new indices. The function does nothing; its clause is a theorem, which a caller gets by
//! calling it.
ghost use Rattle.std.specs.Prelude.{◌≡◌, ℕ, List, Option, map};
ghost use Rattle.walrus_unused.specs.IndexMaps.{new_index, index_through};

/// The new index of an old one is what both maps give in turn: from the old index to its type, and
/// from that to its index. So it has one exactly where both have something.
pub fn new_indices_compose()
    ensures { (ids : List ℕ) (index : ℕ → Option ℕ) (old : ℕ) →
        new_index (map index ids) old ≡ index_through ids index old }
{}

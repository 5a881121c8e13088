//! The id of an item: its place in its arena. Ids are compared, ordered and hashed by this place
//! alone.
ghost use Rattle.std.specs.Prelude.{◌≡◌, nat_eq};
ghost use Rattle.std.proofs.Common.{rules};
ghost use Rattle.std.specs.Cmp.{partial_order_from_own_ties};
ghost use Rattle.std.specs.Cmp.Rules.{comparing, hashing};
ghost use Rattle.std.specs.Hash as fed;
ghost use Rattle.std.specs.Ordering.{nat_cmp, as_partial_cmp};

use std::cmp::Ordering;
use std::fmt;
use std::hash::{Hash, Hasher};
use std::marker::{Model, PhantomData};

/// The id of an item of an arena of `T`. It holds no `T`, so a `T` may hold ids of its own arena.
///
/// An id does not show which arena it is of: an id of another arena of the same item type is judged
/// by its place alone.
pub type Id<T> = Key<*const T>;

/// A place in an arena, with `P` for the type of the items. A contract sees it as its number. See
/// [`Id`].
#[derive_where(Clone, Copy)]
pub struct Key<P> {
    // In bytes, which need no alignment: a type has ids five enums deep, and each of these would be
    // padded to 8 bytes.
    index: [u8; 8],
    of: PhantomData<P>,
}

impl<P> Model for Key<P> {
    ghost use Rattle.std.specs.Prelude.{◌≡◌, ℕ, ◌<◌, length, refl};
    ghost use Rattle.std.specs.Int.{w64, from_le_bytes, to_le_bytes};
    ghost use Rattle.std.proofs.Common.{get_or};
    ghost use Rattle.std.proofs.lemmas.Nat.{le_bytes_8};

    ghost Value = { ℕ };

    ghost view = { λ i. from_le_bytes w64 i.index };

    ghost invariant = { λ i. (length i.index ≡ 8) × ((k : ℕ) → get_or i.index k 0 < 256) };

    ghost inverse = { λ n. record { index = to_le_bytes w64 n; of = record {} } };

    ghost inverse_ok = { λ a h i.
        record {
          index = le_bytes_8 a.index (from_le_bytes w64 a.index) h.0 h.1 refl i;
          of = a.of;
        } };
}

impl<P> Key<P> {
    /// The id of the item at this place, whether or not an arena has one there.
    pub fn from_index(index: usize) -> Key<P>
        ensures { result ≡ index }
    {
        Key {
            index: index.to_le_bytes(),
            of: PhantomData,
        }
    }

    /// The item's place in its arena, counted from 0: the number of slots before it.
    pub fn index(self) -> usize
        ensures { result ≡ self }
    {
        Key::place(&self)
    }

    /// `index` of a borrowed id.
    pub fn place(&self) -> usize
        ensures { result ≡ self.now }
    {
        usize::from_le_bytes(self.index)
    }
}

impl<P> PartialEq for Key<P> {
    ghost eq = { nat_eq };

    ghost laws = { Prim.search (comparing, rules) };

    fn eq(&self, other: &Key<P>) -> bool {
        self.place() == other.place()
    }
}

impl<P> Eq for Key<P> {
    ghost laws = { Prim.search (comparing, rules) };
}

impl<P> PartialOrd for Key<P> {
    ghost partial_cmp = { as_partial_cmp nat_cmp };

    ghost laws = { partial_order_from_own_ties (Prim.search (comparing, rules))
        (Prim.search (comparing, rules)) };

    fn partial_cmp(&self, other: &Key<P>) -> Option<Ordering> {
        Some(self.cmp(other))
    }
}

impl<P> Ord for Key<P> {
    ghost cmp = { nat_cmp };

    ghost total = { Prim.search (comparing, rules) };

    ghost matches_partial_cmp = { Prim.search (comparing, rules) };

    ghost matches_eq = { Prim.search (comparing, rules) };

    fn cmp(&self, other: &Key<P>) -> Ordering {
        self.place().cmp(&other.place())
    }
}

impl<P> Hash for Key<P> {
    ghost hash_input = { fed.usize };

    ghost respects_eq = { Prim.search (hashing, rules) };

    fn hash<H: Hasher>(&self, state: &mut H) {
        self.place().hash(state);
    }
}

impl<P> fmt::Debug for Key<P> {
    fn fmt<W: fmt::Write>(&self, f: &mut fmt::Formatter<W>) -> fmt::Result {
        f.debug_tuple("Id").field(&self.place()).finish()
    }
}

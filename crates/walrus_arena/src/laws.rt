//! Laws of arenas and sets, each the contract of a function that does nothing.
ghost use Rattle.std.specs.Prelude.{◌≡◌, ◌↔◌, ℕ, List, Some, true};
ghost use Rattle.walrus_arena.specs.Arena.{Slots, get, items};
ghost use Rattle.walrus_arena.specs.Calls.{Step, AreCalls, AnswersFreshIds};
ghost use Rattle.walrus_arena.specs.Listing.{IsListing};
ghost use Rattle.walrus_arena.specs.Set.{Set, found_id, mapped_id, holds, ClonesAreEqual, IsSetClone};

pub mod calls;

/// No two allocations return the same id: whatever calls are made on an arena or a set, one after
/// another, each new slot has an id of its own, which no slot had before.
///
/// A call is one step by what its contract says; [`calls`] has the calls with this as their clause.
pub fn ids_are_given_out_once<T>()
    ensures { (s : Slots T) (steps : List (Step T)) → AreCalls s steps → AnswersFreshIds s steps }
{}

/// `iter` gives the live items, each once, in the order of their ids.
pub fn iter_gives_the_live_items<T>()
    ensures { (s : Slots T) → IsListing s (items s) }
{}

/// `find` returns an id exactly where the value is mapped to it, it is live, and its item is equal
/// to the value.
pub fn find_gives_a_live_equal_item<T: Eq>()
    ensures { (s : Set T) (value : T) (id : ℕ) →
        (found_id T.eq s value ≡ Some id) ↔
        ((mapped_id T.eq s value ≡ Some id) × (holds (T.eq value) (get s.slots id) ≡ true)) }
{}

/// A clone of a set finds what the set finds, where clones are equal to their sources.
pub fn a_clone_finds_what_its_source_finds<T: Clone + Eq>()
    ensures { (old new : Set T) → IsSetClone T.is_clone T.eq old new →
        ClonesAreEqual T.is_clone T.eq → (value : T) →
        found_id T.eq new value ≡ found_id T.eq old value }
{}

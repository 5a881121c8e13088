//! Where an instruction was in the binary that it was read from.
ghost use Rattle.std.specs.Prelude.{◌≡◌, ◌≢◌, ◌↔◌, IsTrue, nat_eq};
ghost use Rattle.std.proofs.Common.{rules};
ghost use Rattle.std.specs.Cmp.{partial_order_from_own_ties};
ghost use Rattle.std.specs.Cmp.Rules.{comparing, hashing};
ghost use Rattle.std.specs.Hash as fed;
ghost use Rattle.std.specs.Ordering.{nat_cmp, as_partial_cmp};
ghost use Rattle.ir_instr.specs.Locations.{no_location};

use std::cmp::Ordering;
use std::hash::{Hash, Hasher};
use std::marker::Model;

const NO_LOCATION: u32 = 0xffff_ffff;

/// The place of an instruction in the binary that it was read from: a number below 0xffff_ffff, or
/// the default one of instructions that were read from none.
///
/// Locations are compared, ordered and hashed by their number. The default one has 0xffff_ffff, so it comes
/// last.
#[derive(Clone, Copy, Debug)]
pub struct InstrLocId {
    number: u32,
}

impl Model for InstrLocId {
    ghost use Rattle.std.specs.Prelude.{ℕ};

    ghost Value = { ℕ };

    ghost view = { λ l. l.number };

    ghost inverse = { λ n. record { number = n } };
}

impl InstrLocId {
    /// The location with this number, which must not be 0xffff_ffff.
    pub fn new(number: u32) -> InstrLocId
        requires { number ≢ no_location }
        ensures { result ≡ number }
    {
        InstrLocId { number }
    }

    /// Whether it is the default location.
    pub fn is_default(&self) -> bool
        ensures { IsTrue result ↔ (self.now ≡ no_location) }
    {
        self.number == NO_LOCATION
    }

    /// The number of a location that is not the default one.
    pub fn data(&self) -> u32
        requires { self.now ≢ no_location }
        ensures { result ≡ self.now }
    {
        self.number
    }
}

impl Default for InstrLocId {
    ghost is_default = { λ l. l ≡ no_location };

    fn default() -> InstrLocId {
        InstrLocId {
            number: NO_LOCATION,
        }
    }
}

impl PartialEq for InstrLocId {
    ghost eq = { nat_eq };

    ghost laws = { Prim.search (comparing, rules) };

    fn eq(&self, other: &InstrLocId) -> bool {
        self.number == other.number
    }
}

impl Eq for InstrLocId {
    ghost laws = { Prim.search (comparing, rules) };
}

impl PartialOrd for InstrLocId {
    ghost partial_cmp = { as_partial_cmp nat_cmp };

    ghost laws = { partial_order_from_own_ties (Prim.search (comparing, rules))
        (Prim.search (comparing, rules)) };

    fn partial_cmp(&self, other: &InstrLocId) -> Option<Ordering> {
        Some(self.cmp(other))
    }
}

impl Ord for InstrLocId {
    ghost cmp = { nat_cmp };

    ghost total = { Prim.search (comparing, rules) };

    ghost matches_partial_cmp = { Prim.search (comparing, rules) };

    ghost matches_eq = { Prim.search (comparing, rules) };

    fn cmp(&self, other: &InstrLocId) -> Ordering {
        self.number.cmp(&other.number)
    }
}

impl Hash for InstrLocId {
    ghost hash_input = { fed.u32 };

    ghost respects_eq = { Prim.search (hashing, rules) };

    fn hash<H: Hasher>(&self, state: &mut H) {
        self.number.hash(state);
    }
}

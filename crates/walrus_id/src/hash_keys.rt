//! The keys of hashes.
ghost use Rattle.std.specs.Prelude.{◌≡◌, IfOk};
ghost use Rattle.walrus_id.specs.HashKeys.{IsKeyed, fixed_hasher, hasher_with_keys};

use std::hash::{BuildHasher, FoldHasher, Hasher, RandomState};
use std::marker::Model;
use std::random::RandomSource;
use std::{fmt, io};

/// What the hashes of an `ArenaSet` of `walrus_arena` begin with, and the hashes by which a normal
/// form finds equal types. The keys change how long a call takes, and no result.
///
/// An attacker who knows the keys can make values whose hashes collide, and a set of such values
/// takes time quadratic in their number. So fixed keys are safe only where the values are trusted.
/// For values from elsewhere take random keys:
///
/// ```
/// let mut set = ArenaSet::with_hash_keys(rt.alloc(), HashKeys::random(&rt)?);
/// ```
///
/// The hash is std's `FoldHasher`, which is fast and not cryptographic. Random keys help where
/// `Hash` feeds at most eight bytes at once, as it does for ids, types and all that is made of
/// numbers. Some long strings collide whatever the keys are.
#[derive(Clone, Copy)]
pub struct HashKeys {
    // Has been fed the keys, once for all hashes.
    initial: FoldHasher,
}

impl Model for HashKeys {
    ghost use Rattle.walrus_id.specs.HashKeys.{InitialHasher};

    ghost Value = { InitialHasher };

    ghost view = { λ k. k.initial };

    ghost inverse = { λ h. record { initial = h } };
}

impl HashKeys {
    /// The same keys in every run of every program.
    pub fn fixed() -> HashKeys
        ensures { result ≡ fixed_hasher }
    {
        HashKeys {
            initial: FoldHasher::default(),
        }
    }

    /// Keys of the caller's choice.
    pub fn new(first: u64, second: u64) -> HashKeys
        ensures { result ≡ hasher_with_keys first second }
    {
        let mut initial = FoldHasher::default();
        initial.write_u64(first);
        initial.write_u64(second);
        HashKeys { initial }
    }

    /// Random keys, which the author of the values can't foresee.
    ///
    /// # Errors
    ///
    /// An error comes where the system gives no random bytes.
    pub fn random(source: &impl RandomSource) -> io::Result<HashKeys>
        ensures { IfOk result IsKeyed }
    {
        let random = RandomState::new(source)?;
        Ok(HashKeys::new(random.hash_one(0u64), random.hash_one(1u64)))
    }
}

impl BuildHasher for HashKeys {
    type Hasher = FoldHasher;

    ghost build_hasher = { λ keys. keys };

    fn build_hasher(&self) -> FoldHasher {
        self.initial
    }
}

/// The keys are not printed.
impl fmt::Debug for HashKeys {
    fn fmt<W: fmt::Write>(&self, f: &mut fmt::Formatter<W>) -> fmt::Result {
        f.write_str("HashKeys")
    }
}

//! That no result of a set depends on the keys of its hash.
use super::*;
use crate::assertions::assert_equal;
use std::hash::BuildHasher;

// Keys of every kind: fixed ones, small ones, and ones of many bits.
fn all_keys() -> [HashKeys; 4] {
    [
        HashKeys::fixed(),
        HashKeys::new(0, 0),
        HashKeys::new(0, 1),
        HashKeys::new(0x9e37_79b9_7f4a_7c15, 0xffff_ffff_ffff_ffff),
    ]
}

// Keys 0 to 39 were inserted twice, and then every third item was deleted, from 2 on.
fn filled(rt: &impl Abort, alloc: Global, keys: HashKeys) -> ArenaSet<Tagged> {
    let mut set = ArenaSet::with_hash_keys(alloc, keys);
    for note in 0..80 {
        set.insert(make_tagged(note % 40, note))
            .expect(rt, "memory");
    }
    for third in 0..13 {
        let at = 3 * third + 2;
        assert!(rt; set.contains(Id::from_index(at)));
        set.remove(Id::from_index(at)).expect(rt, "memory");
    }
    set
}

#[test]
fn answers_do_not_hang_on_the_keys(rt: HostRuntime) {
    for keys in all_keys() {
        let set = filled(&rt, rt.alloc(), keys);
        assert_equal(&rt, set.next_id().index(), 40);
        for key in 0..41 {
            let at = key as usize;
            let wanted = if key % 3 == 2 || key == 40 {
                None
            } else {
                Some(at)
            };
            assert_equal(&rt, index_of(&set, key), wanted);
            assert_equal(&rt, set.contains(Id::from_index(at)), wanted.is_some());
        }
    }
}

#[test]
fn other_keys_give_other_hashes(rt: HostRuntime) {
    let hash = HashKeys::fixed().hash_one(7u64);
    assert!(rt; HashKeys::new(0, 0).hash_one(7u64) != hash);
    let first = HashKeys::new(1, 2).hash_one(7u64);
    assert!(rt; HashKeys::new(2, 2).hash_one(7u64) != first);
    assert!(rt; HashKeys::new(1, 1).hash_one(7u64) != first);
    assert_equal(&rt, HashKeys::new(1, 2).hash_one(7u64), first);
}

#[test]
fn random_keys_differ(rt: HostRuntime) {
    let first = HashKeys::random(&rt)
        .expect(&rt, "random bytes")
        .hash_one(7u64);
    let second = HashKeys::random(&rt)
        .expect(&rt, "random bytes")
        .hash_one(7u64);
    assert!(rt; first != second);
    assert!(rt; first != HashKeys::fixed().hash_one(7u64));
}

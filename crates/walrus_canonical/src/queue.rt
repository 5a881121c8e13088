//! The groups that are ready, of which the least is taken.
ghost use Rattle.std.specs.Prelude.{◌≡◌, ◌<◌, ◌++◌, ◌∷◌, [], ℕ, List, false, length, IfOk, OnOk, IsTrue};
ghost use Rattle.std.specs.BTreeMap.Range.{IsLeBy};
ghost use Rattle.std.specs.List.Sorted.{IsPermutation};
ghost use Rattle.walrus_ty.specs.Definition.{Definition};
ghost use Rattle.walrus_canonical.specs.Steps.Queues.{AreApart, IsFalling, IsLeast, TakesLeast};
ghost use Rattle.walrus_canonical.specs.Steps.Shown.{definitions_cmp};

use crate::ready::ReadyGroup;
use std::alloc::{AllocError, Global};
use std::collections::BTreeMap;
use std::marker::Model;
use std::mem;

/// Groups that are ready, each with the place of its class.
#[derive(Drop)]
pub(crate) struct ReadyQueue {
    // A batch, from the greatest to the least. Taking the last one moves no other.
    falling: Vec<(ReadyGroup, usize)>,
    // Those that came while the batch had some left.
    kept: BTreeMap<ReadyGroup, usize>,
    // Those that came since the least was taken.
    fresh: Vec<(ReadyGroup, usize)>,
}

impl Model for ReadyQueue {
    ghost use Rattle.std.specs.Prelude.{ℕ, List, ◌++◌};
    ghost use Rattle.walrus_ty.specs.Definition.{Definition};
    ghost use Rattle.walrus_canonical.specs.Steps.Queues.{IsFalling};

    ghost Value = { List (List Definition × ℕ) };

    ghost view = { λ s. (s.kept.entries ++ s.falling.items) ++ s.fresh.items };

    ghost invariant = { λ s. IsFalling s.falling.items };
}

impl ReadyQueue {
    /// An empty queue. It takes no memory.
    pub(crate) fn new(alloc: Global) -> ReadyQueue
        ensures { result ≡ [] }
    {
        ReadyQueue {
            falling: Vec::new(alloc),
            kept: BTreeMap::new(alloc),
            fresh: Vec::new(alloc),
        }
    }

    /// Puts a group in.
    pub(crate) fn push(&mut self, group: ReadyGroup, place: usize) -> Result<(), AllocError>
        ensures { OnOk result (self.new ≡ self.old ++ (group, place) ∷ []) }
    {
        self.fresh.push((group, place))?;
        Ok(())
    }

    /// Takes the least group, if there is one.
    pub(crate) fn pop_least(
        &mut self,
        alloc: Global,
    ) -> Result<Option<(ReadyGroup, usize)>, AllocError>
        ensures { IfOk result (λ least. TakesLeast self.old self.new least) }
    {
        let fresh = mem::replace(&mut self.fresh, Vec::new(alloc));
        put_in_order(&mut self.kept, &mut self.falling, fresh)?;
        Ok(take_least(&mut self.kept, &mut self.falling))
    }
}

// Puts groups into the batch if it is empty, or else into the map.
fn put_in_order(
    kept: &mut BTreeMap<ReadyGroup, usize>,
    falling: &mut Vec<(ReadyGroup, usize)>,
    groups: Vec<(ReadyGroup, usize)>,
) -> Result<(), AllocError>
    ensures falling { IsFalling falling.old.items → IsFalling falling.new.items }
    ensures same { OnOk result (AreApart ((kept.old.entries ++ falling.old.items) ++ groups.items) →
        IsPermutation ((kept.old.entries ++ falling.old.items) ++ groups.items)
        (kept.new.entries ++ falling.new.items)) }
{
    let groups = in_falling_order(groups);
    if falling.is_empty() {
        *falling = groups;
        Ok(())
    } else {
        insert_all(kept, groups)
    }
}

fn in_falling_order(mut groups: Vec<(ReadyGroup, usize)>) -> Vec<(ReadyGroup, usize)>
    ensures same { IsPermutation groups.items result.items }
    ensures falling { IsFalling result.items }
{
    groups.sort_unstable_by(|one, other| other.0.cmp(&one.0));
    groups
}

// Puts groups into the map. From the greatest on, each comes before those that were put in, and so
// is compared with few of them.
fn insert_all(
    kept: &mut BTreeMap<ReadyGroup, usize>,
    groups: Vec<(ReadyGroup, usize)>,
) -> Result<(), AllocError>
    ensures { OnOk result (AreApart (kept.old.entries ++ groups.items) →
        IsPermutation (kept.old.entries ++ groups.items) kept.new.entries) }
{
    for (group, place) in groups {
        kept.insert(group, place)?;
    }
    Ok(())
}

// Takes the least group of the map and the batch, if there is one.
fn take_least(
    kept: &mut BTreeMap<ReadyGroup, usize>,
    falling: &mut Vec<(ReadyGroup, usize)>,
) -> Option<(ReadyGroup, usize)>
    ensures falling { IsFalling falling.old.items → IsFalling falling.new.items }
    ensures least { IsFalling falling.old.items → TakesLeast (kept.old.entries ++ falling.old.items)
        (kept.new.entries ++ falling.new.items) result }
{
    if ends_in_least(falling.as_slice(), kept) {
        falling.pop()
    } else {
        kept.pop_first()
    }
}

// Whether the batch has some left, of which the last one comes before all of the map.
fn ends_in_least(falling: &[(ReadyGroup, usize)], kept: &BTreeMap<ReadyGroup, usize>) -> bool
    ensures some { IsTrue result → 0 < length falling.now }
    ensures least { IsTrue result → (before : List (List Definition × ℕ)) (ds : List Definition) (c : ℕ) →
        falling.now ≡ before ++ (ds, c) ∷ [] → IsLeast ds kept.now.entries }
    ensures none { result ≡ false → kept.now.entries ≡ [] → falling.now ≡ [] }
    ensures other { result ≡ false → (rest before : List (List Definition × ℕ)) (ds es : List Definition)
        (c d : ℕ) → kept.now.entries ≡ (ds, c) ∷ rest → falling.now ≡ before ++ (es, d) ∷ [] →
        IsLeBy definitions_cmp ds es }
{
    match falling.last() {
        None => false,
        Some(last) => match kept.first_key_value() {
            None => true,
            Some(first) => last.0.cmp(first.0).is_lt(),
        },
    }
}

//! Which classes wait for which slots.
ghost use Rattle.std.specs.Prelude.{◌≡◌, ◌+◌, ◌<◌, ◌≤◌, ◌^◌, ◌++◌, ◌↔◌, ℕ, List, length, OnOk, IfOk, slice_get, Some};
ghost use Rattle.std.specs.List.{flat_map};
ghost use Rattle.std.specs.List.Sorted.{IsNonDecreasingBy};
ghost use Rattle.walrus_canonical.specs.declared.waiting.Wait.{Wait};
ghost use Rattle.walrus_canonical.specs.Steps.Waits.{AreCounts, AreStarts, AreWaits, class_waits, wait_at, waits_from};

use crate::classes::Class;
use crate::names::push_names;
use crate::renaming::own_base;
use std::alloc::{AllocError, Global};
use std::marker::Model;

/// That a class names a slot of another one, so that it can be written only after it.
#[derive(Clone, Copy)]
pub(crate) struct Wait {
    /// The slot that is named.
    pub(crate) named: u32,
    /// The place of the class that waits for it.
    pub(crate) waiting: usize,
}

/// All pairs of a class and a slot of another one that it names, in the order of the slots. A pair
/// stands there as often as the class names the slot.
#[derive(Drop)]
pub(crate) struct Waits {
    pairs: Vec<Wait>,
    // How many pairs name a slot before each one, as far as slots are named.
    starts: Vec<usize>,
}

impl Model for Waits {
    ghost use Rattle.std.specs.Prelude.{List, length};
    ghost use Rattle.std.specs.List.Sorted.{IsNonDecreasingBy};
    ghost use Rattle.walrus_canonical.specs.declared.waiting.Wait.{Wait};
    ghost use Rattle.walrus_canonical.specs.Steps.Waits.{AreStarts};

    ghost Value = { List Wait };

    ghost view = { λ w. w.pairs.items };

    ghost invariant = { λ w. IsNonDecreasingBy (λ (p : Wait). p.named) w.pairs.items →
        AreStarts w.pairs.items (length w.pairs.items) w.starts.items };
}

impl Waits {
    fn new(alloc: Global, pairs: Vec<Wait>) -> Result<Waits, AllocError>
        ensures { IfOk result (λ waits. waits ≡ pairs.items) }
    {
        let mut starts = Vec::new(alloc);
        for at in 0..pairs.len() {
            push_starts(&mut starts, pairs[at].named, at)?;
        }
        Ok(Waits { pairs, starts })
    }

    pub(crate) fn as_slice(&self) -> &[Wait]
        ensures { result.now ≡ self.now }
    {
        self.pairs.as_slice()
    }

    /// How many of the pairs name a slot before this one.
    pub(crate) fn before(&self, slot: usize) -> usize
        ensures bound { result ≤ length self.now }
        ensures before { IsNonDecreasingBy (λ (w : Wait). w.named) self.now → (at : ℕ) (wait : Wait) →
            slice_get self.now at ≡ Some wait → (at < result) ↔ (wait.named < slot) }
    {
        if slot < self.starts.len() {
            self.starts[slot].min(self.pairs.len())
        } else {
            self.pairs.len()
        }
    }
}

// Pushes this start for each slot up to the named one that has none.
fn push_starts(starts: &mut Vec<usize>, named: u32, start: usize) -> Result<(), AllocError>
    ensures { OnOk result ((pairs : List Wait) (wait : Wait) →
        IsNonDecreasingBy (λ (w : Wait). w.named) pairs → slice_get pairs start ≡ Some wait →
        wait.named ≡ named → AreStarts pairs start starts.old.items →
        AreStarts pairs (start + 1) starts.new.items) }
{
    for _slot in starts.len()..named as usize + 1 {
        starts.push(start)?;
    }
    Ok(())
}

/// The pairs of these classes.
pub(crate) fn waits_of(alloc: Global, classes: &[Class]) -> Result<Waits, AllocError>
    ensures { IfOk result (λ waits. AreWaits classes.now waits) }
{
    Waits::new(alloc, sorted_waits(alloc, classes)?)
}

fn sorted_waits(alloc: Global, classes: &[Class]) -> Result<Vec<Wait>, AllocError>
    ensures { IfOk result (λ waits. AreWaits classes.now waits.items) }
{
    let mut waits = unsorted_waits(alloc, classes)?;
    waits.sort_unstable_by_key(|wait| wait.named);
    Ok(waits)
}

fn unsorted_waits(alloc: Global, classes: &[Class]) -> Result<Vec<Wait>, AllocError>
    ensures { IfOk result (λ waits. waits.items ≡ waits_from 0 classes.now) }
{
    let mut waits = Vec::new(alloc);
    let mut names = Vec::new(alloc);
    for place in 0..classes.len() {
        names.clear();
        push_class_waits(&mut waits, &mut names, &classes[place], place)?;
    }
    Ok(waits)
}

// Pushes the waits of this class. The list of names is empty.
fn push_class_waits(
    waits: &mut Vec<Wait>,
    names: &mut Vec<u32>,
    class: &Class,
    place: usize,
) -> Result<(), AllocError>
    ensures { length names.old.items ≡ 0 →
        OnOk result (waits.new.items ≡ waits.old.items ++ class_waits place class.now) }
{
    push_names(names, class.entries.as_slice())?;
    push_waits(
        waits,
        names.as_slice(),
        own_base(class.entries.len()),
        place,
    )
}

// Pushes a pair for each of the names that is another class's slot.
fn push_waits(
    waits: &mut Vec<Wait>,
    names: &[u32],
    base: u32,
    waiting: usize,
) -> Result<(), AllocError>
    ensures { OnOk result (waits.new.items ≡ waits.old.items ++
        flat_map (wait_at base waiting) names.now) }
{
    for name in names {
        push_wait(waits, *name, base, waiting)?;
    }
    Ok(())
}

fn push_wait(waits: &mut Vec<Wait>, name: u32, base: u32, waiting: usize) -> Result<(), AllocError>
    ensures { OnOk result (waits.new.items ≡ waits.old.items ++ wait_at base waiting name) }
{
    if name < base {
        waits.push(Wait {
            named: name,
            waiting,
        })?;
    }
    Ok(())
}

/// How many of the pairs each class waits in.
pub(crate) fn wait_counts(
    alloc: Global,
    waits: &[Wait],
    class_count: usize,
) -> Result<Vec<usize>, AllocError>
    ensures { IfOk result (λ counts. AreCounts waits.now class_count counts.items) }
{
    let mut counts = vec![in alloc; 0usize; class_count]?;
    for wait in waits {
        add_one(&mut counts, wait.waiting);
    }
    Ok(counts)
}

fn add_one(counts: &mut Vec<usize>, place: usize)
    ensures long { length counts.new.items ≡ length counts.old.items }
    ensures there { (n : ℕ) → slice_get counts.old.items place ≡ Some n → n + 1 < 2 ^ 64 →
        slice_get counts.new.items place ≡ Some (n + 1) }
    ensures others { (other : ℕ) → ¬ (other ≡ place) →
        slice_get counts.new.items other ≡ slice_get counts.old.items other }
{
    if place < counts.len() {
        counts[place] = counts[place].wrapping_add(1);
    }
}

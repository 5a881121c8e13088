//! A section by index, each index with its definition and its place.
ghost use Rattle.std.specs.Prelude.{◌≡◌, ◌+◌, ◌++◌, ◌≤◌, ◌≢◌, ℕ, List, ◌∷◌, length, IfOk, OnOk, IsTrue, ◌↔◌, map};
ghost use Rattle.walrus_ty.specs.Definition.{Names};
ghost use Rattle.walrus_ty.specs.Records.{entry_definition, section_of, group_of};
ghost use Rattle.walrus_ty.specs.Groups.{Section};
ghost use Rattle.walrus_sections.specs.Section.{Place as PlaceAt, places_from, rec_places, index_space_of_places};

use crate::names::names_of;
use std::alloc::{AllocError, Global};
use std::marker::Model;
use walrus_ty::{EntryAt, GroupAt};

/// What is at an index of a section.
#[derive(Drop)]
pub(crate) struct Place<'a> {
    entry: &'a EntryAt,
    // What the entry names, from left to right.
    names: Vec<u32>,
    // One past the last index of its group.
    end: usize,
    // For a member of a `Rec`: which of the `Rec`s that aren't empty that is, and the place in it.
    rec_position: Option<(usize, usize)>,
}

impl<'a> Model for Place<'a> {
    ghost use Rattle.std.specs.Prelude.{◌≡◌};
    ghost use Rattle.walrus_ty.specs.Definition.{names_of};
    ghost use Rattle.walrus_ty.specs.Records.{entry_definition};
    ghost use Rattle.walrus_sections.specs.Section.{Place as PlaceAt};

    ghost Value = { PlaceAt };

    ghost view = { λ p. record {
      definition = entry_definition p.entry.now;
      end = p.end;
      rec_position = p.rec_position;
    } };

    ghost invariant = { λ p. p.names.items ≡ names_of (entry_definition p.entry.now) };
}

impl<'a> Place<'a> {
    fn new(
        alloc: Global,
        entry: &'a EntryAt,
        end: usize,
        rec_position: Option<(usize, usize)>,
    ) -> Result<Place<'a>, AllocError>
        ensures { IfOk result (λ p. p ≡ record
            { definition = entry_definition entry.now; end = end; rec_position = rec_position }) }
    {
        let names = names_of(alloc, entry)?;
        Ok(Place {
            entry,
            names,
            end,
            rec_position,
        })
    }

    /// The place of a member in its `Rec`, and none for a lone type.
    pub(crate) fn rec_position(&self) -> Option<(usize, usize)>
        ensures { result ≡ self.now.rec_position }
    {
        self.rec_position
    }

    /// The definition there.
    pub(crate) fn entry(&self) -> &EntryAt
        ensures { entry_definition result.now ≡ self.now.definition }
    {
        self.entry
    }

    /// Whether the definition names this index.
    pub(crate) fn names(&self, index: usize) -> bool
        ensures { IsTrue result ↔ Names self.now.definition index }
    {
        self.names.iter().any(|name| *name as usize == index)
    }

    /// Whether the definition names another index than this one.
    pub(crate) fn names_another(&self, index: usize) -> bool
        ensures { IsTrue result ↔ ((k : ℕ) × Names self.now.definition k × (k ≢ index)) }
    {
        let names = self.names.as_slice();
        for name in names {
            if *name as usize != index {
                return true;
            }
        }
        false
    }
}

/// The position among the `Rec`s at an index, and none where the section has no such index.
pub(crate) fn rec_position_at(places: &[Place<'_>], index: usize) -> Option<(usize, usize)>
    ensures { result ≡ (index_space_of_places places.now).rec_position index }
{
    match places.get(index) {
        Some(place) => place.rec_position(),
        None => None,
    }
}

/// Whether two positions are the same.
pub(crate) fn same_rec_position(a: Option<(usize, usize)>, b: Option<(usize, usize)>) -> bool
    ensures { IsTrue result ↔ (a ≡ b) }
{
    match (a, b) {
        (None, None) => true,
        (Some((rec, at)), Some((other_rec, other_at))) => rec == other_rec && at == other_at,
        _ => false,
    }
}

/// The places of a section in order.
pub(crate) fn places_of<'a>(
    alloc: Global,
    groups: &'a [GroupAt],
) -> Result<Vec<Place<'a>>, AllocError>
    ensures { IfOk result (λ v. v.items ≡ places_from 0 0 (section_of groups.now)) }
{
    let mut places = Vec::new(alloc);
    let mut recs = 0;
    for group in groups {
        recs = add_group(&mut places, group, recs)?;
    }
    Ok(places)
}

// Adds the places of a group that comes after `recs` `Rec`s that aren't empty, and returns how many
// there are then.
fn add_group<'a>(
    places: &mut Vec<Place<'a>>,
    group: &'a GroupAt,
    recs: usize,
) -> Result<usize, AllocError>
    requires { recs ≤ length places.old.items }
    ensures places { IfOk result (λ k. (rest : Section) → places.new.items ++
        places_from (length places.new.items) k rest ≡ places.old.items ++
        places_from (length places.old.items) recs (group_of group.now ∷ rest)) }
    ensures few { IfOk result (λ k. k ≤ length places.new.items) }
{
    match group {
        GroupAt::Single(entry) => {
            let end = places.len() + 1;
            let place = Place::new(*places.allocator(), entry, end, None)?;
            places.push(place)?;
            Ok(recs)
        }
        GroupAt::Rec(entries) => {
            add_members(places, entries.as_slice(), recs)?;
            Ok(if entries.as_slice().is_empty() {
                recs
            } else {
                recs + 1
            })
        }
    }
}

fn add_members<'a>(
    places: &mut Vec<Place<'a>>,
    entries: &'a [EntryAt],
    rec: usize,
) -> Result<(), AllocError>
    ensures places { OnOk result ((rest : List PlaceAt) → places.new.items ++
        rest ≡ places.old.items ++ rec_places (map entry_definition entries.now)
        (length entries.now + length places.old.items) rec 0 rest) }
    ensures many { OnOk result (length places.new.items ≡ length places.old.items + length
        entries.now) }
{
    let end = places.len() + entries.len();
    for (at, entry) in entries.iter().enumerate() {
        let place = Place::new(*places.allocator(), entry, end, Some((rec, at)))?;
        places.push(place)?;
    }
    Ok(())
}

//! The groups of a section, built line by line.
ghost use Rattle.std.specs.Prelude.{◌≡◌, ◌↔◌, ◌++◌, ◌∷◌, [], codes, false, IsTrue, IfOk, OnOk, IfSome, IfNone};
ghost use Rattle.walrus_ty.specs.Definition.{names_of};
ghost use Rattle.walrus_ty.specs.Records.{entry_definition};
ghost use Rattle.walrus_text.specs.Steps.Lines.{HasIndices, line_words_if_any};
ghost use Rattle.walrus_text.specs.Text.{AreIndices, BeginsSection, HasSectionIndices, IsSectionText, entry_words, section_lines};
ghost use Rattle.walrus_text.specs.Steps.Builder.{HasBuilderIndices, IsInGroup, builder_lines};

use crate::parse::Line;
use std::alloc::{AllocError, Global};
use walrus_ty::{EntryAt, GroupAt, Listed};

/// The groups of the lines so far, and the recursion group that is open, if one is.
#[derive(Drop)]
pub struct SectionBuilder {
    groups: Vec<GroupAt>,
    open: Option<Vec<EntryAt>>,
    alloc: Global,
}

impl SectionBuilder {
    /// No lines so far.
    pub fn new(alloc: Global) -> SectionBuilder
        ensures lines { builder_lines result ≡ [] }
        ensures fits { HasBuilderIndices result }
    {
        SectionBuilder {
            groups: Vec::new(alloc),
            open: None,
            alloc,
        }
    }

    /// Whether a recursion group is open.
    pub fn is_in_group(&self) -> bool
        ensures { IsTrue result ↔ IsInGroup self.now }
    {
        self.open.is_some()
    }

    /// Takes one more line. `false` says that it may not be here: no text of a section begins so.
    pub fn add(&mut self, line: Line) -> Result<bool, AllocError>
        ensures taken { IfOk result (λ taken. IsTrue taken →
            builder_lines self.new ≡ builder_lines self.old ++ line_words_if_any line) }
        ensures refused { IfOk result (λ taken. taken ≡ false →
            ¬ BeginsSection (builder_lines self.old ++ line_words_if_any line)) }
        ensures fits { OnOk result (HasIndices line → HasBuilderIndices self.old →
            HasBuilderIndices self.new) }
    {
        match line {
            Line::Blank => Ok(true),
            Line::Begin => Ok(self.begin_group()),
            Line::End => self.end_group(),
            Line::Entry(entry) => {
                self.push_entry(entry)?;
                Ok(true)
            }
        }
    }

    fn begin_group(&mut self) -> bool
        ensures taken { IsTrue result → builder_lines self.new ≡ builder_lines self.old ++
            (codes "rec" ∷ []) ∷ [] }
        ensures refused { result ≡ false →
            ¬ BeginsSection (builder_lines self.old ++ (codes "rec" ∷ []) ∷ []) }
        ensures fits { HasBuilderIndices self.old → HasBuilderIndices self.new }
    {
        if self.open.is_some() {
            return false;
        }
        self.open = Some(Vec::new(self.alloc));
        true
    }

    #[tactic(auto, using(crate::proofs::Gathering::Prefixes::groups_more))]
    fn end_group(&mut self) -> Result<bool, AllocError>
        ensures taken { IfOk result (λ taken. IsTrue taken →
            builder_lines self.new ≡ builder_lines self.old ++ (codes "end" ∷ []) ∷ []) }
        ensures refused { IfOk result (λ taken. taken ≡ false →
            ¬ BeginsSection (builder_lines self.old ++ (codes "end" ∷ []) ∷ [])) }
        ensures fits { OnOk result (HasBuilderIndices self.old → HasBuilderIndices self.new) }
    {
        let Some(mut entries) = self.open.take() else {
            return Ok(false);
        };
        entries.shrink_to_fit();
        self.groups.push(GroupAt::Rec(Listed::from_vec(entries)))?;
        Ok(true)
    }

    #[tactic(auto, using(crate::proofs::Gathering::Prefixes::groups_more, crate::proofs::Gathering::Prefixes::entries_more))]
    fn push_entry(&mut self, entry: EntryAt) -> Result<(), AllocError>
        ensures lines { OnOk result (builder_lines self.new ≡ builder_lines self.old ++
            entry_words entry ∷ []) }
        ensures fits { OnOk result (AreIndices (names_of (entry_definition entry)) →
            HasBuilderIndices self.old → HasBuilderIndices self.new) }
    {
        match &mut self.open {
            Some(entries) => entries.push(entry)?,
            None => self.groups.push(GroupAt::Single(entry))?,
        }
        Ok(())
    }

    /// The groups, where no recursion group is open.
    #[tactic(auto, using(crate::proofs::Gathering::Prefixes::still_open))]
    pub fn finish(self) -> Option<Vec<GroupAt>>
        ensures found { IfSome result (λ groups. section_lines groups.items ≡ builder_lines self) }
        ensures fits { IfSome result (λ groups. HasBuilderIndices self →
            HasSectionIndices groups.items) }
        ensures none { IfNone result (¬ IsSectionText (builder_lines self)) }
    {
        if self.open.is_some() {
            return None;
        }
        Some(self.groups)
    }
}

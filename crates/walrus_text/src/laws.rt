//! Laws of texts. Each function does nothing; its clause is a theorem, which a caller gets by
//! calling it.
ghost use Rattle.std.specs.Prelude.{◌≡◌, ◌↔◌, ℕ, List};
ghost use Rattle.walrus_ty.specs.declared.records.GroupAt.{GroupAt};
ghost use Rattle.walrus_text.specs.Words.{lines_of, text_of};
ghost use Rattle.walrus_text.specs.Spacing.{IsSameButForSpace};
ghost use Rattle.walrus_text.specs.Text.{HasSectionIndices, IsTextOf, section_lines};

/// Two texts are the same but for spaces and lines without words exactly where their lines of words
/// are the same. So the clauses of [`read_section`](crate::read_section), which speak of lines of
/// words, say all of a text that counts, and nothing else of it.
pub fn words_alone_count()
    ensures { (t u : List ℕ) → (IsSameButForSpace t u ↔ lines_of t ≡ lines_of u) }
{}

/// Two sections with the same lines are the same, if their indices are below 2^32, as in every
/// section that [`read_section`](crate::read_section) returns. So the section of a text is the only
/// one with its lines.
pub fn same_lines()
    ensures { (a b : List GroupAt) → HasSectionIndices a → HasSectionIndices b →
        section_lines a ≡ section_lines b → a ≡ b }
{}

/// A text is the text of at most one section.
pub fn one_section()
    ensures { (text : List ℕ) (a b : List GroupAt) → IsTextOf text a → IsTextOf text b → a ≡ b }
{}

/// What [`write_section`](crate::write_section) writes is a text of the groups, if their indices
/// are below 2^32, and of no others. So reading it gives them back.
pub fn written_section_is_read_back()
    ensures { (groups : List GroupAt) → HasSectionIndices groups →
        IsTextOf (text_of (section_lines groups)) groups }
{}

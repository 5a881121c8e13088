//! A section from a reader, one line of text at a time.
ghost use Rattle.std.specs.Prelude.{◌≡◌, ◌++◌, ◌∷◌, [], ◌+◌, ◌<◌, ◌^◌, ℕ, List, false, length, IsTrue, IfOk, IfErr, OnOk, IfSome};
ghost use Rattle.walrus_text.specs.Words.{lines_of};
ghost use Rattle.walrus_text.specs.Steps.Words.{words_if_any};
ghost use Rattle.walrus_text.specs.Text.{BeginsSection, HasSectionIndices, IsSectionText, section_lines};
ghost use Rattle.walrus_text.specs.Errors.{IsFirstBadLine, bad_line};
ghost use Rattle.walrus_text.specs.Steps.Builder.{HasBuilderIndices, builder_lines};
ghost use Rattle.walrus_text.specs.Steps.Bytes.{Counts, HasReadBytes, HasReadText, HasChecked, IsOneLine};

use crate::error::{BadLine, Expected, TextError};
use crate::parse::{find_fault, read_line};
use crate::section_builder::SectionBuilder;
use crate::words::next_line;
use std::alloc::{AllocError, Global};
use std::io::Read;
use walrus_ty::GroupAt;

/// The greatest number of reads without the end.
const READ_LIMIT: u64 = 1 << 48;

/// The number of bytes that one read asks for.
const BLOCK: usize = 8192;

/// Returns the groups of the text that a reader gives up to its end, in the grammar of [this
/// crate](crate). The reader needs no buffer: each read asks for 8192 bytes. Indices are below
/// 2^32; what they name is not checked.
///
/// # Errors
///
/// [`TextError::BadText`] has the first bad line, the column of its first bad word, and what has to
/// be there. The text is read to its end even after it. [`TextError::Stream`] comes where a read
/// fails, or where 2^48 reads did not come to the end, and [`TextError::Memory`] where memory was
/// refused. After these two some of the text may be unread. After an error there are no groups.
///
/// # A group of two types
///
/// ```
/// let mut reader = b"rec\nstruct null:1\nopen func i32 ->\nend".as_slice();
/// let groups = read_section(alloc, &mut reader)?;
/// assert_eq!(rt; groups.len(), 1);
/// ```
pub fn read_section<R: Read>(alloc: Global, reader: &mut R) -> Result<Vec<GroupAt>, TextError>
    // The groups that are returned have this text,
    ensures read { IfOk result (λ groups.
        IfSome (R.remaining reader.old) (λ text. lines_of text ≡ section_lines groups.items)) }
    // and their indices are below 2^32.
    ensures fits { IfOk result (λ groups. HasSectionIndices groups.items) }
    // A text with a bad line is not the text of a section.
    ensures refused { IfErr result (λ e. IfSome (R.remaining reader.old) (λ text.
        IfSome (bad_line e) (λ line. ¬ IsSectionText (lines_of text)))) }
    // The line that is named is the first bad one.
    ensures first { IfErr result (λ e. IfSome (R.remaining reader.old) (λ text.
        IfSome (bad_line e) (IsFirstBadLine text))) }
{
    let mut lines = LineReader::new(alloc);
    let mut block = [0u8; BLOCK];
    for turn in 0..READ_LIMIT {
        let Ok(count) = reader.read(&mut block) else {
            return Err(TextError::Stream);
        };
        if count == 0 {
            return lines.finish();
        }
        lines.push_bytes(&block[..count])?;
    }
    Err(TextError::Stream)
}

/// A text that is read block by block.
#[derive(Drop)]
struct LineReader {
    /// What the whole lines say, up to the first bad one.
    section: SectionBuilder,
    /// The bytes of the line that has not ended.
    line: Vec<u8>,
    /// How many lines have ended.
    lines: u64,
    /// The first bad line.
    bad: Option<BadLine>,
    alloc: Global,
}

impl LineReader {
    #[tactic(auto, using(crate::proofs::Gathering::Bytes::nothing_read))]
    fn new(alloc: Global) -> LineReader
        ensures { HasReadBytes result [] }
    {
        LineReader {
            section: SectionBuilder::new(alloc),
            line: Vec::new(alloc),
            lines: 0,
            bad: None,
            alloc,
        }
    }

    fn push_bytes(&mut self, block: &[u8]) -> Result<(), AllocError>
        ensures { OnOk result ((bytes : List ℕ) → HasReadBytes self.old bytes →
            HasReadBytes self.new (bytes ++ block.now)) }
    {
        let mut rest = block;
        while let Some((line, after)) = next_line(rest) {
            self.push_line(line)?;
            rest = after;
        }
        self.push_part(rest)?;
        Ok(())
    }

    /// Takes bytes without a line feed, and then a line feed.
    fn push_line(&mut self, part: &[u8]) -> Result<(), AllocError>
        requires { IsOneLine part.now }
        ensures { OnOk result ((bytes : List ℕ) → HasReadBytes self.old bytes →
            HasReadBytes self.new (bytes ++ (part.now ++ 10 ∷ []))) }
    {
        self.push_part(part)?;
        self.end_line()?;
        Ok(())
    }

    /// Takes bytes without a line feed.
    fn push_part(&mut self, part: &[u8]) -> Result<(), AllocError>
        requires { IsOneLine part.now }
        ensures { OnOk result ((bytes : List ℕ) → HasReadBytes self.old bytes →
            HasReadBytes self.new (bytes ++ part.now)) }
    {
        self.line.extend_from_slice(part)?;
        Ok(())
    }

    /// Ends the line, as a line feed does.
    fn end_line(&mut self) -> Result<(), AllocError>
        ensures empty { OnOk result (self.new.line.items ≡ []) }
        ensures read { OnOk result ((bytes : List ℕ) → HasReadBytes self.old bytes →
            HasReadBytes self.new (bytes ++ 10 ∷ [])) }
    {
        self.lines = self.lines.saturating_add(1);
        self.check_line()?;
        self.line.clear();
        Ok(())
    }

    /// Adds the line to the section, and marks it where it is the first bad one.
    fn check_line(&mut self) -> Result<(), AllocError>
        ensures line { OnOk result (self.new.line.items ≡ self.old.line.items) }
        ensures lines { OnOk result (self.new.lines ≡ self.old.lines) }
        ensures checked { OnOk result ((lines : List (List ℕ)) →
            Counts self.old.lines (length lines + 1) → HasBuilderIndices self.old.section →
            HasChecked self.old.section self.old.bad lines →
            HasChecked self.new.section self.new.bad (lines ++ self.old.line.items ∷ [])) }
        ensures fits { OnOk result (HasBuilderIndices self.old.section →
            HasBuilderIndices self.new.section) }
    {
        if self.bad.is_some() {
            return Ok(());
        }
        if !self.add_line()? {
            self.bad = Some(self.bad_line());
        }
        Ok(())
    }

    /// What is wrong with the line, which is bad.
    fn bad_line(&self) -> BadLine
        ensures { result.line ≡ self.now.lines }
    {
        let (expected, column) = find_fault(self.line.as_slice(), self.section.is_in_group());
        BadLine {
            line: self.lines,
            column,
            expected,
        }
    }

    /// Adds the line to the section. `false` says that no text of a section has it here.
    fn add_line(&mut self) -> Result<bool, AllocError>
        ensures line { self.new.line.items ≡ self.old.line.items }
        ensures lines { self.new.lines ≡ self.old.lines }
        ensures bad { self.new.bad ≡ self.old.bad }
        ensures taken { IfOk result (λ taken. IsTrue taken →
            builder_lines self.new.section ≡ builder_lines self.old.section ++
            words_if_any self.old.line.items) }
        ensures refused { IfOk result (λ taken. taken ≡ false →
            ¬ BeginsSection (builder_lines self.old.section ++ words_if_any self.old.line.items)) }
        ensures fits { OnOk result (HasBuilderIndices self.old.section →
            HasBuilderIndices self.new.section) }
    {
        match read_line(self.alloc, self.line.as_slice())? {
            Some(line) => self.section.add(line),
            None => Ok(false),
        }
    }

    /// Ends the last line, whose line feed may be missing.
    fn end_last_line(&mut self) -> Result<(), AllocError>
        ensures { OnOk result ((bytes : List ℕ) → HasReadBytes self.old bytes →
            HasReadText self.new bytes) }
    {
        if self.line.as_slice().is_empty() {
            return Ok(());
        }
        self.end_line()?;
        Ok(())
    }

    fn finish(mut self) -> Result<Vec<GroupAt>, TextError>
        ensures read { IfOk result (λ groups. (bytes : List ℕ) → HasReadBytes self bytes →
            lines_of bytes ≡ section_lines groups.items) }
        ensures fits { IfOk result (λ groups. (bytes : List ℕ) → HasReadBytes self bytes →
            HasSectionIndices groups.items) }
        ensures refused { IfErr result (λ e. (bytes : List ℕ) → HasReadBytes self bytes →
            length bytes < 2 ^ 63 → IfSome (bad_line e) (IsFirstBadLine bytes)) }
    {
        self.end_last_line()?;
        if let Some(bad) = self.bad {
            return Err(TextError::BadText(bad));
        }
        match self.section.finish() {
            Some(groups) => Ok(groups),
            None => Err(TextError::BadText(BadLine {
                line: self.lines.saturating_add(1),
                column: 1,
                expected: Expected::End,
            })),
        }
    }
}

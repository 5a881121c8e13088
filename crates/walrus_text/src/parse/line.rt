//! Lines of a section.
ghost use Rattle.std.specs.Prelude.{◌≡◌, ◌≢◌, ◌∷◌, [], false, IsTrue, IfOk, IfSome, IfNone};
ghost use Rattle.walrus_text.specs.Words.{words_of};
ghost use Rattle.walrus_text.specs.Steps.Lines.{HasIndices, line_words, IsLine};

use crate::parse::entry::entry;
use crate::words::{is_blank, next_word};
use std::alloc::{AllocError, Global};
use walrus_ty::EntryAt;

/// A line of a section.
#[derive(Drop)]
pub enum Line {
    /// No words.
    Blank,
    /// `rec`: a recursion group begins.
    Begin,
    /// `end`: the recursion group ends.
    End,
    /// A definition.
    Entry(EntryAt),
}

/// What a line says; `None` where it is no line of a section.
#[tactic(auto, using(crate::proofs::Parsing::Entries::blank_is))]
pub fn read_line(alloc: Global, line: &[u8]) -> Result<Option<Line>, AllocError>
    ensures found { IfOk result (λ found. IfSome found (λ l. words_of line.now ≡ line_words l)) }
    ensures fits { IfOk result (λ found. IfSome found HasIndices) }
    ensures none { IfOk result (λ found. IfNone found (¬ IsLine (words_of line.now))) }
{
    let Some((word, rest)) = next_word(line) else {
        return Ok(Some(Line::Blank));
    };
    if is_alone(word, rest, b"rec") {
        return Ok(Some(Line::Begin));
    }
    if is_alone(word, rest, b"end") {
        return Ok(Some(Line::End));
    }
    let Some(entry) = entry(alloc, word, rest)? else {
        return Ok(None);
    };
    Ok(Some(Line::Entry(entry)))
}

/// Whether the first word of a line is this one, and the rest has no word.
#[tactic(auto, using(crate::proofs::Parsing::Entries::blank_is))]
fn is_alone(word: &[u8], rest: &[u8], wanted: &[u8]) -> bool
    ensures yes { IsTrue result → word.now ∷ words_of rest.now ≡ wanted.now ∷ [] }
    ensures no { result ≡ false → word.now ∷ words_of rest.now ≢ wanted.now ∷ [] }
{
    if word != wanted {
        return false;
    }
    is_blank(rest)
}

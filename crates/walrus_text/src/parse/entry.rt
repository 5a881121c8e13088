//! Definitions, each a line of words.
ghost use Rattle.std.specs.Prelude.{◌≡◌, ◌≢◌, ◌<◌, ◌^◌, ◌++◌, ◌∷◌, [], ℕ, List, length, map, codes, decimal, IfOk, IfSome, IfNone};
ghost use Rattle.std.specs.List.{flat_map};
ghost use Rattle.walrus_ty.specs.Value.{val_names, field_names};
ghost use Rattle.walrus_ty.specs.Definition.{names_of, composite_names, supertype_names};
ghost use Rattle.walrus_ty.specs.Records.{comp_composite, entry_definition};
ghost use Rattle.walrus_text.specs.Words.{words_of};
ghost use Rattle.walrus_text.specs.Text.{AreIndices, IsText, val_word, field_word, composite_words, supertype_words, open_words, entry_words};
ghost use Rattle.walrus_text.specs.Steps.Parts.{BeginsWith, IsSupertypeWord, IsValWord, IsFieldWord, IsCompositeLine, IsSubtypeLine, IsEntryLine};

use crate::parse::value::{after_prefix, field_type, type_index, value_type};
use crate::words::{first_index, is_blank, is_word, next_word};
use std::alloc::{AllocError, Global};
use walrus_ty::{CompAt, EntryAt, FieldAt, Listed, ValAt};

/// A definition, from its first word on: `open` where it is not final, `sub:` and its supertype
/// where it has one, then what it is made of.
#[tactic(auto, using(crate::proofs::Parsing::Entries::fits_both))]
pub fn entry(alloc: Global, word: &[u8], rest: &[u8]) -> Result<Option<EntryAt>, AllocError>
    ensures found { IfOk result (λ found.
        IfSome found (λ e. word.now ∷ words_of rest.now ≡ entry_words e)) }
    ensures fits { IfOk result (λ found. IfSome found
        (λ e. AreIndices (names_of (entry_definition e)))) }
    ensures none { IfOk result (λ found.
        IfNone found (¬ IsEntryLine (word.now ∷ words_of rest.now))) }
{
    let Some((is_final, word, rest)) = finality(word, rest) else {
        return Ok(None);
    };
    let Some((supertype, word, rest)) = supertype(word, rest) else {
        return Ok(None);
    };
    let Some(comp) = composite(alloc, word, rest)? else {
        return Ok(None);
    };
    Ok(Some(EntryAt {
        comp,
        is_final,
        supertype,
    }))
}

/// Whether a definition is final, the first word of what follows, and the rest of the line. `None`
/// says that no word follows.
#[tactic(auto, using(crate::proofs::Parsing::Entries::without_open, crate::proofs::Parsing::Entries::only_open))]
fn finality<'a>(word: &'a [u8], rest: &'a [u8]) -> Option<(bool, &'a [u8], &'a [u8])>
    ensures value { IfSome result (λ found. word.now ∷ words_of rest.now ≡
        open_words found.0 ++ found.1.now ∷ words_of found.2.now) }
    ensures only { IfSome result (λ found. IsEntryLine (word.now ∷ words_of rest.now) →
        IsSubtypeLine (found.1.now ∷ words_of found.2.now)) }
    ensures none { IfNone result (¬ IsEntryLine (word.now ∷ words_of rest.now)) }
{
    if !is_word(word, b"open") {
        return Some((true, word, rest));
    }
    let (word, rest) = next_word(rest)?;
    Some((false, word, rest))
}

/// The supertype of a definition, the first word of what follows, and the rest of the line. `None`
/// says that no word follows.
#[tactic(auto, using(crate::proofs::Parsing::Entries::after_supertype, crate::proofs::Parsing::Entries::without_supertype, crate::proofs::Parsing::Entries::only_supertype))]
fn supertype<'a>(word: &'a [u8], rest: &'a [u8]) -> Option<(Option<u32>, &'a [u8], &'a [u8])>
    ensures value { IfSome result (λ found. word.now ∷ words_of rest.now ≡
        supertype_words found.0 ++ found.1.now ∷ words_of found.2.now) }
    ensures fits { IfSome result (λ found. AreIndices (supertype_names found.0)) }
    ensures only { IfSome result (λ found. IsSubtypeLine (word.now ∷ words_of rest.now) →
        IsCompositeLine (found.1.now ∷ words_of found.2.now)) }
    ensures none { IfNone result (¬ IsSubtypeLine (word.now ∷ words_of rest.now)) }
{
    let Some(number) = supertype_index(word) else {
        return Some((None, word, rest));
    };
    let (word, rest) = next_word(rest)?;
    Some((Some(number), word, rest))
}

/// The supertype that a word names.
pub fn supertype_index(word: &[u8]) -> Option<u32>
    ensures found { IfSome result (λ k. word.now ≡ codes "sub:" ++ decimal k) }
    ensures fits { IfSome result (λ k. k < 2 ^ 32) }
    ensures none { IfNone result (¬ IsSupertypeWord word.now) }
{
    type_index(after_prefix(word, b"sub:")?)
}

/// The rest of the line after this word, where the line begins with it.
pub fn after_word<'a>(line: &'a [u8], wanted: &[u8]) -> Option<&'a [u8]>
    ensures found { IfSome result (λ rest. words_of line.now ≡ wanted.now ∷ words_of rest.now) }
    ensures none { IfNone result ((ws : List (List ℕ)) → words_of line.now ≢ wanted.now ∷ ws) }
{
    let (word, rest) = next_word(line)?;
    if word == wanted { Some(rest) } else { None }
}

#[tactic(auto, using(crate::proofs::Parsing::Entries::no_composite))]
fn composite(alloc: Global, word: &[u8], rest: &[u8]) -> Result<Option<CompAt>, AllocError>
    ensures found { IfOk result (λ found.
        IfSome found (λ c. word.now ∷ words_of rest.now ≡ composite_words c)) }
    ensures fits { IfOk result (λ found. IfSome found
        (λ c. AreIndices (composite_names (comp_composite c)))) }
    ensures none { IfOk result (λ found.
        IfNone found (¬ IsCompositeLine (word.now ∷ words_of rest.now))) }
{
    if is_word(word, b"func") {
        return function(alloc, rest);
    }
    if is_word(word, b"struct") {
        return structure(alloc, rest);
    }
    if is_word(word, b"array") {
        return Ok(array(rest));
    }
    Ok(None)
}

/// A function type, from the word after `func` on.
#[tactic(auto, using(crate::proofs::Parsing::Entries::no_arrow, crate::proofs::Parsing::Entries::more_after_results, crate::proofs::Parsing::Entries::fits_both))]
fn function(alloc: Global, line: &[u8]) -> Result<Option<CompAt>, AllocError>
    ensures found { IfOk result (λ found.
        IfSome found (λ c. codes "func" ∷ words_of line.now ≡ composite_words c)) }
    ensures fits { IfOk result (λ found. IfSome found
        (λ c. AreIndices (composite_names (comp_composite c)))) }
    ensures none { IfOk result (λ found. IfNone found
        (¬ IsCompositeLine (codes "func" ∷ words_of line.now))) }
{
    let (params, rest) = values(alloc, line)?;
    let Some(rest) = after_word(rest, b"->") else {
        return Ok(None);
    };
    let (results, rest) = values(alloc, rest)?;
    if !is_blank(rest) {
        return Ok(None);
    }
    Ok(Some(CompAt::Function {
        params: Listed::from_vec(params),
        results: Listed::from_vec(results),
    }))
}

/// A struct type, from the word after `struct` on.
#[tactic(auto, using(crate::proofs::Parsing::Entries::more_after_fields))]
fn structure(alloc: Global, line: &[u8]) -> Result<Option<CompAt>, AllocError>
    ensures found { IfOk result (λ found.
        IfSome found (λ c. codes "struct" ∷ words_of line.now ≡ composite_words c)) }
    ensures fits { IfOk result (λ found. IfSome found
        (λ c. AreIndices (composite_names (comp_composite c)))) }
    ensures none { IfOk result (λ found. IfNone found
        (¬ IsCompositeLine (codes "struct" ∷ words_of line.now))) }
{
    let (fields, rest) = fields(alloc, line)?;
    if !is_blank(rest) {
        return Ok(None);
    }
    Ok(Some(CompAt::Struct {
        fields: Listed::from_vec(fields),
    }))
}

/// An array type, from the word after `array` on.
#[tactic(auto, using(crate::proofs::Parsing::Entries::no_array))]
fn array(line: &[u8]) -> Option<CompAt>
    ensures found { IfSome result (λ c. codes "array" ∷ words_of line.now ≡ composite_words c) }
    ensures fits { IfSome result (λ c. AreIndices (composite_names (comp_composite c))) }
    ensures none { IfNone result (¬ IsCompositeLine (codes "array" ∷ words_of line.now)) }
{
    let field = only_field(line)?;
    Some(CompAt::Array { field })
}

/// A line that is one field.
fn only_field(line: &[u8]) -> Option<FieldAt>
    ensures found { IfSome result (λ f. words_of line.now ≡ field_word f ∷ []) }
    ensures fits { IfSome result (λ f. AreIndices (field_names f)) }
    ensures none { IfNone result (¬ IsText (λ f. field_word f ∷ [])
        (λ f. AreIndices (field_names f)) (words_of line.now)) }
{
    let (field, rest) = next_field(line)?;
    if is_blank(rest) { Some(field) } else { None }
}

/// The value types that a line begins with, and the rest of the line.
#[tactic(auto, using(crate::proofs::Parsing::Entries::fits_more_values))]
fn values(alloc: Global, line: &[u8]) -> Result<(Vec<ValAt>, &[u8]), AllocError>
    ensures read { IfOk result (λ read. words_of line.now ≡ map val_word read.0.items ++
        words_of read.1.now) }
    ensures fits { IfOk result (λ read. AreIndices (flat_map val_names read.0.items)) }
    ensures stops { IfOk result (λ read. ¬ BeginsWith IsValWord (words_of read.1.now)) }
{
    let mut values = Vec::with_capacity(alloc, initial_capacity(before_arrow(line)))?;
    let mut rest = line;
    while let Some((value, after)) = next_value(rest) {
        values.push(value)?;
        rest = after;
    }
    Ok((values, rest))
}

/// The room to begin with for the words of a line. Few are shorter than `i32` with its space.
fn initial_capacity(line: &[u8]) -> usize {
    line.len() / 4
}

/// The bytes up to the space before the first `->`, or all where there is none.
fn before_arrow(line: &[u8]) -> &[u8] {
    match first_index(line, b'-') {
        Some(arrow) => &line[..arrow.saturating_sub(1)],
        None => line,
    }
}

/// The value type that a line begins with, and the rest of the line.
pub fn next_value(line: &[u8]) -> Option<(ValAt, &[u8])>
    ensures found { IfSome result (λ found. words_of line.now ≡ val_word found.0 ∷
        words_of found.1.now) }
    ensures shorter { IfSome result (λ found. length found.1.now < length line.now) }
    ensures fits { IfSome result (λ found. AreIndices (val_names found.0)) }
    ensures none { IfNone result (¬ BeginsWith IsValWord (words_of line.now)) }
{
    let (word, rest) = next_word(line)?;
    let value = value_type(word)?;
    Some((value, rest))
}

/// The fields that a line begins with, and the rest of the line.
#[tactic(auto, using(crate::proofs::Parsing::Entries::fits_more_fields))]
fn fields(alloc: Global, line: &[u8]) -> Result<(Vec<FieldAt>, &[u8]), AllocError>
    ensures read { IfOk result (λ read. words_of line.now ≡ map field_word read.0.items ++
        words_of read.1.now) }
    ensures fits { IfOk result (λ read. AreIndices (flat_map field_names read.0.items)) }
    ensures stops { IfOk result (λ read. ¬ BeginsWith IsFieldWord (words_of read.1.now)) }
{
    let mut fields = Vec::with_capacity(alloc, initial_capacity(line))?;
    let mut rest = line;
    while let Some((field, after)) = next_field(rest) {
        fields.push(field)?;
        rest = after;
    }
    Ok((fields, rest))
}

/// The field that a line begins with, and the rest of the line.
pub fn next_field(line: &[u8]) -> Option<(FieldAt, &[u8])>
    ensures found { IfSome result (λ found. words_of line.now ≡ field_word found.0 ∷
        words_of found.1.now) }
    ensures shorter { IfSome result (λ found. length found.1.now < length line.now) }
    ensures fits { IfSome result (λ found. AreIndices (field_names found.0)) }
    ensures none { IfNone result (¬ BeginsWith IsFieldWord (words_of line.now)) }
{
    let (word, rest) = next_word(line)?;
    let field = field_type(word)?;
    Some((field, rest))
}

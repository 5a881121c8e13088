//! Where a bad line stops being one of a section, and what has to be there.
ghost use Rattle.std.specs.Prelude.{◌≤◌, ◌+◌, length};
ghost use Rattle.walrus_text.specs.Words.{words_of};
ghost use Rattle.walrus_text.specs.Steps.Parts.{BeginsWith, PassesOver, IsFieldWord, IsValWord};

use crate::error::Expected;
use crate::parse::entry::{after_word, next_field, next_value, supertype_index};
use crate::words::{is_blank, next_word};

/// What has to be where a bad line goes wrong, and the column of that place, counted from 1. A line
/// in a recursion group may be `end`, and one outside may be `rec`.
// The clauses say only that the column is one of the line, or one past its end: the wording of
// errors is tested, and not proved.
pub fn find_fault(line: &[u8], is_in_group: bool) -> (Expected, usize)
    ensures first { 1 ≤ result.1 }
    ensures last { result.1 ≤ length line.now + 1 }
{
    let (expected, rest) = wrong_rest(line, is_in_group);
    (
        expected,
        line.len()
            .saturating_sub(word_and_rest_len(rest))
            .saturating_add(1),
    )
}

/// The number of bytes from the first word on.
fn word_and_rest_len(rest: &[u8]) -> usize {
    match next_word(rest) {
        Some((word, after)) => word.len().saturating_add(after.len()),
        None => 0,
    }
}

/// What has to be where a bad line goes wrong, and the rest of the line from there on.
fn wrong_rest(line: &[u8], is_in_group: bool) -> (Expected, &[u8]) {
    if let Some(rest) = after_word(line, b"rec") {
        return after_bracket(line, rest, is_in_group);
    }
    if let Some(rest) = after_word(line, b"end") {
        return after_bracket(line, rest, is_in_group);
    }
    in_definition(line, is_in_group)
}

/// The fault of a line that should be a definition.
fn in_definition(line: &[u8], is_in_group: bool) -> (Expected, &[u8]) {
    let after_open = after_word(line, b"open");
    let subtype = after_open.unwrap_or(line);
    let composite = after_supertype(subtype);
    let rest = composite.unwrap_or(subtype);
    if let Some(fault) = in_composite(rest) {
        return fault;
    }
    if composite.is_some() {
        return (Expected::Composite, rest);
    }
    if after_open.is_some() {
        return (Expected::SupertypeOrComposite, rest);
    }
    (beginning(is_in_group), rest)
}

/// The fault of a composite type. `None` says that none begins here.
fn in_composite(line: &[u8]) -> Option<(Expected, &[u8])> {
    if let Some(params) = after_word(line, b"func") {
        return Some(in_function(params));
    }
    if let Some(fields) = after_word(line, b"struct") {
        return Some((Expected::FieldOrLineEnd, after_fields(fields)));
    }
    let field = after_word(line, b"array")?;
    Some(in_array(field))
}

/// The rest of a line after the supertype that it begins with.
fn after_supertype(line: &[u8]) -> Option<&[u8]> {
    let (word, rest) = next_word(line)?;
    supertype_index(word)?;
    Some(rest)
}

/// What a line has to begin with.
fn beginning(is_in_group: bool) -> Expected {
    if is_in_group {
        Expected::DefinitionOrEnd
    } else {
        Expected::DefinitionOrRec
    }
}

/// The fault of a line that begins with `rec` or `end`.
fn after_bracket<'a>(line: &'a [u8], rest: &'a [u8], is_in_group: bool) -> (Expected, &'a [u8]) {
    if is_blank(rest) {
        (beginning(is_in_group), line)
    } else {
        (Expected::LineEnd, rest)
    }
}

fn in_function(params: &[u8]) -> (Expected, &[u8]) {
    let rest = after_values(params);
    match after_word(rest, b"->") {
        Some(results) => (Expected::ValueTypeOrLineEnd, after_values(results)),
        None => (Expected::ValueTypeOrArrow, rest),
    }
}

fn in_array(line: &[u8]) -> (Expected, &[u8]) {
    match next_field(line) {
        Some((_, rest)) => (Expected::LineEnd, rest),
        None => (Expected::Field, line),
    }
}

/// The rest of a line after the value types that it begins with.
#[tactic(auto, using(crate::proofs::Parsing::Entries::passes_value))]
fn after_values(line: &[u8]) -> &[u8]
    ensures passed { PassesOver IsValWord (words_of line.now) (words_of result.now) }
    ensures stops { ¬ BeginsWith IsValWord (words_of result.now) }
{
    let mut rest = line;
    while let Some((_, after)) = next_value(rest) {
        rest = after;
    }
    rest
}

/// The rest of a line after the fields that it begins with.
#[tactic(auto, using(crate::proofs::Parsing::Entries::passes_field))]
fn after_fields(line: &[u8]) -> &[u8]
    ensures passed { PassesOver IsFieldWord (words_of line.now) (words_of result.now) }
    ensures stops { ¬ BeginsWith IsFieldWord (words_of result.now) }
{
    let mut rest = line;
    while let Some((_, after)) = next_field(rest) {
        rest = after;
    }
    rest
}

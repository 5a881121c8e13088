//! Small sections as texts, for tests.
//!
//! A text has a word for each entry. A function begins with `f`, one that is not final with `g`, a
//! struct with `s`, one that is not final with `o`, and an array of `i8` with `b`. Then come
//! parameters or fields: `i` is an `i32` and `l` an `i64`; a digit is a nullable reference to the type
//! at this index, `m` one to the type at the greatest index, `x` one to exactly the type at 0, and `y`
//! at 1. The entries between `(` and `)`, which are words too, are those of a `Rec`. The others are
//! lone types.
use std::alloc::{AllocError, Global};
use walrus_types::{CompAt, EntryAt, FieldAt, GroupAt, HeapAt, Listed, RefAt, StorageAt, ValAt};

fn val(letter: u8) -> ValAt {
    let heap_type = match letter {
        b'i' => return ValAt::I32,
        b'l' => return ValAt::I64,
        b'm' => HeapAt::Concrete(u32::MAX),
        b'x' => HeapAt::Exact(0),
        b'y' => HeapAt::Exact(1),
        _ => HeapAt::Concrete(u32::from(letter.wrapping_sub(b'0'))),
    };
    ValAt::Ref(RefAt {
        nullable: true,
        heap_type,
    })
}

fn field(element_type: StorageAt) -> FieldAt {
    FieldAt {
        element_type,
        mutable: false,
    }
}

fn function(alloc: Global, letters: &[u8]) -> Result<CompAt, AllocError> {
    let mut params = Vec::new(alloc);
    for letter in letters {
        params.push(val(*letter))?;
    }
    Ok(CompAt::Function {
        params: Listed::from_vec(params),
        results: Listed::from_vec(Vec::new(alloc)),
    })
}

fn structure(alloc: Global, letters: &[u8]) -> Result<CompAt, AllocError> {
    let mut fields = Vec::new(alloc);
    for letter in letters {
        fields.push(field(StorageAt::Val(val(*letter))))?;
    }
    Ok(CompAt::Struct {
        fields: Listed::from_vec(fields),
    })
}

/// The entry of this word.
pub(crate) fn entry(alloc: Global, word: &str) -> Result<EntryAt, AllocError> {
    let comp = match word.as_bytes() {
        [b'f' | b'g', letters @ ..] => function(alloc, letters)?,
        [b's' | b'o', letters @ ..] => structure(alloc, letters)?,
        _ => CompAt::Array {
            field: field(StorageAt::I8),
        },
    };
    Ok(EntryAt {
        comp,
        is_final: !word.starts_with('o') && !word.starts_with('g'),
        supertype: None,
    })
}

/// The lone type of this word.
pub(crate) fn single(alloc: Global, word: &str) -> Result<GroupAt, AllocError> {
    Ok(GroupAt::Single(entry(alloc, word)?))
}

// Adds a word, where the entries are those of a `Rec` that was begun. Those of one that goes on.
fn add_word(
    alloc: Global,
    groups: &mut Vec<GroupAt>,
    begun: Option<Vec<EntryAt>>,
    word: &str,
) -> Result<Option<Vec<EntryAt>>, AllocError> {
    if word == "(" {
        return Ok(Some(Vec::new(alloc)));
    }
    let Some(mut entries) = begun else {
        groups.push(single(alloc, word)?)?;
        return Ok(None);
    };
    if word == ")" {
        groups.push(GroupAt::Rec(Listed::from_vec(entries)))?;
        return Ok(None);
    }
    entries.push(entry(alloc, word)?)?;
    Ok(Some(entries))
}

/// The section of this text.
pub(crate) fn section(alloc: Global, text: &str) -> Result<Vec<GroupAt>, AllocError> {
    let mut groups = Vec::new(alloc);
    let mut begun = None;
    for word in text.split_whitespace() {
        begun = add_word(alloc, &mut groups, begun, word)?;
    }
    Ok(groups)
}

/// The section of this text. It is made again after a refusal.
pub(crate) fn section_again(alloc: Global, text: &str) -> Result<Vec<GroupAt>, AllocError> {
    section(alloc, text).or_else(|_| section(alloc, text))
}

fn numbers(alloc: Global, text: &str) -> Result<Vec<u32>, AllocError> {
    let mut numbers = Vec::new(alloc);
    for word in text.split_whitespace() {
        if let Ok(number) = word.parse() {
            numbers.push(number)?;
        }
    }
    Ok(numbers)
}

/// The numbers of this text. They are read again after a refusal.
pub(crate) fn numbers_again(alloc: Global, text: &str) -> Result<Vec<u32>, AllocError> {
    numbers(alloc, text).or_else(|_| numbers(alloc, text))
}

fn first_column(line: &str) -> (&str, &str) {
    let (first, rest) = line.split_once('|').unwrap_or((line, ""));
    (first.trim(), rest)
}

/// The columns of a row, with `|` between them.
pub(crate) fn columns(row: &str) -> [&str; 5] {
    let (first, rest) = first_column(row);
    let (second, rest) = first_column(rest);
    let (third, rest) = first_column(rest);
    let (fourth, rest) = first_column(rest);
    [first, second, third, fourth, rest.trim()]
}

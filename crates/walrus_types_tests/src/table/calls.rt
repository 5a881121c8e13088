//! Tables as texts: a line for each call, and behind a `=` what it returns.
//!
//! A line without a space before it begins a new table, and is its name. A type is a word, `func`,
//! `struct`, `array` or `entry`, and letters: `i` is an `i32`, `l` an `i64`, `d` an `f64`, and a digit
//! a nullable reference to the type with this id. Behind `>` come the results of a function.
ghost use Rattle.walrus_types.specs.TypesById.{IsLive};

use super::*;
use walrus_types::RecGroup;

fn val(letter: u8) -> ValType {
    match letter {
        b'i' => Val::I32,
        b'l' => Val::I64,
        b'd' => Val::F64,
        _ => reference(usize::from(letter.wrapping_sub(b'0'))),
    }
}

fn vals(rt: &impl Abort, alloc: Global, letters: &str) -> Vec<ValType> {
    let mut vals = Vec::new(alloc);
    for letter in letters.as_bytes() {
        vals.push(val(*letter)).expect(rt, "memory");
    }
    vals
}

// The first word, and what comes behind it.
fn first_word(text: &str) -> (&str, &str) {
    text.split_once(' ').unwrap_or((text, ""))
}

// The parameters and results of these letters.
fn two_lists(rt: &impl Abort, alloc: Global, letters: &str) -> (Vec<ValType>, Vec<ValType>) {
    let (params, results) = letters.split_once('>').unwrap_or((letters, ""));
    (vals(rt, alloc, params), vals(rt, alloc, results))
}

fn fields(rt: &impl Abort, alloc: Global, letters: &str) -> Vec<FieldType> {
    let mut fields = Vec::new(alloc);
    for letter in letters.as_bytes() {
        fields.push(field(val(*letter))).expect(rt, "memory");
    }
    fields
}

fn first_field(letters: &str) -> FieldType {
    field(val(letters.as_bytes().first().copied().unwrap_or(b'i')))
}

fn kind(rt: &impl Abort, alloc: Global, of: &str) -> CompositeType {
    let (word, letters) = first_word(of);
    if word == "struct" {
        let fields = Listed::from_vec(fields(rt, alloc, letters));
        return CompositeType::Struct(StructType { fields });
    }
    let (params, results) = two_lists(rt, alloc, letters);
    CompositeType::Function(FunctionType::new(params, results))
}

/// The id of this index.
pub(crate) fn id(rt: &impl Abort, word: &str) -> TypeId {
    TypeId::from_index(word.parse().ok().expect(rt, "a number"))
}

// The id, which has to be live.
fn live_id(rt: &impl Abort, types: &ModuleTypes, word: &str) -> TypeId
    ensures { IsLive types.now.types.slots result }
{
    let id = id(rt, word);
    assert!(rt; types.contains(id));
    id
}

// A final composite of each type.
fn members(
    rt: &impl Abort,
    alloc: Global,
    types: &str,
) -> Result<Vec<(CompositeType, bool, Option<TypeId>)>, AllocError> {
    let mut members = Vec::new(alloc);
    for of in types.split(", ") {
        if !of.is_empty() {
            members.push(member(kind(rt, alloc, of)))?;
        }
    }
    Ok(members)
}

// The text of ids, with a space before each.
fn text_of(rt: &impl Abort, alloc: Global, ids: &[TypeId]) -> String {
    let mut text = String::new(alloc);
    for id in ids {
        write!(text, " {}", id.index()).expect(rt, "memory");
    }
    text
}

fn add(rt: &impl Abort, alloc: Global, types: &mut ModuleTypes, of: &str) -> TypeId {
    let (word, letters) = first_word(of);
    let added = match word {
        "struct" => types.add_struct(fields(rt, alloc, letters)),
        "array" => types.add_array(first_field(letters)),
        "entry" => types.add_entry_ty(vals(rt, alloc, letters).as_slice()),
        _ => {
            let (params, results) = two_lists(rt, alloc, letters);
            types.add(params.as_slice(), results.as_slice())
        }
    };
    added.expect(rt, "memory")
}

// A composite type that is added without finality, or as a final one below the first id.
fn add_below(rt: &impl Abort, alloc: Global, types: &mut ModuleTypes, words: &str) -> TypeId {
    let (above, of) = first_word(words);
    let added = if above == "none" {
        types.add_composite(kind(rt, alloc, of), false, None)
    } else {
        types.add_composite(kind(rt, alloc, of), true, Some(id(rt, above)))
    };
    added.expect(rt, "memory")
}

fn find(rt: &impl Abort, alloc: Global, types: &ModuleTypes, of: &str) -> Option<TypeId> {
    let (word, letters) = first_word(of);
    let (params, results) = two_lists(rt, alloc, letters);
    if word == "entry" {
        return types.find_for_function_entry(params.as_slice());
    }
    types.find(params.as_slice(), results.as_slice())
}

// A call that returns an id.
fn call_for_id(
    rt: &impl Abort,
    alloc: Global,
    types: &mut ModuleTypes,
    word: &str,
    of: &str,
) -> Option<TypeId> {
    match word {
        "add" => Some(add(rt, alloc, types, of)),
        "add_composite" => Some(add_below(rt, alloc, types, of)),
        "next_id" => Some(types.next_id()),
        "by_name" => types.by_name(of),
        _ => find(rt, alloc, types, of),
    }
}

fn ids_in_order(rt: &impl Abort, alloc: Global, types: &ModuleTypes) -> Vec<TypeId> {
    let mut ids = Vec::new(alloc);
    for ty in types.iter() {
        ids.push(ty.id()).expect(rt, "memory");
    }
    ids
}

fn add_group(rt: &impl Abort, alloc: Global, types: &mut ModuleTypes, of: &str) -> Vec<TypeId> {
    let members = members(rt, alloc, of).expect(rt, "memory");
    let added = types.add_rec_group(members.len(), |_| Ok(members));
    added.expect(rt, "memory")
}

// A call that returns ids.
fn call_for_ids(
    rt: &impl Abort,
    alloc: Global,
    types: &mut ModuleTypes,
    word: &str,
    of: &str,
) -> Vec<TypeId> {
    match word {
        "add_rec_group" => add_group(rt, alloc, types, of),
        "add_pair" => add_pair(alloc, types, 2).expect(rt, "memory"),
        "live_ids" => types.live_ids().expect(rt, "memory"),
        _ => ids_in_order(rt, alloc, types),
    }
}

// The ids of a group, in parentheses if it is an explicit one.
fn text_of_group(rt: &impl Abort, alloc: Global, group: &RecGroup) -> String {
    let ids = text_of(rt, alloc, group.types.as_slice());
    let made = if group.is_explicit {
        format!(in alloc; " ({})", ids.as_str().trim())
    } else {
        format!(in alloc; "{ids}")
    };
    made.expect(rt, "memory")
}

fn text_of_groups(rt: &impl Abort, alloc: Global, types: &ModuleTypes) -> String {
    let mut text = String::new(alloc);
    for group in types.rec_groups() {
        let of_group = text_of_group(rt, alloc, group);
        text.push_str(of_group.as_str()).expect(rt, "memory");
    }
    text
}

fn text_of_type(rt: &impl Abort, alloc: Global, types: &ModuleTypes, of: &str) -> String {
    let ty = types.get(live_id(rt, types, of));
    let word = if ty.is_for_function_entry() {
        "entry "
    } else {
        ""
    };
    format!(in alloc; "{word}{}", ty.kind()).expect(rt, "memory")
}

fn group_of(rt: &impl Abort, alloc: Global, types: &ModuleTypes, of: &str) -> String {
    match types.rec_group_for_type(id(rt, of)) {
        Some(group) => text_of_group(rt, alloc, group),
        None => String::from_str(alloc, "none").expect(rt, "memory"),
    }
}

fn try_delete(rt: &impl Abort, types: &mut ModuleTypes, of: &str) -> bool {
    let id = live_id(rt, types, of);
    types.try_delete(id).expect(rt, "memory")
}

// A call that changes types, and returns nothing.
fn change(rt: &impl Abort, alloc: Global, types: &mut ModuleTypes, word: &str, words: &str) {
    let (of, rest) = first_word(words);
    let id = live_id(rt, types, of);
    match word {
        "kind_mut" => *types.get_mut(id).kind_mut() = kind(rt, alloc, rest),
        "name" => types.get_mut(id).name = String::from_str(alloc, rest).ok(),
        "copy_over" => copy_over(rt, types, of, rest),
        "delete" => types.delete(id).expect(rt, "memory"),
        "delete_entire_group" => types.delete_entire_group(id).expect(rt, "memory"),
        _ => panic!(rt; "no call: {word}"),
    }
}

// A clone of the type of one id is written over the type of another.
fn copy_over(rt: &impl Abort, types: &mut ModuleTypes, from: &str, to: &str) {
    let copy = types
        .get(live_id(rt, types, from))
        .clone()
        .expect(rt, "memory");
    let to = live_id(rt, types, to);
    *types.get_mut(to) = copy;
}

fn text_of_id(rt: &impl Abort, alloc: Global, id: Option<TypeId>) -> String {
    match id {
        Some(id) => text_of(rt, alloc, &[id]),
        None => String::from_str(alloc, "none").expect(rt, "memory"),
    }
}

// What the call returns.
fn call(rt: &impl Abort, alloc: Global, types: &mut ModuleTypes, line: &str) -> String {
    let (word, of) = first_word(line);
    match word {
        "add" | "add_composite" | "next_id" | "by_name" | "find" => {
            text_of_id(rt, alloc, call_for_id(rt, alloc, types, word, of))
        }
        "add_rec_group" | "add_pair" | "live_ids" | "iter" => {
            text_of(
                rt,
                alloc,
                call_for_ids(rt, alloc, types, word, of).as_slice(),
            )
        }
        "rec_groups" => text_of_groups(rt, alloc, types),
        "rec_group_for_type" => group_of(rt, alloc, types, of),
        "kind" => text_of_type(rt, alloc, types, of),
        "try_delete" => { format!(in alloc; "{}", try_delete(rt, types, of)).expect(rt, "memory") }
        _ => {
            change(rt, alloc, types, word, of);
            String::new(alloc)
        }
    }
}

// Makes the call of a line. It must return what stands behind the `=`.
fn call_line(rt: &impl Abort, alloc: Global, types: &mut ModuleTypes, name: &str, line: &str) {
    let (made, wanted) = line.split_once('=').unwrap_or((line, ""));
    let said = call(rt, alloc, types, made.trim());
    assert_eq!(rt; said.as_str().trim(), wanted.trim(), "{name}: {line}");
}

/// All calls of the text return what they have to.
pub(crate) fn make_all(rt: &impl Abort, alloc: Global, text: &str) {
    let mut types = ModuleTypes::new(alloc);
    let mut name = "";
    for line in text.lines() {
        if line.starts_with(' ') {
            call_line(rt, alloc, &mut types, name, line);
        } else {
            name = line;
            types = ModuleTypes::new(alloc);
        }
    }
}

/// The table that these calls make.
pub(crate) fn make(rt: &impl Abort, alloc: Global, name: &str, calls: &str) -> ModuleTypes {
    let mut types = ModuleTypes::new(alloc);
    for line in calls.split("; ") {
        call_line(rt, alloc, &mut types, name, line);
    }
    types
}

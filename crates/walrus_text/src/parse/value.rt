//! Heap types, value types and fields, each one word.
ghost use Rattle.std.specs.Prelude.{◌≡◌, ◌≢◌, ◌<◌, ◌≤◌, ◌^◌, ◌++◌, ℕ, List, codes, decimal, length, IfSome, IfNone};
ghost use Rattle.walrus_ty.specs.Value.{heap_names, val_names, storage_names, field_names};
ghost use Rattle.walrus_text.specs.Text.{AreIndices, IsText, name_word, heap_word, val_word, storage_word, field_word};
ghost use Rattle.walrus_text.specs.Steps.Parts.{IsIndexWord, IsNameWord, IsPlainWord, IsPackedWord, has_sign_or_leading_zero, IsHeapWord, IsValWord, IsStorageWord, IsFieldWord};

use crate::words::is_word;
use walrus_ty::{AbstractHeapType, FieldAt, HeapAt, RefAt, StorageAt, ValAt};

/// The number of a type: decimal, below 2^32, without a sign and without leading zeros.
pub fn type_index(word: &[u8]) -> Option<u32>
    ensures found { IfSome result (λ k. word.now ≡ decimal k) }
    ensures fits { IfSome result (λ k. k < 2 ^ 32) }
    ensures none { IfNone result (¬ IsIndexWord word.now) }
{
    number(str::from_utf8(word).ok()?)
}

fn number(text: &str) -> Option<u32>
    ensures found { IfSome result (λ k. text.now ≡ decimal k) }
    ensures fits { IfSome result (λ k. k < 2 ^ 32) }
    ensures none { IfNone result (¬ IsIndexWord text.now) }
{
    if has_sign_or_leading_zero(text.as_bytes()) {
        return None;
    }
    text.parse().ok()
}

/// Whether a sign or zeros precede the digits.
fn has_sign_or_leading_zero(word: &[u8]) -> bool
    ensures { result ≡ has_sign_or_leading_zero word.now }
{
    let first = word.first().copied().unwrap_or(0);
    first == b'+' || first == b'0' && word.len() > 1
}

/// A heap type that the WebAssembly specification defines, by its name.
pub fn abstract_heap_type(word: &[u8]) -> Option<AbstractHeapType>
    ensures found { IfSome result (λ name. word.now ≡ name_word name) }
    ensures none { IfNone result (¬ IsNameWord word.now) }
{
    if word.len() < 5 {
        short_name(word)
    } else {
        long_name(word)
    }
}

/// A heap type whose name has less than five bytes.
// A `match` on byte strings tests byte by byte, so its proof would take longer.
fn short_name(word: &[u8]) -> Option<AbstractHeapType>
    ensures found { IfSome result (λ name. word.now ≡ name_word name) }
    ensures none { IfNone result (length word.now < 5 → ¬ IsNameWord word.now) }
{
    if is_word(word, b"func") {
        return Some(AbstractHeapType::Func);
    }
    if is_word(word, b"any") {
        return Some(AbstractHeapType::Any);
    }
    if is_word(word, b"none") {
        return Some(AbstractHeapType::None);
    }
    if is_word(word, b"eq") {
        return Some(AbstractHeapType::Eq);
    }
    if is_word(word, b"i31") {
        return Some(AbstractHeapType::I31);
    }
    if is_word(word, b"exn") {
        return Some(AbstractHeapType::Exn);
    }
    None
}

/// A heap type whose name has five bytes or more.
fn long_name(word: &[u8]) -> Option<AbstractHeapType>
    ensures found { IfSome result (λ name. word.now ≡ name_word name) }
    ensures none { IfNone result (5 ≤ length word.now → ¬ IsNameWord word.now) }
{
    if is_word(word, b"extern") {
        return Some(AbstractHeapType::Extern);
    }
    if is_word(word, b"noextern") {
        return Some(AbstractHeapType::NoExtern);
    }
    if is_word(word, b"nofunc") {
        return Some(AbstractHeapType::NoFunc);
    }
    if is_word(word, b"struct") {
        return Some(AbstractHeapType::Struct);
    }
    if is_word(word, b"array") {
        return Some(AbstractHeapType::Array);
    }
    if is_word(word, b"noexn") {
        return Some(AbstractHeapType::NoExn);
    }
    None
}

/// A heap type: the name of an abstract one, or the number of a type, after `exact:` where no
/// subtype is meant.
pub fn heap_type(word: &[u8]) -> Option<HeapAt>
    ensures found { IfSome result (λ h. word.now ≡ heap_word h) }
    ensures fits { IfSome result (λ h. AreIndices (heap_names h)) }
    ensures none { IfNone result (¬ IsHeapWord word.now) }
{
    if let Some(name) = abstract_heap_type(word) {
        return Some(HeapAt::Abstract(name));
    }
    if let Some(number) = type_index(word) {
        return Some(HeapAt::Concrete(number));
    }
    let number = exact_index(word)?;
    Some(HeapAt::Exact(number))
}

fn exact_index(word: &[u8]) -> Option<u32>
    ensures found { IfSome result (λ k. word.now ≡ codes "exact:" ++ decimal k) }
    ensures fits { IfSome result (λ k. k < 2 ^ 32) }
    ensures none { IfNone result (¬ IsText (λ k. codes "exact:" ++ decimal k) (λ k. k < 2 ^ 32)
        word.now) }
{
    type_index(after_prefix(word, b"exact:")?)
}

/// The rest of a word after a prefix.
pub fn after_prefix<'a>(word: &'a [u8], prefix: &[u8]) -> Option<&'a [u8]>
    ensures found { IfSome result (λ rest. word.now ≡ prefix.now ++ rest.now) }
    ensures none { IfNone result ((rest : List ℕ) → word.now ≢ prefix.now ++ rest) }
{
    word.strip_prefix(prefix)
}

/// A value type: a number or vector type by its name, or a heap type after `null:` where the
/// reference may be null and after `ref:` where it may not.
pub fn value_type(word: &[u8]) -> Option<ValAt>
    ensures found { IfSome result (λ v. word.now ≡ val_word v) }
    ensures fits { IfSome result (λ v. AreIndices (val_names v)) }
    ensures none { IfNone result (¬ IsValWord word.now) }
{
    if let Some(plain) = plain_value_type(word) {
        return Some(plain);
    }
    if let Some(heap_type) = after_null(word) {
        return Some(ValAt::Ref(RefAt {
            nullable: true,
            heap_type,
        }));
    }
    let heap_type = after_ref(word)?;
    Some(ValAt::Ref(RefAt {
        nullable: false,
        heap_type,
    }))
}

fn plain_value_type(word: &[u8]) -> Option<ValAt>
    ensures found { IfSome result (λ v. word.now ≡ val_word v) }
    ensures fits { IfSome result (λ v. AreIndices (val_names v)) }
    ensures none { IfNone result (¬ IsPlainWord word.now) }
{
    if is_word(word, b"i32") {
        return Some(ValAt::I32);
    }
    if is_word(word, b"i64") {
        return Some(ValAt::I64);
    }
    if is_word(word, b"f32") {
        return Some(ValAt::F32);
    }
    if is_word(word, b"f64") {
        return Some(ValAt::F64);
    }
    if is_word(word, b"v128") {
        return Some(ValAt::V128);
    }
    None
}

fn after_null(word: &[u8]) -> Option<HeapAt>
    ensures found { IfSome result (λ h. word.now ≡ codes "null:" ++ heap_word h) }
    ensures fits { IfSome result (λ h. AreIndices (heap_names h)) }
    ensures none { IfNone result (¬ IsText (λ h. codes "null:" ++ heap_word h)
        (λ h. AreIndices (heap_names h)) word.now) }
{
    heap_type(after_prefix(word, b"null:")?)
}

fn after_ref(word: &[u8]) -> Option<HeapAt>
    ensures found { IfSome result (λ h. word.now ≡ codes "ref:" ++ heap_word h) }
    ensures fits { IfSome result (λ h. AreIndices (heap_names h)) }
    ensures none { IfNone result (¬ IsText (λ h. codes "ref:" ++ heap_word h)
        (λ h. AreIndices (heap_names h)) word.now) }
{
    heap_type(after_prefix(word, b"ref:")?)
}

/// A field: what it holds, after `mut:` where it can be written.
pub fn field_type(word: &[u8]) -> Option<FieldAt>
    ensures found { IfSome result (λ f. word.now ≡ field_word f) }
    ensures fits { IfSome result (λ f. AreIndices (field_names f)) }
    ensures none { IfNone result (¬ IsFieldWord word.now) }
{
    if let Some(element_type) = storage_type(word) {
        return Some(FieldAt {
            element_type,
            mutable: false,
        });
    }
    let element_type = after_mut(word)?;
    Some(FieldAt {
        element_type,
        mutable: true,
    })
}

fn after_mut(word: &[u8]) -> Option<StorageAt>
    ensures found { IfSome result (λ s. word.now ≡ codes "mut:" ++ storage_word s) }
    ensures fits { IfSome result (λ s. AreIndices (storage_names s)) }
    ensures none { IfNone result (¬ IsText (λ s. codes "mut:" ++ storage_word s)
        (λ s. AreIndices (storage_names s)) word.now) }
{
    storage_type(after_prefix(word, b"mut:")?)
}

fn storage_type(word: &[u8]) -> Option<StorageAt>
    ensures found { IfSome result (λ s. word.now ≡ storage_word s) }
    ensures fits { IfSome result (λ s. AreIndices (storage_names s)) }
    ensures none { IfNone result (¬ IsStorageWord word.now) }
{
    if let Some(packed) = packed_type(word) {
        return Some(packed);
    }
    let value = value_type(word)?;
    Some(StorageAt::Val(value))
}

fn packed_type(word: &[u8]) -> Option<StorageAt>
    ensures found { IfSome result (λ s. word.now ≡ storage_word s) }
    ensures fits { IfSome result (λ s. AreIndices (storage_names s)) }
    ensures none { IfNone result (¬ IsPackedWord word.now) }
{
    if is_word(word, b"i8") {
        return Some(StorageAt::I8);
    }
    if is_word(word, b"i16") {
        return Some(StorageAt::I16);
    }
    None
}

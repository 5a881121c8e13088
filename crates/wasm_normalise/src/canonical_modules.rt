//! A module with its type section in canonical form.
//!
//! WebAssembly core specification, "Binary Format", modules.
ghost use Rattle.std.specs.Prelude.{◌≡◌, IfOk, IfErr, IfNone, IfSome};
ghost use Rattle.wasm_module.specs.Outdated.{IsWrittenAgain, HasOutdatedAt};
ghost use Rattle.wasm_normalise.specs.CanonicalModules.{IsCanonicalModule, IsRefusedBy, DescriptionsFit};
ghost use Rattle.wasm_normalise.specs.Meanings.{NameEqualTypes};
ghost use Rattle.wasm_normalise.specs.Steps.CanonicalModules.{IsRefusal};
ghost use Rattle.wasm_normalise.specs.declared.options.Descriptions.TheVariants as descriptions;

use crate::canonical_types::canonical_types;
use crate::faults::error_of_fault;
use crate::refusal::Refusal;
use crate::{Descriptions, HashKeys, NormaliseModuleError, NormaliseOptions};
use std::alloc::{AllocError, Global};
use wasm_binary::encode_types;
use wasm_module::{find_outdated, rename_module, strip_descriptions};

/// Returns the module with its type section in canonical form, and with every other index of a type
/// written again. Each index outside custom sections means an equal type, by WebAssembly's own
/// equality (WebAssembly core specification, "Types", recursive types). All else stays byte for
/// byte ("Binary Format", "Modules").
///
/// The canonical form is that of [`canonicalise`](walrus_canonical::canonicalise): equal types are
/// merged, also in recursion groups, and of all lists of the same types it is the least. So two
/// modules that differ in nothing but their list of types have the same result. Its text is the
/// shortest one. An index elsewhere is written as [`NormaliseOptions::widths`] says: in the
/// shortest form, or in as many bytes as were there. The size of a function body, a section or a
/// subsection is written again where an index is in it. A module without type section that names no
/// type stays as it is.
///
/// With [`UnusedTypes::Deleted`](crate::UnusedTypes::Deleted) only the types are there that another
/// section names, and with each type its recursion group and all that it names, also as supertype.
/// The names in the custom section `name` use no type. Where all types are deleted the type section
/// stays, empty. [`canonicalise`](walrus_canonical::canonicalise) does the same with a type section
/// alone.
///
/// The names of types and of their fields in the custom section `name` follow the types, and go
/// with deleted ones. Of types that are merged, the one with the least old index that has names
/// keeps its names. A section `name` that can't be read is copied as it is, as are other custom
/// sections: [`find_hazard`](crate::find_hazard) finds it. **A section stops this where what
/// it describes changes**: debug data and branch hints no longer fit where a length in the code
/// changes, and a source map where a length before the end of the code does. Relocations no longer
/// fit where a byte of code or data changes, and a signature where any byte does.
/// [`DescriptionKind`](wasm_module::DescriptionKind) lists the names of these sections. With
/// [`Descriptions::Stripped`] they are left out. With [`Widths::Kept`](crate::Widths::Kept) few
/// lengths change.
///
/// The keys begin the hash by which equal types are found. They change how long the call takes, and
/// no result. Fixed keys are safe where the module is trusted: see [`HashKeys`].
///
/// # Errors
///
/// The type section is judged before all other sections.
///
/// - [`NormaliseModuleError::Types`] comes where the bytes are no module, or the type section is
///   malformed or has a type that no record holds. The error inside says at which byte.
/// - [`NormaliseModuleError::BadIndex`] and [`NormaliseModuleError::TooMany`] come where
///   [`canonicalise`](walrus_canonical::canonicalise) refuses the type section.
/// - [`NormaliseModuleError::Malformed`] comes where another section that can name types is
///   malformed. The error says at which byte.
/// - [`NormaliseModuleError::UnknownType`] comes where another section names a type that the type
///   section does not have. The error says at which byte, and how many types there are. Of this
///   error and the one before, the first from left to right comes.
/// - [`NormaliseModuleError::TooLong`] comes where a function body or a section would get 2^32
///   bytes or more.
/// - [`NormaliseModuleError::Outdated`] comes where the module has a custom section that describes
///   other bytes of it, and these change. The error says where the first such section is. With
///   [`Descriptions::Stripped`] it never comes.
/// - [`NormaliseModuleError::Memory`] comes where memory was refused.
///
/// # A struct and a function type change places
///
/// ```
/// // (type (struct)) (type (func)) (func (type 1))
/// let module = [
///     0, 0x61, 0x73, 0x6D, 1, 0, 0, 0, 1, 6, 2, 0x5F, 0, 0x60, 0, 0, 3, 2, 1, 1,
/// ];
/// let options = NormaliseOptions::default();
/// let new = canonical_module(alloc, HashKeys::fixed(), &module, options)?;
/// assert_eq!(rt; new[8..], [1, 6, 2, 0x60, 0, 0, 0x5F, 0, 3, 2, 1, 0]);
/// ```
#[tactic(auto, using(crate::proofs::Meanings::name_equal_types))]
pub fn canonical_module(
    alloc: Global,
    keys: HashKeys,
    bytes: &[u8],
    options: NormaliseOptions,
) -> Result<Vec<u8>, NormaliseModuleError>
    // The result is the same module, or the same without sections that describe other bytes, with
    // its type section in canonical form.
    ensures canonical { IfOk result (λ new. IsCanonicalModule options bytes.now new.items) }
    // The types that it names outside its type section are equal to those that the module names.
    ensures same_types { IfOk result (λ new. NameEqualTypes bytes.now new.items) }
    // Where such sections are kept, all bytes stay that they describe.
    ensures fits { options.descriptions ≡ descriptions.Kept →
        IfOk result (λ new. DescriptionsFit bytes.now new.items) }
    // What is refused is wrong as the error says.
    ensures refused { IfErr result (IsRefusedBy options bytes.now) }
{
    match new_module(alloc, keys, bytes, options) {
        Ok(new) => Ok(new),
        Err(Refusal::Fault) => Err(error_of_fault(alloc, bytes)),
        Err(Refusal::Other(error)) => Err(error),
    }
}

/// The same. Where another section than that of types is wrong, the place is not known yet.
fn new_module(
    alloc: Global,
    keys: HashKeys,
    bytes: &[u8],
    options: NormaliseOptions,
) -> Result<Vec<u8>, Refusal>
    ensures canonical { IfOk result (λ new. IsCanonicalModule options bytes.now new.items) }
    ensures fits { options.descriptions ≡ descriptions.Kept →
        IfOk result (λ new. DescriptionsFit bytes.now new.items) }
    ensures refused { IfErr result (IsRefusal options bytes.now) }
{
    let (canonical, new_indices) = canonical_types(alloc, keys, bytes, options.unused)?;
    let types = encode_types(alloc, canonical.as_slice())?;
    match options.descriptions {
        Descriptions::Kept => {
            let new = rename_module(alloc, bytes, &types, &new_indices, options.widths)?;
            match outdated_section(alloc, bytes, new.as_slice())? {
                Some(offset) => Err(Refusal::Other(NormaliseModuleError::Outdated { offset })),
                None => Ok(new),
            }
        }
        Descriptions::Stripped => {
            // The bytes are a module, since they have a list of types. So only memory was refused.
            let Ok(left) = strip_descriptions(alloc, bytes) else {
                return Err(Refusal::Other(NormaliseModuleError::Memory));
            };
            let stripped = rename_module(alloc, &left, &types, &new_indices, options.widths)?;
            Ok(stripped)
        }
    }
}

/// The place of the first section of a module that no longer fits where the module becomes another
/// one.
fn outdated_section(alloc: Global, bytes: &[u8], new: &[u8]) -> Result<Option<usize>, AllocError>
    requires { IsWrittenAgain bytes.now new.now }
    ensures found { IfOk result (λ found. IfSome found (λ offset.
        HasOutdatedAt bytes.now new.now offset)) }
    ensures differs { IfOk result (λ found. IfSome found (λ offset. new.now ≡ bytes.now → ⊥)) }
    ensures none { IfOk result (λ found. IfNone found (DescriptionsFit bytes.now new.now)) }
{
    if new == bytes {
        return Ok(None);
    }
    find_outdated(alloc, bytes, new)
}

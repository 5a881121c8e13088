//! Custom sections of an unknown kind.
//!
//! WebAssembly core specification, "Binary Format", "Custom Section". The names of these sections
//! are conventions of tools, but for `name`.
ghost use Rattle.std.specs.Prelude.{◌≡◌, ◌↔◌, false, map, IsTrue, IfOk, IfErr, IfNone, IfSome};
ghost use Rattle.std.specs.List.{Any};
ghost use Rattle.wasm_binary.specs.Modules.{section, IsNoModule};
ghost use Rattle.wasm_module.specs.UnknownCustoms.{known_names, IsKnownName, IsUnknownCustom, HasUnknownCustomAt, HasNoUnknownCustom};

use crate::customs::begins_with;
use crate::description_kinds::kind_of_name;
use crate::framing::sections;
use crate::name_maps::take_sized;
use wasm_binary::DecodeError;

/// The id of a custom section.
const CUSTOM: u8 = 0;

/// Returns the place of the first custom section of an unknown kind: that of its id, counted from 0
/// in bytes. Such a section may refer to types or to places in the file. Once these change it is
/// wrong, and no call says so.
///
/// The kind of a section is known by its name. These names are known:
///
/// - `name`: [`rename_module`] also writes the indices of types in it again;
/// - `producers`, `target_features`, `dylink.0`, `dylink`, `build_id`, `authors`, `licenses`,
///   `description`, `homepage`, `source`, `revision`, `version`, `.dep-v0`, `.llvmbc`, `.llvmcmd`,
///   `emscripten_metadata`, `__wasm_bindgen_unstable`, `contractspecv0`, `contractmetav0` and
///   `contractenvmetav0`: such a section refers to no type and to no place in the file;
/// - names that begin with `component-type`: such a section has types of a component, which are none
///   of the module;
/// - the names of sections that describe other bytes of their module: [`strip_descriptions`] leaves
///   these sections out, and [`find_outdated`] finds the first one that no longer fits;
/// - the names in `allowed`: the caller says that such a section refers to no type and to no place
///   in the file.
///
/// A custom section without a whole name is of an unknown kind.
///
/// # Errors
///
/// [`DecodeError::Malformed`] says at which byte the bytes stop being a module. It is the error of
/// [`sections`]. No memory is taken.
///
/// # Before a module is written again
///
/// ```
/// if find_unknown_custom(bytes, &[b"my-tool"])?.is_some() {
///     return Err(Fail::new("a custom section of an unknown kind"));
/// }
/// ```
///
/// [`rename_module`]: crate::rename_module
/// [`strip_descriptions`]: crate::strip_descriptions
/// [`find_outdated`]: crate::find_outdated
pub fn find_unknown_custom(bytes: &[u8], allowed: &[&[u8]]) -> Result<Option<usize>, DecodeError>
    // The bytes are a module, whose first such section begins there.
    ensures found { IfOk result (λ found. IfSome found (λ offset.
        HasUnknownCustomAt allowed.now bytes.now offset)) }
    // Or they are a module without such sections.
    ensures none { IfOk result (λ found.
        IfNone found (HasNoUnknownCustom allowed.now bytes.now)) }
    // Bytes that are refused are no module.
    ensures refused { IfErr result (λ e. IsNoModule bytes.now) }
{
    let found = sections(bytes)?;
    let mut left = found;
    while let Some(section) = left.next() {
        if is_unknown_custom(section.id, section.content, allowed) {
            return Ok(Some(section.offset));
        }
    }
    Ok(None)
}

/// Whether a section is a custom section of an unknown kind.
fn is_unknown_custom(id: u8, content: &[u8], allowed: &[&[u8]]) -> bool
    ensures yes { IsTrue result → IsUnknownCustom allowed.now (section id content.now) }
    ensures no { result ≡ false → ¬ IsUnknownCustom allowed.now (section id content.now) }
{
    if id != CUSTOM {
        return false;
    }
    let mut rest = content;
    match take_sized(&mut rest) {
        Some(name) => !is_known_name(name, allowed),
        None => true,
    }
}

/// Whether custom sections of a name are of a known kind.
fn is_known_name(name: &[u8], allowed: &[&[u8]]) -> bool
    ensures yes { IsTrue result → IsKnownName allowed.now name.now }
    ensures no { result ≡ false → ¬ IsKnownName allowed.now name.now }
{
    if is_listed(name, known_names()) {
        return true;
    }
    if is_listed(name, allowed) {
        return true;
    }
    if begins_with(name, b"component-type") {
        return true;
    }
    match kind_of_name(name) {
        Some(_) => true,
        None => false,
    }
}

/// Whether a name is one of these.
fn is_listed(name: &[u8], names: &[&[u8]]) -> bool
    ensures { IsTrue result ↔ Any (λ k. k ≡ name.now) (map (λ k. k.now) names.now) }
{
    names.contains(&name)
}

fn known_names() -> &'static [&'static [u8]]
    ensures { map (λ k. k.now) result.now ≡ known_names }
{
    &KNOWN_NAMES
}

static KNOWN_NAMES: [&[u8]; 21] = [
    b"name",
    b"producers",
    b"target_features",
    b"dylink.0",
    b"dylink",
    b"build_id",
    b"authors",
    b"licenses",
    b"description",
    b"homepage",
    b"source",
    b"revision",
    b"version",
    b".dep-v0",
    b".llvmbc",
    b".llvmcmd",
    b"emscripten_metadata",
    b"__wasm_bindgen_unstable",
    b"contractspecv0",
    b"contractmetav0",
    b"contractenvmetav0",
];

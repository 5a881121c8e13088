//! How a module gets the canonical form of its types.
use wasm_module::Widths;

/// What becomes of custom sections that describe other bytes of their module, such as debug data.
#[derive(Clone, Copy, PartialEq, Eq, Debug, Default)]
pub enum Descriptions {
    /// They stay as they are. A module with one that would no longer fit is refused.
    #[default]
    Kept,
    /// They are left out. [`strip_descriptions`](wasm_module::strip_descriptions) lists their
    /// names.
    Stripped,
}

/// What becomes of types that nothing uses.
#[derive(Clone, Copy, PartialEq, Eq, Debug, Default)]
pub enum UnusedTypes {
    /// They stay.
    #[default]
    Kept,
    /// They are deleted. The roots are the types that a module names outside its type section, and
    /// not in the custom section `name`. [`canonicalise`](walrus_canonical::canonicalise) says which
    /// types they need.
    Deleted,
}

/// How a module gets the canonical form of its types. The default is the shortest indices, and everything else kept, as
/// `wasmnorm` does without options.
#[derive(Clone, Copy, PartialEq, Eq, Debug, Default)]
pub struct NormaliseOptions {
    /// How many bytes an index has that is written again.
    pub widths: Widths,
    /// What becomes of custom sections that describe other bytes.
    pub descriptions: Descriptions,
    /// What becomes of types that nothing uses.
    pub unused: UnusedTypes,
}

//! Laws of modules with other indices of types. Each function does nothing; its clause
//! is a theorem, which a caller gets by calling it.
ghost use Rattle.std.specs.Prelude.{◌≡◌, ℕ, ◌≤◌, List, length, Some};
ghost use Rattle.wasm_binary.specs.Modules.{Section, IsModule, HasNoTypeSection};
ghost use Rattle.wasm_module.specs.declared.renaming.Widths.{Widths};
ghost use Rattle.wasm_module.specs.OwnIndices.{AreOwn};
ghost use Rattle.wasm_module.specs.Customs.{IsStripped};
ghost use Rattle.wasm_module.specs.RenamedModules.{RenamesModule, HaveSameIds};
ghost use Rattle.wasm_module.specs.RenamedNames.{NamesFollow};
ghost use Rattle.wasm_module.specs.Renaming.{NewIndices};

/// The result is determined by the module, its new types, the new indices and the widths.
pub fn one_module()
    ensures { (types : List ℕ) (new_indices : NewIndices) (widths : Widths) (bytes a b : List ℕ) →
        RenamesModule types new_indices widths bytes a →
        RenamesModule types new_indices widths bytes b → a ≡ b }
{}

/// A module that was renamed stays where each new index is its own, and where there are no more of
/// them: a section `name` that can't be read stays so with fewer types.
pub fn renamed_module_stays()
    ensures { (types : List ℕ) (first again : NewIndices) (widths : Widths) (bytes new : List ℕ) →
        AreOwn first again → length again ≤ length first →
        RenamesModule types first widths bytes new → RenamesModule types again widths new new }
{}

/// The result of renaming a module is a module again, with sections of the same ids in the same
/// order.
pub fn renamed_module_has_the_same_sections()
    ensures { (types : List ℕ) (new_indices : NewIndices) (widths : Widths) (bytes new : List ℕ) →
        RenamesModule types new_indices widths bytes new → HaveSameIds bytes new }
{}

/// The result of renaming a module is one whose sections may have their contents, and the types
/// that it names outside its type section are the new ones, from left to right.
pub fn module_names_become_the_new_ones()
    ensures { (types : List ℕ) (new_indices : NewIndices) (widths : Widths) (bytes new : List ℕ) →
        RenamesModule types new_indices widths bytes new → NamesFollow new_indices bytes new }
{}

/// What is left of a module without the sections that describe other bytes is determined. It stays
/// as it is when they are left out once more, also where its indices were written again. It has no
/// type section only if the module has none.
pub fn one_stripped_module()
    ensures determined { (bytes a b : List ℕ) → IsStripped bytes a → IsStripped bytes b → a ≡ b }
    ensures stays { (types : List ℕ) (new_indices : NewIndices) (widths : Widths)
        (bytes left new : List ℕ) →
        IsStripped bytes left → RenamesModule types new_indices widths left new →
        IsStripped new new }
    ensures types { (bytes left : List ℕ) → IsStripped bytes left → HasNoTypeSection left →
        HasNoTypeSection bytes }
{}

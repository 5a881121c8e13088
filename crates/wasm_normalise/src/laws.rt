//! Laws of modules with their types in canonical form. Each function does nothing; its clauses are
//! theorems, which a caller gets by calling it.
ghost use Rattle.std.specs.Prelude.{◌≡◌, ◌↔◌, List, ℕ};
ghost use Rattle.wasm_binary.specs.ModuleSections.{HasTypes};
ghost use Rattle.wasm_module.specs.Renaming.{NewIndices};
ghost use Rattle.wasm_module.specs.declared.renaming.Widths.TheVariants.{Shortest};
ghost use Rattle.wasm_normalise.specs.AlikeModules.{DifferInLists};
ghost use Rattle.wasm_normalise.specs.CanonicalModules.{HasCanonicalForm, IsCanonicalModule, IsShortest};
ghost use Rattle.wasm_normalise.specs.Meanings.{AreAllEqual, NameEqualTypes};
ghost use Rattle.wasm_normalise.specs.declared.options.NormaliseOptions.{NormaliseOptions};
ghost use Rattle.wasm_normalise.specs.declared.options.UnusedTypes.TheVariants as kinds;
ghost use Rattle.walrus_ty.specs.Records.{section_of};
ghost use Rattle.walrus_ty.specs.declared.records.GroupAt.{GroupAt};

/// The result is determined by the module and the options.
pub fn one_canonical_module()
    ensures { (options : NormaliseOptions) (bytes a b : List ℕ) →
        IsCanonicalModule options bytes a → IsCanonicalModule options bytes b → a ≡ b }
{}

/// The shortest text of a list of recursion groups is determined.
pub fn one_shortest_text()
    ensures { (groups : List GroupAt) (a b : List ℕ) → IsShortest a groups → IsShortest b groups →
        a ≡ b }
{}

/// The types of the result are the canonical form of the module's types, or of the used ones where
/// unused types are deleted.
pub fn result_has_the_canonical_form()
    ensures { (options : NormaliseOptions) (bytes new : List ℕ) →
        IsCanonicalModule options bytes new →
        (canonical : List GroupAt) × (new_indices : NewIndices) ×
        HasCanonicalForm options.unused bytes canonical new_indices × HasTypes new canonical }
{}

/// Types keep their meaning, by WebAssembly's own equality. Each type that has a new index is equal
/// to the type of the result at that index; these are the indices by which the module was written
/// again. And the types that the result names outside its type section are equal to those that the
/// module names, one by one from left to right.
pub fn types_keep_their_meaning()
    ensures all { (options : NormaliseOptions) (bytes new : List ℕ) →
        (is : IsCanonicalModule options bytes new) →
        (groups canonical : List GroupAt) × HasTypes bytes groups × HasTypes new canonical ×
        AreAllEqual (section_of groups) (section_of canonical) is.new_indices }
    ensures named { (options : NormaliseOptions) (bytes new : List ℕ) →
        IsCanonicalModule options bytes new → NameEqualTypes bytes new }
{}

/// Complete: with the shortest widths, two modules have the same result exactly where they differ in
/// nothing but their lists of types. So what is left of them is the same but for what the type
/// sections contain, for indices of equal types at the same place, and for sizes; each needed type of
/// either is equal to a needed type of the other; and the names of types are the same, where of equal
/// types the first one with names counts.
pub fn one_result_where_alike()
    ensures { (options : NormaliseOptions) (bytes other a b : List ℕ) → options.widths ≡ Shortest →
        IsCanonicalModule options bytes a → IsCanonicalModule options other b →
        (a ≡ b) ↔ DifferInLists options bytes other }
{}

/// A second round changes nothing, whatever the options are: the result is its own result, and has
/// no other. Where the first round deleted unused types, the second one may keep them as well: there
/// are none left.
pub fn second_round()
    ensures itself { (options : NormaliseOptions) (bytes new : List ℕ) →
        IsCanonicalModule options bytes new → IsCanonicalModule options new new }
    ensures unchanged { (options : NormaliseOptions) (bytes new again : List ℕ) →
        IsCanonicalModule options bytes new → IsCanonicalModule options new again → again ≡ new }
    ensures itself_after_deleting { (options other : NormaliseOptions) (bytes new : List ℕ) →
        options.unused ≡ kinds.Deleted → other.widths ≡ options.widths →
        other.descriptions ≡ options.descriptions →
        IsCanonicalModule options bytes new → IsCanonicalModule other new new }
    ensures unchanged_after_deleting { (options other : NormaliseOptions)
        (bytes new again : List ℕ) →
        options.unused ≡ kinds.Deleted → other.widths ≡ options.widths →
        other.descriptions ≡ options.descriptions →
        IsCanonicalModule options bytes new → IsCanonicalModule other new again → again ≡ new }
{}

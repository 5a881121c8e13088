//! Laws of section records. Each function does nothing; its clauses are theorems, which a caller
//! gets by calling it.
ghost use Rattle.std.specs.Prelude.{◌≡◌, ℕ};
ghost use Rattle.walrus_ty.specs.declared.ty.value.Heap.{Heap};
ghost use Rattle.walrus_ty.specs.declared.ty.value.Reference.{Reference};
ghost use Rattle.walrus_ty.specs.declared.ty.value.Val.{Val};
ghost use Rattle.walrus_ty.specs.declared.ty.value.Storage.{Storage};
ghost use Rattle.walrus_ty.specs.declared.ty.value.Field.{Field};
ghost use Rattle.walrus_ty.specs.Definition.{Composite, Definition, rename_composite, rename};
ghost use Rattle.walrus_ty.specs.Value.{rename_heap, rename_reference, rename_val, rename_storage, rename_field};

/// Renaming by f and then by g sends each name through both. So what `to_record` writes of what
/// `from_record` read is the record with each index sent through both maps.
pub fn rename_by_both()
    ensures heap_types { (f g : ℕ → ℕ) (h : Heap ℕ) →
        rename_heap g (rename_heap f h) ≡ rename_heap (λ k. g (f k)) h }
    ensures references { (f g : ℕ → ℕ) (r : Reference ℕ) →
        rename_reference g (rename_reference f r) ≡ rename_reference (λ k. g (f k)) r }
    ensures values { (f g : ℕ → ℕ) (v : Val ℕ) →
        rename_val g (rename_val f v) ≡ rename_val (λ k. g (f k)) v }
    ensures storages { (f g : ℕ → ℕ) (s : Storage ℕ) →
        rename_storage g (rename_storage f s) ≡ rename_storage (λ k. g (f k)) s }
    ensures fields { (f g : ℕ → ℕ) (x : Field ℕ) →
        rename_field g (rename_field f x) ≡ rename_field (λ k. g (f k)) x }
    ensures composites { (f g : ℕ → ℕ) (c : Composite) →
        rename_composite g (rename_composite f c) ≡ rename_composite (λ k. g (f k)) c }
    ensures definitions { (f g : ℕ → ℕ) (d : Definition) →
        rename g (rename f d) ≡ rename (λ k. g (f k)) d }
{}

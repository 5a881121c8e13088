//! Laws of walks that change what they visit. Each function does nothing; its clauses are theorems,
//! which a caller gets by calling it.
ghost use Rattle.std.specs.Prelude.{◌≡◌, ◌↔◌, ◌++◌, ℕ, List, [], ◌∷◌, Contains};
ghost use Rattle.ir_instr.specs.Sequence.{Sequence};
ghost use Rattle.ir_instr.specs.declared.instr.Instr.{Instr};
ghost use Rattle.walrus_ir.specs.Calls.{Full, Partial};
ghost use Rattle.walrus_functions.specs.Body.{Body, sequence};
ghost use Rattle.walrus_functions.specs.Nesting.{children, IsNested, IsReachable};
ghost use Rattle.walrus_traversals_mut.specs.Counting.{CutWalk, CountedWalk, IsFunction};
ghost use Rattle.walrus_traversals_mut.specs.FieldMaps.{FieldMap, MapsFields, IsMapped};
ghost use Rattle.walrus_traversals_mut.specs.Premises.{HasSteps, KeepsChildren, KeepsNesting};
ghost use Rattle.walrus_traversals_mut.specs.Renaming.{rename_at, rename_sequence};
ghost use Rattle.walrus_traversals_mut.specs.Unfolding.{Unfolds, IsTree};
ghost use Rattle.walrus_traversals_mut.specs.Walks.{Walks};

use crate::{RenameTypes, VisitorMut};

/// A hook at the start or the end of a sequence may add an instruction in which no sequence stands:
/// with it at the end, the sequence keeps its children, as such a hook has to see to.
pub fn instrs_without_children_may_be_added()
    ensures { (old new : Sequence) (added : Instr × ℕ) → children added.0 ≡ [] →
        new.id ≡ old.id → new.instrs ≡ old.instrs ++ added ∷ [] → KeepsChildren old new }
{}

/// A walk that stops early makes a number of hook calls, and is the walk that is cut after so many.
pub fn partial_walks_are_cut<V: VisitorMut>()
    ensures { (s t : V × Body) (id : ℕ) → Walks V.step s id Partial t →
        (k : ℕ) × CutWalk V.step k s id t }
{}

/// Where the step of a visitor is a function, a sequence of a body has one full walk at most: its
/// start determines what it leaves.
pub fn full_walks_are_determined<V: VisitorMut>()
    ensures { IsFunction V.step → (s t u : V × Body) (id : ℕ) →
        Walks V.step s id Full t → Walks V.step s id Full u → t ≡ u }
{}

/// A full walk makes a number of hook calls (`counted`). Where the step of the visitor is a
/// function, the start of the walk determines this number, and what the walk leaves (`determined`).
pub fn full_walks_are_counted<V: VisitorMut>()
    ensures counted { (s t : V × Body) (id : ℕ) → Walks V.step s id Full t →
        (k : ℕ) × CountedWalk V.step k s id t }
    ensures determined { IsFunction V.step → (k l : ℕ) (s t u : V × Body) (id : ℕ) →
        CountedWalk V.step k s id t → CountedWalk V.step l s id u → (k ≡ l) × (t ≡ u) }
{}

/// Where the step of a visitor is a function, the start of a walk and the number of hook calls
/// after which it is cut determine what it leaves. Each walk that stops early is cut after some
/// number of them ([`partial_walks_are_cut`]).
pub fn cut_walks_are_determined<V: VisitorMut>()
    ensures { IsFunction V.step → (k : ℕ) (s t u : V × Body) (id : ℕ) →
        CutWalk V.step k s id t → CutWalk V.step k s id u → t ≡ u }
{}

/// Where a visitor has a step at each hook, whatever the hook is given, and no step changes which
/// sequences stand in which, there is a full walk over every sequence from which the body is
/// nested. Where the step is a function besides, there is just one
/// ([`full_walks_are_determined`]).
pub fn nested_sequences_have_a_full_walk<V: VisitorMut>()
    ensures { HasSteps V.step → KeepsNesting V.step → (s : V × Body) (id : ℕ) →
        IsNested s.1 id → (t : V × Body) × Walks V.step s id Full t }
{}

/// The unfolding of a body lists the sequences that a changing walk visits, in order, each as often
/// as it is visited. It has exactly the sequences that are reached from the start, and the body
/// determines it.
pub fn unfoldings_visit_what_is_reached()
    ensures reached { (f : Body) (start : ℕ) (visits : List ℕ) → Unfolds f start visits →
        (id : ℕ) → (Contains visits id ↔ IsReachable f start id) }
    ensures determined { (f : Body) (start : ℕ) (visits others : List ℕ) →
        Unfolds f start visits → Unfolds f start others → visits ≡ others }
{}

/// A full walk with a visitor that maps fields leaves the visitor as it was. Each sequence is
/// mapped as often as the unfolding of the body visits it, and nothing else of the body changes.
pub fn field_maps_map_the_body<V: VisitorMut>()
    ensures visitor { (v : V) (f : FieldMap) → MapsFields V.step v f →
        (s : Body) (t : V × Body) (start : ℕ) → Walks V.step (v, s) start Full t → t.0 ≡ v }
    ensures body { (v : V) (f : FieldMap) → MapsFields V.step v f →
        (s : Body) (t : V × Body) (start : ℕ) → Walks V.step (v, s) start Full t →
        (visits : List ℕ) × Unfolds s start visits × IsMapped f visits s t.1 }
{}

/// [`RenameTypes`] meets the premises of the laws of walks: it has a step at each hook
/// (`has_steps`), no step changes the nesting (`keeps_nesting`), and what it leaves is determined
/// by what it is given (`is_function`). So there is just one full walk with it over a nested
/// sequence (`one`).
pub fn rename_types_has_one_full_walk()
    ensures has_steps { HasSteps ⟦<RenameTypes as VisitorMut>⟧.step }
    ensures keeps_nesting { KeepsNesting ⟦<RenameTypes as VisitorMut>⟧.step }
    ensures is_function { IsFunction ⟦<RenameTypes as VisitorMut>⟧.step }
    ensures one { (s : List ℕ × Body) (id : ℕ) → IsNested s.1 id →
        (t : List ℕ × Body) × Walks ⟦<RenameTypes as VisitorMut>⟧.step s id Full t
        × ((u : List ℕ × Body) →
        Walks ⟦<RenameTypes as VisitorMut>⟧.step s id Full u → u ≡ t) }
{
    nested_sequences_have_a_full_walk::<RenameTypes>();
    full_walks_are_determined::<RenameTypes>();
}

/// What a full walk with [`RenameTypes`] leaves. The visitor keeps its names (`names`), and each
/// sequence is renamed as often as the unfolding of the body visits it, and nothing else changes
/// (`body`). So where no sequence is named twice, each that is reached is renamed once (`once`);
/// and the others are as they were (`others`).
///
/// A caller of the walk has these of its own body:
///
/// ```
/// dfs_pre_order_mut(alloc, &mut visitor, func, start)?;
/// rename_types_renames_the_body();
/// ```
pub fn rename_types_renames_the_body()
    ensures names { (names : List ℕ) (s : Body) (t : List ℕ × Body) (start : ℕ) →
        Walks ⟦<RenameTypes as VisitorMut>⟧.step (names, s) start Full t → t.0 ≡ names }
    ensures body { (names : List ℕ) (s : Body) (t : List ℕ × Body) (start : ℕ) →
        Walks ⟦<RenameTypes as VisitorMut>⟧.step (names, s) start Full t →
        (visits : List ℕ) × Unfolds s start visits × IsMapped (rename_at names) visits s t.1 }
    ensures once { (names : List ℕ) (s : Body) (t : List ℕ × Body) (start : ℕ) →
        Walks ⟦<RenameTypes as VisitorMut>⟧.step (names, s) start Full t → IsTree s start →
        (id : ℕ) → IsReachable s start id →
        sequence t.1 id ≡ rename_sequence names (sequence s id) }
    ensures others { (names : List ℕ) (s : Body) (t : List ℕ × Body) (start : ℕ) →
        Walks ⟦<RenameTypes as VisitorMut>⟧.step (names, s) start Full t →
        (id : ℕ) → (IsReachable s start id → ⊥) → sequence t.1 id ≡ sequence s id }
{}

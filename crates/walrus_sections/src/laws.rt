//! Laws of type sections. Each function does nothing; its clauses are theorems, which a caller gets
//! by calling it.
//!
//! A section is the list of the contents of its recursion groups, as `section_of` gives them for a
//! list of `GroupAt`.
ghost use Rattle.std.specs.List.{range_with_len, swap};
ghost use Rattle.std.specs.Prelude.{◌<◌, ◌≤◌, ◌≡◌, ◌∷◌, ◌↔◌, ◌⊎◌, [], List, Some, false, length, map, slice_get, suc, ℕ};
ghost use Rattle.walrus_ty.specs.Definition.{Names, rename};
ghost use Rattle.walrus_sections.specs.Emission.{IsEmission, IsMember, IsWrittenBefore, TableView, group_at, read_table};
ghost use Rattle.walrus_sections.specs.MissingNames.{FirstMissingIs, IsMissingIn};
ghost use Rattle.walrus_sections.specs.Refusal.{IsFirstMissing, IsMissing, NameUse};
ghost use Rattle.walrus_sections.specs.WritingOrders.{IsWritingOrder, ids_in, in_order, written_group};
ghost use Rattle.walrus_sections.specs.Moves.{AreJoined, DescentTo, IsRenumberedSwap};
ghost use Rattle.walrus_sections.specs.FirstError.{IsFirstError};
ghost use Rattle.walrus_sections.specs.declared.error.ReadError.{ReadError};
ghost use Rattle.walrus_sections.specs.NormalForm.{IsNormalForm, IsOutput, identity};
ghost use Rattle.walrus_sections.specs.SlotMap.{IsCandidate, IsSlotMap, read_definition, read_groups};
ghost use Rattle.walrus_sections.specs.Section.{IsWellNamed, index_space};
ghost use Rattle.walrus_ty.specs.Groups.{Section};
ghost use Rattle.walrus_sections.specs.Examples.{ordered_pair, unordered_pair, with_repeat, without_repeat, two_loops};

/// A well-named section has one normal form: one section, and one map onto it.
pub fn one_normal_form()
    ensures section { (s n p : Section) (m w : List ℕ) → IsWellNamed s → IsNormalForm s n m →
        IsNormalForm s p w →
        n ≡ p }
    ensures map { (s n p : Section) (m w : List ℕ) → IsWellNamed s → IsNormalForm s n m →
        IsNormalForm s p w →
        m ≡ w }
{}

/// Each well-named section has a normal form, and moves lead down to it. Each move leaves fewer
/// groups, or as many groups and fewer pairs out of order. Such a pair is of kept lone types, with
/// no anchor from the one to the other, whose later one is less.
pub fn output_exists()
    ensures { (s : Section) → IsWellNamed s → (n : Section) × IsOutput s n × DescentTo n s }
{}

/// A second round changes nothing: the section of a normal form is well-named, and its own normal
/// form.
pub fn second_round()
    ensures well_named { (s n : Section) (m : List ℕ) → IsWellNamed s → IsNormalForm s n m →
        IsWellNamed n }
    ensures itself { (s n : Section) (m : List ℕ) → IsWellNamed s → IsNormalForm s n m →
        IsNormalForm n n (identity n) }
{}

/// A section that is its own normal form has no other: what is in order already stays as it is.
pub fn normal_form_stays()
    ensures section { (s n : Section) (m : List ℕ) → IsWellNamed s → IsNormalForm s s (identity s) →
        IsNormalForm s n m →
        n ≡ s }
    ensures map { (s n : Section) (m : List ℕ) → IsWellNamed s → IsNormalForm s s (identity s) →
        IsNormalForm s n m →
        m ≡ identity s }
{}

/// The renumbered swap of two neighbouring lone types that name no type keeps the output, and
/// exchanges their two items of the map.
pub fn swap_keeps_output()
    ensures well_named { (s r : Section) (i : ℕ) → IsWellNamed s → IsRenumberedSwap s r i →
        IsWellNamed r }
    ensures output { (s r n : Section) (m : List ℕ) (i : ℕ) → IsWellNamed s →
        IsRenumberedSwap s r i →
        IsNormalForm s n m → IsNormalForm r n (swap m i (suc i)) }
{}

/// Two well-named sections have one output exactly where a chain of moves through well-named
/// sections leads from the one to the other.
pub fn equal_outputs_by_moves()
    ensures { (a b : Section) → IsWellNamed a → IsWellNamed b →
        (((n : Section) × IsOutput a n × IsOutput b n) ↔ AreJoined a b) }
{}

/// In a table that a well-named section was read into, no lone type has two candidates to be sent
/// to.
pub fn one_candidate()
    ensures { (s : Section) (r : ℕ → ℕ) (i j k : ℕ) → IsWellNamed s → IsSlotMap (index_space s) r →
        i < (index_space s).count → IsCandidate (index_space s) r i j →
        IsCandidate (index_space s) r i k →
        j ≡ k }
{}

/// In a table that a well-named section was read into, what a live type names is live, and in its
/// own group or in an earlier one. So emission never lacks an index.
pub fn names_stand_before()
    ensures { (s : Section) (r : ℕ → ℕ) (g u i k : ℕ) → IsWellNamed s →
        IsSlotMap (index_space s) r →
        IsMember (read_groups 0 r s) g u i → Names (read_definition (index_space s) r i) k →
        (h : ℕ) × (v : ℕ) × IsMember (read_groups 0 r s) h v k ×
        ((h ≡ g) ⊎ IsWrittenBefore (read_table s r) h g) }
{}

/// A well-named section that is read, and whose table is then emitted, gives its normal form; the
/// map sends each index first to its slot, and then that slot to its index in the output. A read
/// table has no types for function entries.
pub fn read_then_emitted()
    ensures { (s n : Section) (r m : ℕ → ℕ) → IsWellNamed s → IsSlotMap (index_space s) r →
        IsEmission (read_table s r) n m →
        IsNormalForm s n (map (λ i. m (r i)) (range_with_len 0 (index_space s).count)) }
{}

/// Groups of a table that are written one after the other, in their writing order, are an emission
/// of it, where each id has the index at which it is written. A group that isn't explicit has one
/// id at most. A name that lacks an index in the table lacks one among these groups, and the first
/// of these is the first of the table.
pub fn written_in_order()
    ensures emission { (t : TableView) (order : List ℕ) (m : ℕ → ℕ) → IsWritingOrder t order →
        ((g : ℕ) → (group_at t.groups g).is_explicit ≡ false →
        length (group_at t.groups g).ids ≤ 1) →
        ((i p : ℕ) → slice_get (ids_in (in_order t.groups order)) p ≡ Some i → m i ≡ p) →
        IsEmission t (map (written_group (λ i. rename m (t.definition i)))
        (in_order t.groups order)) m }
    ensures complete { (t : TableView) (order : List ℕ) → IsWritingOrder t order →
        ((name : NameUse) → ¬ (IsMissingIn t.definition (in_order t.groups order) name)) →
        (name : NameUse) → ¬ (IsMissing t name) }
    ensures missing { (t : TableView) (order : List ℕ) (from to : ℕ) → IsWritingOrder t order →
        FirstMissingIs t.definition (in_order t.groups order) from to →
        (name : NameUse) × IsFirstMissing t name × (name.id ≡ from) × (name.named ≡ to) }
{}

/// A section is well-named, or its first group with an error decides which error reading it
/// returns. Never are both so.
pub fn first_error_decides()
    ensures either { (s : Section) → IsWellNamed s ⊎ ((e : ReadError) × IsFirstError s e) }
    ensures not_both { (s : Section) (e : ReadError) → IsFirstError s e → ¬ (IsWellNamed s) }
{}

/// Three sections with their normal forms. The order of definitions turns two; a lone type that
/// repeats an earlier one goes to it, and not to the equal member of a `Rec`; lone types that name
/// themselves stay apart. And the two that are turned are a renumbered swap.
pub fn worked_sections()
    ensures turned { IsNormalForm unordered_pair ordered_pair (1 ∷ 0 ∷ []) }
    ensures merged { IsNormalForm with_repeat without_repeat (0 ∷ 1 ∷ 0 ∷ []) }
    ensures both_kept { IsNormalForm two_loops two_loops (0 ∷ 1 ∷ []) }
    ensures swapped { IsRenumberedSwap unordered_pair ordered_pair 0 }
{}

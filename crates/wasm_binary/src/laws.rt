//! Laws of the texts of type sections and of modules. Each function does nothing; its clause is a
//! theorem, which a caller gets by calling it.
ghost use Rattle.std.specs.Prelude.{◌≡◌, ◌∷◌, ◌++◌, ℕ, List, []};
ghost use Rattle.wasm_binary.specs.Faults.{IsFirstBad};
ghost use Rattle.wasm_binary.specs.Grammar.{IsTypes};
ghost use Rattle.wasm_binary.specs.Modules.{Section, section, IsModule, IsTypeSectionAt};
ghost use Rattle.walrus_ty.specs.declared.records.GroupAt.{GroupAt};

/// Bytes are a text of at most one list of groups.
pub fn one_section()
    ensures { (bytes : List ℕ) (a b : List GroupAt) → IsTypes bytes a → IsTypes bytes b → a ≡ b }
{}

/// No text is the beginning of a longer one.
pub fn no_longer_text()
    ensures { (bytes more : List ℕ) (a b : List GroupAt) → IsTypes bytes a →
        IsTypes (bytes ++ more) b → more ≡ [] }
{}

/// Bytes have at most one first bad byte: where two are named, they are the same.
pub fn one_first_bad_byte()
    ensures { (bytes : List ℕ) (a b : ℕ) → IsFirstBad bytes a → IsFirstBad bytes b → a ≡ b }
{}

/// Bytes are a module of at most one list of sections.
pub fn one_module()
    ensures { (bytes : List ℕ) (a b : List Section) → IsModule bytes a → IsModule bytes b → a ≡ b }
{}

/// Bytes in which a type section is located are a module that has it among its sections.
pub fn located_types()
    ensures { (bytes : List ℕ) (start stop : ℕ) (t : IsTypeSectionAt bytes start stop) →
        (before after : List Section) × IsModule bytes (before ++ section 1 t.content ∷ after) }
{}

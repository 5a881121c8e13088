//! Laws of the sections that bytes have. Each function does nothing; its clause is a theorem, which
//! a caller gets by calling it.
ghost use Rattle.std.specs.Prelude.{◌≡◌, ◌≢◌, ℕ, List};
ghost use Rattle.walrus_ty.specs.declared.records.GroupAt.{GroupAt};
ghost use Rattle.wasm_binary.specs.Modules.{IsModule, Section};
ghost use Rattle.walrus_text.specs.Text.{section_lines};
ghost use Rattle.walrus_text.specs.Words.{lines_of};
ghost use Rattle.sametypes.specs.Runs.{HasSection};

/// No bytes are both a module and a text of a section: a module begins with a null byte, and no
/// line of a section does.
pub fn no_module_is_a_text()
    ensures { (bytes : List ℕ) (sections : List Section) (groups : List GroupAt) →
        IsModule bytes sections → lines_of bytes ≢ section_lines groups }
{}

/// Bytes have at most one section, whether they are a module or a text. So [`run`](crate::run)
/// compares the section of the one reader with the section of the other.
pub fn one_section()
    ensures { (bytes : List ℕ) (a b : List GroupAt) → HasSection bytes a → HasSection bytes b →
        a ≡ b }
{}

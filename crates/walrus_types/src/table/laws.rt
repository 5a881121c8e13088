//! Laws of tables.
ghost use Rattle.walrus_types.specs.TableCalls.{EveryTableIsSound};

/// Begin with an empty table, or with one that a section was read into, and make any list of calls.
/// Then each live type is in exactly one group, once, and no dead type is in any. A group that was
/// not added as one has at most one type. The ids of new types came in order, each once.
///
/// A call is what the clauses of the additions, of `get_mut` and of the deletions of `ModuleTypes`
/// say, in the words of these clauses.
pub fn every_table_is_sound()
    ensures { EveryTableIsSound }
{}

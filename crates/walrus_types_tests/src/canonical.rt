//! Sections whose canonical form is known.
mod refusals;

use crate::assertions::is_right;
use crate::fixtures::{columns, numbers_again, section_again};
use std::alloc::Global;
use std::process::Abort;
use walrus_canonical::{CanonicalError, GroupAt, HashKeys, canonicalise};

// The canonical form of the section of this text. It is asked for again after a refusal of memory.
fn canonical_again(
    alloc: Global,
    text: &str,
    roots: Option<&[u32]>,
) -> Result<(Vec<GroupAt>, Vec<Option<u32>>), CanonicalError> {
    match canonicalise(alloc, HashKeys::fixed(), section_again(alloc, text)?, roots) {
        Err(CanonicalError::Memory) => {
            canonicalise(alloc, HashKeys::fixed(), section_again(alloc, text)?, roots)
        }
        answer => answer,
    }
}

// Whether these are the new indices of the text, in which `-` stands for none.
fn are(indices: &[Option<u32>], text: &str) -> bool {
    let words = text.split_whitespace().map(|word| word.parse().ok());
    indices.iter().copied().eq(words)
}

// A name, a section, its canonical form, and the new index of each type.
//
// The least type that can come next comes, even if others that name no type wait.
const WHOLE: &str = "\
nothing gives nothing                              |                       |                   |
an empty group goes                                | ( )                   |                   |
a group of one is a lone type                      | ( si )                | si                | 0
and is one with a lone type                        | ( f ) f               | f                 | 0 0
equal groups are one                               | ( f si ) ( f si )     | ( f si )          | 0 1 0 1
groups that name themselves                        | ( s1 f ) ( s3 f )     | ( s1 f )          | 0 1 0 1
groups that name equal types                       | f ( s0 f ) f ( s3 f ) | f ( s0 f )        | 0 1 2 0 1 2
types that name themselves are one                 | s0 s1                 | s0                | 0 0
also in a group of one                             | s0 ( s1 )             | s0                | 0 0
a type that names one that names itself is another | s0 s0                 | s0 s0             | 0 1
also behind two that are one                       | s0 ( s1 ) s1          | s0 s0             | 0 0 1
lone types are sorted                              | si f                  | f si              | 1 0
also past groups                                   | si ( b b ) f          | f si ( b b )      | 1 2 3 0
groups are sorted                                  | ( si f ) ( f si )     | ( f si ) ( si f ) | 2 3 0 1
a lone type comes first                            | ( f f ) f             | f ( f f )         | 1 2 0
a type comes as soon as what it names is there     | f si f0               | f f0 si           | 0 2 1
also where it names itself                         | si f s1 s0            | f si s0 s1        | 1 0 2 3
members of the own group come behind others        | f s1 s0               | f s0 s2           | 0 2 1
";

// A name, roots, a section, the canonical form of what the roots need, and the new indices.
const OF_ROOTS: &str = "\
what no root needs goes                           |     | f si        |             | - -
a root needs what it names                        | 2 2 | f si s0     | f s0        | 0 - 1
what all roots need stays                         | 1 0 | f si        | f si        | 0 1
a needed group stays whole                        | 1   | ( f si ) b  | ( f si )    | 0 1 -
also where a type names it                        | 2   | ( f si ) s1 | ( f si ) s1 | 0 1 2
an equal type that no root needs has no new index | 1   | f f         | f           | - 0
";

// The canonical form of the section, or of what the roots need, has this section and these indices.
fn gives(
    rt: &impl Abort,
    alloc: Global,
    roots: Option<&[u32]>,
    [name, text, wanted, indices]: [&str; 4],
) {
    let wanted = section_again(alloc, wanted).expect(rt, "memory");
    let (output, places) = canonical_again(alloc, text, roots).expect(rt, "memory");
    is_right(rt, name, output == wanted);
    is_right(rt, name, are(places.as_slice(), indices));
}

fn give(rt: &impl Abort, alloc: Global, rows: &str) {
    for row in rows.lines() {
        let [name, text, wanted, indices, _] = columns(row);
        gives(rt, alloc, None, [name, text, wanted, indices]);
    }
}

fn are_needed(rt: &impl Abort, alloc: Global, rows: &str) {
    for row in rows.lines() {
        let [name, roots, text, wanted, indices] = columns(row);
        let roots = numbers_again(alloc, roots).expect(rt, "memory");
        gives(
            rt,
            alloc,
            Some(roots.as_slice()),
            [name, text, wanted, indices],
        );
    }
}

#[test]
fn canonical_forms_of_whole_sections(rt: HostRuntime) {
    give(&rt, rt.alloc(), WHOLE);
}

#[test]
fn canonical_forms_of_what_roots_need(rt: HostRuntime) {
    are_needed(&rt, rt.alloc(), OF_ROOTS);
}

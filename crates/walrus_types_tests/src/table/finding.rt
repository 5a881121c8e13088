//! Finding types.
use super::calls::make_all;

const TABLES: &str = "\
a type is found whatever its finality
    add_composite none func = 0
    find func = 0
    add func = 1
    find func = 0
    find func i = none
    find func >i = none
entry types are found apart
    add entry = 0
    find func = none
    add func = 1
    find func = 1
    find entry = 0
    find entry i = none
types of groups are found
    add_rec_group func = 0
    add func = 1
    find func = 0
the first type of a name is found
    add func = 0
    add func i = 1
    name 0 n
    name 1 n
    by_name n = 0
    by_name m = none
    delete 0
    by_name n = 1
";

#[test]
fn types_are_found(rt: HostRuntime) {
    make_all(&rt, rt.alloc(), TABLES);
}

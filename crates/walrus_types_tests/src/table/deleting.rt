//! Deletions, which take no memory and return `Ok`.
use super::calls::make_all;

const TABLES: &str = "\
live ids leave out the dead
    live_ids =
    add func = 0
    add_rec_group struct, struct = 1 2
    delete 1
    live_ids = 0 2
the next id is past all ids so far
    next_id = 0
    add_rec_group struct, struct = 0 1
    delete 1
    next_id = 2
a type that dies leaves its group
    add func = 0
    add_rec_group struct, struct = 1 2
    delete 1
    live_ids = 0 2
    rec_group_for_type 1 = none
    rec_groups = 0 (2)
types that name each other stay
    add_rec_group struct 1, struct 0 = 0 1
    try_delete 0 = false
    live_ids = 0 1
a whole group dies
    add_rec_group struct 1, struct 0 = 0 1
    delete_entire_group 0
    live_ids =
    rec_groups = ()
a type dies after the last that names it
    add_rec_group struct 1, struct, struct 2 = 0 1 2
    try_delete 1 = false
    try_delete 0 = true
    try_delete 1 = true
    try_delete 2 = true
    rec_groups = ()
    rec_group_for_type 0 = none
names from outside do not count
    add_rec_group struct = 0
    add_rec_group struct 0 = 1
    try_delete 0 = true
    live_ids = 1
";

#[test]
fn types_die(rt: HostRuntime) {
    make_all(&rt, rt.alloc(), TABLES);
}

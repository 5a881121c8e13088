//! Types that are added alone.
use super::calls::make_all;

const TABLES: &str = "\
a function type is added once
    add func i>l = 0
    add func l>i = 1
    add func i>l = 0
    rec_groups = 0 1
a struct type is added once
    add struct i = 0
    add struct d = 1
    add struct i = 0
an array type is added once
    add array i = 0
    add array d = 1
    add array i = 0
finality and supertype tell types apart
    add_composite none func = 0
    add_composite 0 func = 1
    add func = 2
    add_composite none func = 0
an entry type is no function type
    add entry = 0
    add func = 1
    add entry = 0
    add entry i = 2
a type that was rewritten is not answered
    add func = 0
    kind_mut 0 struct i
    add func = 1
    kind 1 = (func)
a type of a group is not answered
    add struct i = 0
    add_rec_group struct i = 1
    add struct i = 0
    delete 1
    add struct i = 0
a deleted type that was rewritten hides none
    add func = 0
    add struct = 1
    kind_mut 1 func
    delete 1
    add func = 0
    add struct = 2
";

#[test]
fn types_are_added_once(rt: HostRuntime) {
    make_all(&rt, rt.alloc(), TABLES);
}

//! An interner: each name has one id.
ghost use Rattle.std.specs.Prelude.{IfOk};
ghost use Rattle.walrus_arena.specs.Arena.{IsLive};

use super::*;
use crate::assertions::assert_equal;

#[derive(Drop)]
struct Names {
    names: ArenaSet<String>,
}

impl Names {
    fn new(alloc: Global) -> Names {
        Names {
            names: ArenaSet::new(alloc),
        }
    }

    fn id_of(&mut self, name: String) -> Result<Id<String>, AllocError>
        ensures { IfOk result (λ id. IsLive self.new.names.slots id) }
    {
        self.names.insert(name)
    }

    fn name(&self, id: Id<String>) -> &str
        requires { IsLive self.now.names.slots id }
    {
        self.names[id].as_str()
    }
}

#[test]
fn a_name_has_one_id(rt: HostRuntime) {
    let mut names = Names::new(rt.alloc());
    let memory = names
        .id_of(String::from_str(rt.alloc(), "memory").expect(&rt, "memory"))
        .expect(&rt, "memory");
    assert_equal(&rt, names.name(memory), "memory");
    let again = names
        .id_of(String::from_str(rt.alloc(), "memory").expect(&rt, "memory"))
        .expect(&rt, "memory");
    assert!(rt; again == memory);
    let table = names
        .id_of(String::from_str(rt.alloc(), "table").expect(&rt, "memory"))
        .expect(&rt, "memory");
    assert!(rt; table != memory);
}

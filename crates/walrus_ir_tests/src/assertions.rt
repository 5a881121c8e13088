//! Assertions as calls.
ghost use Rattle.std.specs.Prelude.{IsTrue};

use std::alloc::Global;
use std::fmt::{Debug, Display};
use std::process::Abort;

// `assert_eq!` as a call: the checker goes over its failing path here, once, and not wherever two
// values are compared.
pub(crate) fn assert_equal<T: PartialEq + Debug + Drop>(rt: &impl Abort, left: T, right: T)
    ensures { IsTrue (T.eq left right) }
{
    assert_eq!(rt; left, right);
}

// The value has this text.
pub(crate) fn prints<T: Display>(rt: &impl Abort, alloc: Global, value: &T, text: &str) {
    let printed = format!(in alloc; "{value}").expect(rt, "memory");
    assert_equal(rt, printed.as_str(), text);
}

//! Assertions as calls.
ghost use Rattle.std.specs.Prelude.{IsTrue};

use std::fmt::Debug;
use std::process::Abort;

// `assert_eq!` as a call: the checker goes over its failing path here, once, and not wherever two
// values are compared.
pub(crate) fn assert_equal<T: PartialEq + Debug + Drop>(rt: &impl Abort, left: T, right: T)
    ensures { IsTrue (T.eq left right) }
{
    assert_eq!(rt; left, right);
}

//! Locals and globals.
//! WebAssembly core specification, "Variable Instructions".

use crate::LocalId;
use walrus_ty::GlobalId;

/// `local.get`: reads a local.
#[derive(Clone, Copy, PartialEq, Eq, Debug)]
pub struct LocalGet {
    /// The local.
    pub local: LocalId,
}

/// `local.set`: takes a value and writes it to a local.
#[derive(Clone, Copy, PartialEq, Eq, Debug)]
pub struct LocalSet {
    /// The local.
    pub local: LocalId,
}

/// `local.tee`: writes a value to a local and leaves it.
#[derive(Clone, Copy, PartialEq, Eq, Debug)]
pub struct LocalTee {
    /// The local.
    pub local: LocalId,
}

/// `global.get`: reads a global.
#[derive(Clone, Copy, PartialEq, Eq, Debug)]
pub struct GlobalGet {
    /// The global.
    pub global: GlobalId,
}

/// `global.set`: takes a value and writes it to a global.
#[derive(Clone, Copy, PartialEq, Eq, Debug)]
pub struct GlobalSet {
    /// The global.
    pub global: GlobalId,
}

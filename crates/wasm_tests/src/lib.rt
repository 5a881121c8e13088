//! Tests of `wasm_binary`, `wasm_module` and `wasm_normalise` through their public calls: of what no
//! contract says, and tests that fail where an edit makes a call wrong. The others are tests of the
//! translation into Rust.
//!
//! They are in a crate of their own, since tests inside a crate have the gate prove that crate a
//! second time.
#![tactic(auto)]

#[cfg(test)]
mod assertions;
#[cfg(test)]
mod binary;
#[cfg(test)]
mod module;
#[cfg(test)]
mod normalise;

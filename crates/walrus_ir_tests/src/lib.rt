//! Tests of types, sections and instructions through the public calls of their crates, also where
//! memory is refused.
//!
//! They are in a crate of their own, since tests inside a crate have the gate prove that crate a
//! second time.
#![tactic(auto)]

#[cfg(test)]
mod assertions;
#[cfg(test)]
mod fixtures;
#[cfg(test)]
mod ir;
#[cfg(test)]
mod sections;
#[cfg(test)]
mod ty;

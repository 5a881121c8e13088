//! Tests of the type table, reading, emission, normal forms and moves through the public calls of
//! `walrus_types`, also where memory is refused.
//!
//! They are in a crate of their own, since tests inside a crate have the gate prove that crate a
//! second time.
#![tactic(auto)]

#[cfg(test)]
mod assertions;
#[cfg(test)]
mod canonical;
#[cfg(test)]
mod difference;
#[cfg(test)]
mod emit;
#[cfg(test)]
mod error;
#[cfg(test)]
mod fixtures;
#[cfg(test)]
mod is_normal_form;
#[cfg(test)]
mod moves;
#[cfg(test)]
mod normal_form;
#[cfg(test)]
mod section_reader;
#[cfg(test)]
mod table;

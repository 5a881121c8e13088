//! Tests of `walrus_unused` and `walrus_passes` through the public calls that `walrus_passes` exports.
//!
//! They are in a crate of their own, since tests inside a crate have the gate prove that crate a
//! second time.
#![tactic(auto)]

#[cfg(test)]
mod assertions;
#[cfg(test)]
mod bodies;
#[cfg(test)]
mod calls;
#[cfg(test)]
mod conversions;
#[cfg(test)]
mod examples;
#[cfg(test)]
mod index_maps;
#[cfg(test)]
mod refusals;
#[cfg(test)]
mod sections;
#[cfg(test)]
mod unused_types;

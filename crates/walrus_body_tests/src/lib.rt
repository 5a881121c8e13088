//! Tests of the nesting check and of the walks through the public calls of `walrus_body`, and a
//! function of a user with a contract of its own.
//!
//! The crate depends on `walrus_arena`, `walrus_types`, `walrus_ir` and `walrus_body` alone, as a
//! user's crate does, and its clauses find all definitions in the specs of these four. The tests
//! are in a crate of their own, since tests inside a crate have the gate prove that crate a second
//! time.
//!
//! In the modules `refusals`, each request for memory may be refused, one in a run: what a refused
//! call leaves is as it has to be, and the call goes through when it is made again.
#![tactic(auto)]

#[cfg(test)]
mod assertions;
#[cfg(test)]
mod bodies;
#[cfg(test)]
mod calls;
#[cfg(test)]
mod changing;
#[cfg(test)]
mod fields;
#[cfg(test)]
mod functions;
#[cfg(test)]
mod in_order;
#[cfg(test)]
mod lists;
#[cfg(test)]
mod log;
#[cfg(test)]
mod nesting;

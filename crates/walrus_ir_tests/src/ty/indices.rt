//! The maps between ids and indices.
mod refusals;

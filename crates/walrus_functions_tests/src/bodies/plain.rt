//! Calls that add an instruction without sequences inside.
mod refusals;

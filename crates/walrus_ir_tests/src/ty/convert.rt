//! A type is read from a record, and written as one again.
mod refusals;

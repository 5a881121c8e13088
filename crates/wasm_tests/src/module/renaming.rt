//! Parts of modules with other indices of types.
mod refusals;

//! A simple and slow program that judges a normal form of a type section.
//!
//! [`is_normal_form`] decides by the definition whether a section is the normal form of another. It
//! is there to try the definition on examples, and to judge other programs.
//!
//! An array type and a function type that name no index change places, and the map says so:
//!
//! ```
//! let given = [GroupAt::Single(array(ValAt::I32)), GroupAt::Single(func(alloc))];
//! let turned = [GroupAt::Single(func(alloc)), GroupAt::Single(array(ValAt::I32))];
//! assert!(rt; is_normal_form(alloc, &given, &turned, &[1, 0])?);
//! assert!(rt; !is_normal_form(alloc, &given, &given, &[0, 1])?);
//! ```
#![tactic(auto)]

mod anchors;
mod definitions;
mod indices;
mod names;
mod pairs;
mod places;
mod renaming;
mod verify;

pub use verify::is_normal_form;

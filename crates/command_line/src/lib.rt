//! What the programs share: their arguments, their input and output, and what they say about
//! themselves.
//!
//! - [`parse_arguments`] says what the arguments of a program ask for, and [`has_option`] whether
//!   an option is among them. An [`OptionValue`] is an option with a value.
//! - [`open`] opens a file, or takes standard input where the name is `-`. [`read_bytes`] reads all
//!   that an input gives. [`create`] names a file to write, or standard output.
//!   [`temporary_name`] makes the name that a new file has until all is written.
//! - [`write_version`] and [`report_usage`] say what a program is and how it is used.
#![tactic(auto)]

mod about;
mod arguments;
mod input;
mod output;
mod output_file;

pub use about::{report_usage, write_version};
pub use arguments::{NOT_UTF8, OptionValue, Request, has_option, parse_arguments};
pub use input::{Input, open, read_bytes};
pub use output::{Output, create};
pub use output_file::{OutputFile, OutputNames, temporary_name};

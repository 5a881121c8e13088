//! The text of type sections: a line for each definition, read as records of
//! [`walrus_ty`](walrus_ty::GroupAt) and written from them.
//!
//! - [`read_section`] reads the groups of a text, and says where a line is no part of a section.
//! - [`write_section`] writes groups, and [`write_output`] also the new index of each entry of
//!   another section.
//! - [`laws`] has the theorems: nothing but words and lines counts in a text, a text has at most
//!   one section, and what is written is read back.
//!
//! The WebAssembly specification has no text for a type section alone. This one takes the names of
//! its types from there. Spaces divide words, and no other byte does: a tab or a carriage return is
//! a part of its word. A line ends with a line feed, which the last one may lack, and a line
//! without words does not count. In this grammar `LF` is the end of a line:
//!
//! ```text
//! section    = group*
//! group      = definition LF | "rec" LF (definition LF)* "end" LF
//! definition = "open"? supertype? composite
//! supertype  = "sub:" index
//! composite  = "func" value* "->" value* | "struct" field* | "array" field
//! field      = storage | "mut:" storage
//! storage    = value | "i8" | "i16"
//! value      = "i32" | "i64" | "f32" | "f64" | "v128" | "null:" heap | "ref:" heap
//! heap       = name | index | "exact:" index
//! name       = "func" | "nofunc" | "extern" | "noextern" | "exn" | "noexn" | "any" | "none"
//!            | "eq" | "i31" | "struct" | "array"
//! ```
//!
//! What follows a colon belongs to the same word. A type that is not `open` is final. A field after
//! `mut:` can be written, a reference after `null:` may be null. An index is a number below 2^32 in
//! decimal digits, without a sign and without leading zeros; what it names is not looked at.
//!
//! Spaces and lines without words do not come back:
//!
//! ```
//! let mut reader = b"rec\nend\n \n  open   struct\n\nfunc -> i32".as_slice();
//! let groups = read_section(alloc, &mut reader)?;
//! let mut out: Vec<u8> = Vec::new(alloc);
//! write_output(&mut out, groups.as_slice(), &[1, 0, 4294967295])?;
//! let wanted = b"rec\nend\nopen struct\nfunc -> i32\nmap 1 0 4294967295\n".as_slice();
//! assert_eq!(rt; out.as_slice(), wanted);
//! ```
#![tactic(auto)]

mod error;
mod kept_error;
pub mod laws;
mod line_reader;
mod numbers;
mod parse;
mod print;
mod section_builder;
mod words;

pub use error::{BadLine, Expected, TextError};
pub use line_reader::read_section;
pub use print::{write_output, write_section};

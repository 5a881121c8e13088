//! The text of a section's parts. Each call that reads one returns `None` exactly where its bytes
//! are the text of no such part.
mod entry;
mod fault;
mod line;
mod value;

pub use fault::find_fault;
pub use line::{Line, read_line};

//! What the program says of a custom section for which it rejects a module or warns of it.
use error_context::{Context, NamedSection};
use std::fmt;
use std::fmt::Formatter;

/// Writes that the custom section at this place describes bytes that change, with its name if the
/// context has it.
pub fn write_outdated<W: fmt::Write>(
    f: &mut Formatter<W>,
    offset: usize,
    context: &Context,
) -> fmt::Result {
    write_section(f, offset, context)?;
    write!(f, " describes bytes that change")
}

/// Writes that the custom section at this place is of an unknown kind, with its name if the context
/// has it.
pub fn write_unknown_kind<W: fmt::Write>(
    f: &mut Formatter<W>,
    offset: usize,
    context: &Context,
) -> fmt::Result {
    write_section(f, offset, context)?;
    write!(f, " is of an unknown kind")
}

/// Writes that the custom section at this place can't be read, with its name if the context has it.
pub fn write_unread<W: fmt::Write>(
    f: &mut Formatter<W>,
    offset: usize,
    context: &Context,
) -> fmt::Result {
    write_section(f, offset, context)?;
    write!(f, " can't be read")
}

fn write_section<W: fmt::Write>(
    f: &mut Formatter<W>,
    offset: usize,
    context: &Context,
) -> fmt::Result {
    write!(f, "the custom section")?;
    if let Context::Within(
        NamedSection {
            name: Some(name),
            ..
        },
    ) = context
    {
        write!(f, " {name}")?;
    }
    write!(f, " at byte {offset}")
}

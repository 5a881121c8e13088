//! The name of a custom section as messages show it.
ghost use Rattle.std.specs.Prelude.{◌≡◌, min};
ghost use Rattle.error_context.specs.ShownNames.{IsShown, most_shown};

use std::fmt;
use std::fmt::Formatter;

/// How many bytes of a name are shown at most.
const MOST_SHOWN: usize = 64;

/// The name of a custom section, or its first bytes where it is long.
///
/// It is shown as WebAssembly's text format has a string: printable ASCII as it is, other bytes as
/// two hexadecimal digits behind a backslash, and a backslash before quotes and backslashes. Three
/// points behind it say that bytes are left out.
#[derive(Clone, Copy, PartialEq, Eq, Debug)]
pub struct ShownName {
    /// The first bytes of the name. What is behind them plays no role.
    pub bytes: [u8; MOST_SHOWN],
    /// How many bytes the name has.
    pub length: usize,
}

/// The name as it is shown.
pub fn shown_name(name: &[u8]) -> ShownName
    ensures { IsShown result name.now }
{
    let count = shown_count(name.len());
    let mut bytes = [0; MOST_SHOWN];
    bytes[..count].copy_from_slice(&name[..count]);
    ShownName {
        bytes,
        length: name.len(),
    }
}

/// How many bytes are shown of a name of this length.
fn shown_count(length: usize) -> usize
    ensures { result ≡ min most_shown length }
{
    if length > MOST_SHOWN {
        MOST_SHOWN
    } else {
        length
    }
}

impl fmt::Display for ShownName {
    fn fmt<W: fmt::Write>(&self, f: &mut Formatter<W>) -> fmt::Result {
        let count = shown_count(self.length);
        write!(f, "\"")?;
        for byte in &self.bytes[..count] {
            write_byte(f, *byte)?;
        }
        write!(f, "\"")?;
        if self.length > MOST_SHOWN {
            write!(f, "...")?;
        }
        Ok(())
    }
}

fn write_byte<W: fmt::Write>(f: &mut Formatter<W>, byte: u8) -> fmt::Result {
    match byte {
        b'"' | b'\\' => write!(f, "\\{}", char::from(byte)),
        0x20..=0x7E => write!(f, "{}", char::from(byte)),
        _ => write!(f, "\\{byte:02x}"),
    }
}

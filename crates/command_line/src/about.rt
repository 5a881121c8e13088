//! What a program says about itself.
ghost use Rattle.std.specs.Prelude.{◌≡◌, OnOk};
ghost use Rattle.std.specs.Io.KnownBytes.{Appends};
ghost use Rattle.command_line.specs.About.{version_line};

use std::io::{self, Write};

/// The version of the programs.
const VERSION: &str = "0.1.0";

/// The exit status of wrong arguments, as in the C header `sysexits.h`.
const USAGE_STATUS: u8 = 64;

/// Writes the name of a program and the version.
///
/// # Errors
///
/// An error comes where a write fails.
pub fn write_version<W: Write>(program: &str, out: &mut W) -> io::Result<()>
    ensures written { OnOk result (Appends (W.contents out.old) (W.contents out.new)
        (version_line program.now)) }
{
    writeln!(out, "{program} {VERSION}")
}

/// Writes the usage, and returns the exit status of a program with wrong arguments. If the usage
/// can't be written, nothing changes.
pub fn report_usage<E: Write>(usage: &str, err: &mut E) -> u8
    ensures { result ≡ 64 }
{
    let _written = err.write_all(usage.as_bytes());
    USAGE_STATUS
}

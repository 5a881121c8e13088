//! What a program reads.
ghost use Rattle.std.specs.Prelude.{◌≡◌, ◌↔◌, IfOk, IfSome, IsOk};
ghost use Rattle.command_line.specs.Inputs.{IsStandard, standard_name};

use std::alloc::Global;
use std::fs::{self, File};
use std::io::{self, IsTerminal, Read, Stdin, Write};

/// What a program reads.
#[derive(Drop)]
pub enum Input {
    /// Standard input.
    Standard(Stdin),
    /// A file.
    File(File),
}

impl Read for Input {
    fn read(&mut self, buffer: &mut [u8]) -> io::Result<usize> {
        match self {
            Input::Standard(stdin) => stdin.read(buffer),
            Input::File(file) => file.read(buffer),
        }
    }
}

/// Opens the file of this name. The name `-` is for standard input. If that is a terminal, a line
/// on `err` says that the program waits for input. If the line can't be written, nothing changes.
///
/// # Errors
///
/// An error comes where the file can't be opened. Standard input is always there.
pub fn open<E: Write>(rt: &HostRuntime, name: &str, err: &mut E) -> io::Result<Input>
    ensures standard { IfOk result (λ input. IsStandard input ↔ (name.now ≡ standard_name)) }
    ensures opened { name.now ≡ standard_name → IsOk result }
{
    if name != "-" {
        return Ok(Input::File(fs::open(rt, name)?));
    }
    let stdin = rt.stdin();
    if stdin.is_terminal() {
        let _written = writeln!(
            err,
            "waiting for input from the terminal, which Ctrl-D ends"
        );
    }
    Ok(Input::Standard(stdin))
}

/// Returns all bytes that the reader gives up to its end.
///
/// # Errors
///
/// An error comes where a read fails. If memory was refused its kind is
/// [`ErrorKind::OutOfMemory`](io::ErrorKind::OutOfMemory).
pub fn read_bytes<R: Read>(alloc: Global, reader: &mut R) -> io::Result<Vec<u8>>
    ensures { IfOk result (λ read. IfSome (R.remaining reader.old)
        (λ bytes. read.items ≡ bytes)) }
{
    let mut bytes = Vec::new(alloc);
    reader.read_to_end(&mut bytes)?;
    Ok(bytes)
}

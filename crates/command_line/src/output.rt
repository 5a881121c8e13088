//! What a program writes to.
ghost use Rattle.std.specs.Prelude.{IsOk};
ghost use Rattle.command_line.specs.Outputs.{HasNoFile, IsOutputNamed};

use crate::output_file::{OutputFile, OutputNames};
use std::io::{self, Stdout, Write};

/// What a program writes to.
#[derive(Drop)]
pub enum Output<'a> {
    /// Standard output.
    Standard(Stdout),
    /// A file that the first write opens.
    Unopened(OutputNames<'a>),
    /// A file that was opened.
    File(OutputFile<'a>),
}

impl Write for Output<'_> {
    fn write(&mut self, bytes: &[u8]) -> io::Result<usize> {
        match self {
            Output::Standard(stdout) => stdout.write(bytes),
            Output::Unopened(names) => {
                let mut file = OutputFile::open(*names)?;
                let written = file.write(bytes);
                *self = Output::File(file);
                written
            }
            Output::File(file) => file.write(bytes),
        }
    }

    fn flush(&mut self) -> io::Result<()> {
        match self {
            Output::Standard(stdout) => stdout.flush(),
            Output::Unopened(_) => Ok(()),
            Output::File(file) => file.flush(),
        }
    }
}

impl Output<'_> {
    /// Ends the output once all is written. A new file gets its name. If it can't, it is copied to
    /// the file with that name, and removed.
    ///
    /// # Errors
    ///
    /// An error comes where the copy fails. The file with that name can then have a part of it.
    pub fn finish(self) -> io::Result<()>
        ensures { HasNoFile self.entry → IsOk result }
    {
        match self {
            Output::File(file) => file.finish(),
            Output::Standard(_) | Output::Unopened(_) => Ok(()),
        }
    }

    /// Ends the output where something failed. A new file is removed, and the file with its name
    /// stays as it was.
    pub fn discard(self) {
        if let Output::File(file) = self {
            file.discard();
        }
    }
}

/// Returns the output with this name. The name `-` is for standard output. Any other name is that
/// of a file, which the first write opens. So a program that fails before it writes leaves the file
/// as it was.
///
/// If the name is free, or an ordinary file has it, a new file is written under the temporary name.
/// [`Output::finish`] gives it its name and [`Output::discard`] removes it. So a program that fails
/// while it writes leaves the file as it was too. The new file has the permissions and the owner of
/// the old one.
///
/// A device, a pipe or a symbolic link is written itself. So is a file with several hard links, and
/// a file if no new one can be made beside it, or only one with another owner.
pub fn create<'a>(rt: &'a HostRuntime, name: &'a str, temporary: &'a str) -> Output<'a>
    ensures { IsOutputNamed name.now temporary.now result }
{
    if name == "-" {
        Output::Standard(rt.stdout())
    } else {
        Output::Unopened(OutputNames {
            rt,
            name,
            temporary,
        })
    }
}

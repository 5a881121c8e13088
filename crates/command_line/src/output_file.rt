//! The file that a program writes.
ghost use Rattle.std.specs.Prelude.{IfOk};
ghost use Rattle.std.specs.String.{string_bytes};
ghost use Rattle.command_line.specs.Outputs.{BeginsWith};

use std::alloc::{AllocError, Global};
use std::fs::{self, File, Metadata, OpenOptions};
use std::io::{self, ErrorKind, Write};
use std::os::unix::fs::MetadataExt;

/// A file that is open for writing.
#[derive(Drop)]
pub enum OutputFile<'a> {
    /// A file with its own name.
    InPlace(File),
    /// A new file, which has its temporary name.
    Beside {
        /// The new file.
        file: File,
        /// Its names.
        names: OutputNames<'a>,
    },
}

/// The names of a file to write.
#[derive(Clone, Copy)]
pub struct OutputNames<'a> {
    /// The system that the program runs on.
    pub rt: &'a HostRuntime,
    /// The name of the file.
    pub name: &'a str,
    /// The name that a new file has until all is written.
    pub temporary: &'a str,
}

impl Write for OutputFile<'_> {
    fn write(&mut self, bytes: &[u8]) -> io::Result<usize> {
        match self {
            OutputFile::InPlace(file) | OutputFile::Beside { file, .. } => file.write(bytes),
        }
    }

    fn flush(&mut self) -> io::Result<()> {
        match self {
            OutputFile::InPlace(file) | OutputFile::Beside { file, .. } => file.flush(),
        }
    }
}

impl<'a> OutputFile<'a> {
    /// Opens a new file under the temporary name, if it can take the place of the file with the
    /// name. Opens that file itself otherwise.
    pub(crate) fn open(names: OutputNames<'a>) -> io::Result<OutputFile<'a>> {
        let old = match fs::symlink_metadata(names.rt, names.name) {
            Ok(metadata) if metadata.is_file() => {
                // A file that may not be written may not be replaced.
                OpenOptions::new().write(true).open(names.rt, names.name)?;
                Some(metadata)
            }
            Err(error) if error.kind() == ErrorKind::NotFound => None,
            _ => return OutputFile::in_place(names),
        };
        match new_file(names, old) {
            Ok(file) => Ok(OutputFile::Beside { file, names }),
            Err(_) => OutputFile::in_place(names),
        }
    }

    fn in_place(names: OutputNames<'a>) -> io::Result<OutputFile<'a>> {
        Ok(OutputFile::InPlace(fs::create(names.rt, names.name)?))
    }

    /// Gives a new file its name, or copies it to the file with that name.
    pub(crate) fn finish(self) -> io::Result<()> {
        let OutputFile::Beside { names, .. } = self else {
            return Ok(());
        };
        if fs::rename(names.rt, names.temporary, names.name).is_ok() {
            return Ok(());
        }
        // No file can take the place of one that is mounted by itself.
        let copied = fs::copy(names.rt, names.temporary, names.name);
        remove(names);
        match copied {
            Ok(_) => Ok(()),
            Err(error) => Err(error),
        }
    }

    /// Removes a new file. A file with its own name stays.
    pub(crate) fn discard(self) {
        if let OutputFile::Beside { names, .. } = self {
            remove(names);
        }
    }
}

/// A new file under the temporary name, which can take the place of the old one.
fn new_file(names: OutputNames<'_>, old: Option<Metadata>) -> io::Result<File> {
    let file = File::create_new(names.rt, names.temporary)?;
    let Some(old) = old else {
        return Ok(file);
    };
    match become_like(&file, &old) {
        Ok(()) => Ok(file),
        Err(error) => {
            remove(names);
            Err(error)
        }
    }
}

/// Gives a new file the permissions of an old one. An error comes where more would change: the
/// owner, or what another hard link leads to.
fn become_like(file: &File, old: &Metadata) -> io::Result<()> {
    let new = file.metadata()?;
    if old.nlink() != 1 || new.uid() != old.uid() || new.gid() != old.gid() {
        return Err(ErrorKind::Unsupported.into());
    }
    file.set_permissions(old.permissions())
}

/// Removes the file with the temporary name. If it can't be removed, it stays.
fn remove(names: OutputNames<'_>) {
    let _removed = fs::remove_file(names.rt, names.temporary);
}

/// Returns a name for a new file in the folder of the file with this name. Names with different
/// numbers are different.
///
/// # Errors
///
/// An error comes if memory is refused.
pub fn temporary_name(alloc: Global, name: &str, number: u64) -> Result<String, AllocError>
    ensures { IfOk result (λ longer. BeginsWith name.now (string_bytes longer)) }
{
    format!(in alloc; "{name}.{number:x}.tmp")
}

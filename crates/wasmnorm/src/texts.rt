//! What the program prints about itself, and its options.

/// The option that keeps the widths of indices.
pub const KEEP_WIDTHS: &str = "--keep-widths";

/// The option that deletes types that nothing uses.
pub const PRUNE: &str = "--prune";

/// The option that leaves out sections that describe other bytes.
pub const STRIP: &str = "--strip";

/// The option that rejects modules instead of warning of them.
pub const STRICT: &str = "--strict";

/// The option that says of a custom section, whose name is behind it, that it refers to no type and to
/// no place in the file.
pub const ALLOW: &str = "--allow";

/// The option that names the file to write, which is behind it.
pub const OUTPUT: &str = "-o";

pub const USAGE: &str = "\
usage: wasmnorm [--prune] [--strip] [--strict] [--allow NAME]... [--keep-widths] [-o OUTPUT] [FILE]
";

pub const HELP: &str = "\
usage: wasmnorm [--prune] [--strip] [--strict] [--allow NAME]... [--keep-widths] [-o OUTPUT] [FILE]
Writes the WebAssembly module in FILE to standard output, with its type section in canonical form
and every other index of a type written again. Each type stays equal to what it was. Without FILE,
or if it is -, the module comes from standard input. Custom sections other than the one named name
are copied as they are, and a module is refused if one of them, such as debug data, describes bytes
that would change. There is a warning if a custom section is of an unknown kind: it may refer to
types or to places in the file. There is one if the section named name can't be read: it is copied
as it is.
  --prune        deletes types that nothing uses outside the type section
  --strip        leaves out custom sections that describe other bytes, such as debug data
  --strict       rejects a module instead of warning of it
  --allow NAME   takes custom sections of this name for ones that refer to no type and to no place
                 in the file; it can be there more than once
  --keep-widths  writes each index outside the type section in as many bytes as it had, or in more
                 where it needs them
  -o OUTPUT      writes to this file, which may be FILE itself, and not to standard output; the
                 file is created or changed only once the whole new module is there
  --help         prints this text
  --version      prints the version
";

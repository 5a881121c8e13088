//! What the program prints about itself.

pub const USAGE: &str = "usage: wasmtypes [FILE]\n";

pub const HELP: &str = "usage: wasmtypes [FILE]
Prints the type section of the WebAssembly module in FILE as text, which typenorm and sametypes
read. Without FILE, or if it is -, the module comes from standard input.
  --help     prints this text
  --version  prints the version
";

//! What the program prints about itself.

pub const USAGE: &str = "usage: sametypes A B\n";

pub const HELP: &str = "usage: sametypes A B
Prints same if the type sections in the files A and B are the same up to moves. Otherwise it prints
at which entry their normal forms first differ. Each file is a module in the binary format or a
text. One of the two may be -, for standard input.
  --help     prints this text
  --version  prints the version
";

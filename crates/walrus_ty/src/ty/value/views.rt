//! What is read of fields and of reference types.
ghost use Rattle.std.specs.Prelude.{◌≡◌};
ghost use Rattle.walrus_ty.specs.Value.{unpacked_type};

use super::{Reference, Storage, Val};

impl<N: Copy> Storage<N> {
    /// The type of the values that such a field is read and written with: `i32` for `i8` and `i16`.
    /// WebAssembly core specification, "Types": `unpack`.
    pub fn unpack(&self) -> Val<N>
        ensures { result ≡ unpacked_type self.now }
    {
        match self {
            Storage::Val(value) => *value,
            Storage::I8 => Val::I32,
            Storage::I16 => Val::I32,
        }
    }
}

impl<N> Reference<N> {
    /// Whether the null reference is one of its values.
    pub fn is_nullable(&self) -> bool
        ensures { result ≡ self.now.nullable }
    {
        self.nullable
    }
}

//! Lists of what can be written.
//! WebAssembly core specification, "Binary Format", lists.
ghost use Rattle.std.specs.Prelude.{◌≡◌, ◌++◌, ℕ, List, OnOk, IsErrOf};
ghost use Rattle.std.specs.List.{flat_map};
ghost use Rattle.wasm_binary.specs.Faults.{HasNoText};
ghost use Rattle.wasm_binary.specs.Grammar.{AreItems, IsVec};
ghost use Rattle.wasm_binary.specs.Steps.Writing.{vec_text};
ghost use Rattle.wasm_binary.specs.declared.error.EncodeError.TheVariants.{TooMany};

use crate::error::EncodeError;
use crate::leb128::push_u32;

/// What can be written.
pub trait Encode {
    /// Which bytes are a text of it.
    ghost texts: { List ℕ → Self → Type 0 };

    /// The text that is written.
    ghost text: { Self → List ℕ };

    /// Puts the text at the end. After an error some of it may be there.
    fn write(&self, out: &mut Vec<u8>) -> Result<(), EncodeError>
        ensures appends { OnOk result (out.new.items ≡ out.old.items ++ text self.now) }
        ensures text { OnOk result (texts (text self.now) self.now) }
        ensures too_many { IsErrOf result TooMany → HasNoText texts self.now };
}

/// The count of the items, and then each of them.
pub fn write_vec<T: Encode>(out: &mut Vec<u8>, items: &[T]) -> Result<(), EncodeError>
    ensures appends { OnOk result (out.new.items ≡ out.old.items ++ vec_text T.text items.now) }
    ensures text { OnOk result (IsVec T.texts (vec_text T.text items.now) items.now) }
    ensures too_many { IsErrOf result TooMany → HasNoText (IsVec T.texts) items.now }
{
    let Ok(count) = u32::try_from(items.len()) else {
        return Err(EncodeError::TooMany);
    };
    push_u32(count, out)?;
    write_items(out, items)
}

fn write_items<T: Encode>(out: &mut Vec<u8>, items: &[T]) -> Result<(), EncodeError>
    ensures appends { OnOk result (out.new.items ≡ out.old.items ++ flat_map T.text items.now) }
    ensures text { OnOk result (AreItems T.texts (flat_map T.text items.now) items.now) }
    ensures too_many { IsErrOf result TooMany → HasNoText (AreItems T.texts) items.now }
{
    for item in items {
        item.write(out)?;
    }
    Ok(())
}

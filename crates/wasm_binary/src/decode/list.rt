//! Lists of what can be read.
//! WebAssembly core specification, "Binary Format", lists.
ghost use Rattle.std.specs.Prelude.{◌≡◌, ℕ, List, Result};
ghost use Rattle.wasm_binary.specs.Steps.Reading.{Gives, items_at, vec_at};
ghost use Rattle.wasm_binary.specs.declared.error.Fault.{Fault};

use crate::error::RawReadError;
use crate::leb128::read_u32;
use std::alloc::Global;

/// What can be at the front of bytes.
pub trait Decode: Sized {
    /// The value at the front of bytes, and the bytes after it.
    ghost reading: { List ℕ → Result (Self × List ℕ) Fault };

    /// Takes the value from the front. With an error the input is left at the fault.
    fn read(alloc: Global, input: &mut &[u8]) -> Result<Self, RawReadError>
        ensures { Gives (λ x. x) result input.new.now (reading input.old.now) };
}

/// The greatest number of items for which memory is taken before they are read.
const MOST_RESERVED: usize = 1000;

/// A count, and then that many items. A count that fewer bytes follow takes no memory. An empty
/// list, as the results often are, costs no call.
#[inline(always)]
#[tactic(auto, unfolding(crate::specs::Steps::Reading::vec_at, crate::specs::Steps::Reading::items_at))]
pub fn read_vec<T: Decode + Drop>(alloc: Global, input: &mut &[u8]) -> Result<Vec<T>, RawReadError>
    ensures { Gives (λ xs. xs.items) result input.new.now (vec_at T.reading input.old.now) }
{
    let count = read_u32(input)?;
    if count == 0 {
        return Ok(Vec::new(alloc));
    }
    read_items(alloc, count, input)
}

/// Reads `count` items. This is a call, so that what reads several lists stays small.
#[inline(never)]
fn read_items<T: Decode + Drop>(
    alloc: Global,
    count: u32,
    input: &mut &[u8],
) -> Result<Vec<T>, RawReadError>
    ensures { Gives (λ xs. xs.items) result input.new.now (items_at T.reading count input.old.now) }
{
    let mut items = Vec::with_capacity(alloc, initial_capacity(count, input.len()))?;
    for _ in 0..count {
        let item = T::read(alloc, input)?;
        items.push(item)?;
    }
    Ok(items)
}

/// The number of items for which memory is taken before they are read, where `left` bytes are left.
/// It is 0 where there are fewer bytes than items, since the last items are then missing.
fn initial_capacity(count: u32, left: usize) -> usize {
    let count = count as usize;
    if count > left {
        return 0;
    }
    count.min(MOST_RESERVED)
}

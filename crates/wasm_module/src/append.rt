//! Bytes behind others, with as little memory as they need.
ghost use Rattle.std.specs.Prelude.{◌≡◌, ◌≤◌, ◌++◌, length, take, IfOk, OnOk};

use std::alloc::AllocError;

/// Puts the first bytes of a text at the end, and takes memory for all of the text at once.
pub fn append_prefix(text: &[u8], count: usize, out: &mut Vec<u8>) -> Result<(), AllocError>
    requires { count ≤ length text.now }
    ensures { OnOk result (out.new.items ≡ out.old.items ++ take count text.now) }
{
    out.reserve(text.len())?;
    out.extend_from_slice(&text[..count])
}

/// Puts bytes at the end. The shorter ones are copied to where the longer ones are.
pub fn append_whole(bytes: Vec<u8>, out: &mut Vec<u8>) -> Result<(), AllocError>
    ensures { OnOk result (out.new.items ≡ out.old.items ++ bytes.items) }
{
    if bytes.len() <= out.len() {
        out.extend_from_slice(&bytes)?;
        return Ok(());
    }
    let whole = prepend(out.as_slice(), bytes)?;
    *out = whole;
    Ok(())
}

/// These bytes, and others behind them, which stay in their memory.
pub fn prepend(prefix: &[u8], bytes: Vec<u8>) -> Result<Vec<u8>, AllocError>
    ensures { IfOk result (λ whole. whole.items ≡ prefix.now ++ bytes.items) }
{
    let mut whole = bytes;
    whole.extend_from_slice(prefix)?;
    whole.rotate_right(prefix.len());
    Ok(whole)
}

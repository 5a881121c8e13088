//! Integers in LEB128.
//! WebAssembly core specification, "Binary Format", integers.
ghost use Rattle.std.specs.Prelude.{◌≡◌, ◌≤◌, ◌<◌, ◌^◌, IfSome, OnOk};
ghost use Rattle.wasm_binary.specs.Steps.Reading.{Finds, integer_at, u32_at, s33_at};
ghost use Rattle.wasm_module.specs.Renaming.{IsTextOf};
ghost use Rattle.wasm_module.specs.Steps.Heads.{Finds as Skips, skip_at, signed_at};
ghost use Rattle.wasm_module.specs.Steps.Renaming.{Appends, IsWide};

use std::alloc::AllocError;

const U32_LIMIT: u64 = 1 << 32;

/// Takes a `u32` from the prefix. With `None` the input is left where an integer was expected.
pub fn read_u32(input: &mut &[u8]) -> Option<u32>
    ensures { Finds result input.new.now (u32_at input.old.now) }
{
    let number = read_integer(0x80, U32_LIMIT, input)?;
    Some(number as u32)
}

/// Takes a number below `limit` whose last byte is below `end`.
#[tactic(auto, unfolding(wasm_binary::specs::Steps::Reading::integer_at))]
fn read_integer(end: u8, limit: u64, input: &mut &[u8]) -> Option<u64>
    requires { limit ≤ 2 ^ 32 }
    ensures finds { Finds result input.new.now (integer_at end limit input.old.now) }
    ensures bound { IfSome result (λ n. n < limit) }
{
    let [byte, rest @ ..] = *input else {
        return None;
    };
    let byte = *byte;
    if byte < 0x80 {
        if byte >= end || u64::from(byte) >= limit {
            return None;
        }
        *input = rest;
        return Some(u64::from(byte));
    }
    if limit <= 0x80 {
        return None;
    }
    *input = rest;
    let high = read_integer(end, limit / 0x80, input)?;
    Some(high * 0x80 + u64::from(byte - 0x80))
}

/// Takes a type's index as an `s33` from the front.
pub fn read_s33(input: &mut &[u8]) -> Option<u32>
    ensures { Finds result input.new.now (s33_at input.old.now) }
{
    let number = read_integer(0x40, U32_LIMIT, input)?;
    Some(number as u32)
}

/// Takes a `u64`, whose value plays no role.
pub fn skip_u64(input: &mut &[u8]) -> Option<()>
    ensures { Skips (λ u. tt) result input.new.now (skip_at (2 ^ 64) input.old.now) }
{
    skip_integer(1 << 64, input)
}

/// Takes an `s32`, whose value plays no role.
pub fn skip_s32(input: &mut &[u8]) -> Option<()>
    ensures { Skips (λ u. tt) result input.new.now (signed_at (2 ^ 31) input.old.now) }
{
    skip_signed(1 << 31, input)
}

/// Takes an `s64`, whose value plays no role.
pub fn skip_s64(input: &mut &[u8]) -> Option<()>
    ensures { Skips (λ u. tt) result input.new.now (signed_at (2 ^ 63) input.old.now) }
{
    skip_signed(1 << 63, input)
}

#[tactic(auto, unfolding(crate::specs::Steps::Heads::skip_at))]
fn skip_integer(limit: u128, input: &mut &[u8]) -> Option<()>
    ensures { Skips (λ u. tt) result input.new.now (skip_at limit input.old.now) }
{
    let [byte, rest @ ..] = *input else {
        return None;
    };
    let byte = *byte;
    if byte < 0x80 {
        if u128::from(byte) >= limit {
            return None;
        }
        *input = rest;
        return Some(());
    }
    if limit <= 0x80 {
        return None;
    }
    *input = rest;
    skip_integer(limit / 0x80, input)
}

#[tactic(auto, unfolding(crate::specs::Steps::Heads::signed_at))]
fn skip_signed(limit: u64, input: &mut &[u8]) -> Option<()>
    requires { limit ≤ 2 ^ 63 }
    ensures { Skips (λ u. tt) result input.new.now (signed_at limit input.old.now) }
{
    let [byte, rest @ ..] = *input else {
        return None;
    };
    let byte = *byte;
    if byte < 0x40 {
        if u64::from(byte) >= limit {
            return None;
        }
        *input = rest;
        return Some(());
    }
    if byte < 0x80 {
        if u64::from(byte) + limit < 0x80 {
            return None;
        }
        *input = rest;
        return Some(());
    }
    if limit <= 0x40 {
        return None;
    }
    *input = rest;
    skip_signed(limit / 0x80, input)
}

/// Puts the text of a `u32` at the end, with this many bytes at least.
pub fn push_u32(number: u32, least: usize, out: &mut Vec<u8>) -> Result<(), AllocError>
    requires { least ≤ 5 }
    ensures { OnOk result (Appends (λ text. IsTextOf 0x80 least text number)
        out.old.items out.new.items) }
{
    push_integer(0x80, number, least, out)
}

/// Puts the text of a type's index as an `s33` at the end, with this many bytes at least.
pub fn push_s33(index: u32, least: usize, out: &mut Vec<u8>) -> Result<(), AllocError>
    requires { least ≤ 5 }
    ensures { OnOk result (Appends (λ text. IsTextOf 0x40 least text index)
        out.old.items out.new.items) }
{
    push_integer(0x40, index, least, out)
}

/// A number of this many bytes at least, with its last byte below `end`.
fn push_integer(end: u32, number: u32, least: usize, out: &mut Vec<u8>) -> Result<(), AllocError>
    requires positive { 0 < end }
    requires low { end ≤ 0x80 }
    ensures { OnOk result (Appends (λ text. IsWide end least text number)
        out.old.items out.new.items) }
{
    if number < end && least <= 1 {
        out.push(number as u8)?;
        return Ok(());
    }
    out.push((number % 0x80) as u8 + 0x80)?;
    push_integer(end, number / 0x80, least.saturating_sub(1), out)
}

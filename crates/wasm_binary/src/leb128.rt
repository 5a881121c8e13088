//! Integers in LEB128.
//! WebAssembly core specification, "Binary Format", integers.
ghost use Rattle.std.specs.Prelude.{◌≡◌, ◌≤◌, ◌<◌, ◌^◌, ◌++◌, ℕ, IfSome, OnOk};
ghost use Rattle.wasm_binary.specs.Leb128.{IsU32, IsS33};
ghost use Rattle.wasm_binary.specs.Steps.Writing.{IsEnough, integer_text, u32_text, s33_text};
ghost use Rattle.wasm_binary.specs.Steps.Reading.{Gives, Finds, integer_at, u32_at, s33_at};
ghost use Rattle.wasm_binary.specs.Steps.Framing.{Reads};

use crate::error::{Expected, Fault, RawReadError};
use std::alloc::AllocError;

const U32_LIMIT: u64 = 1 << 32;

/// Takes a `u32` from the front.
#[inline(always)]
pub fn read_u32(input: &mut &[u8]) -> Result<u32, RawReadError>
    ensures { Gives (λ n. n) result input.new.now (u32_at input.old.now) }
{
    read_number(0x80, input)
}

/// Takes a type's index as an `s33` from the front.
#[inline(always)]
pub fn read_s33(input: &mut &[u8]) -> Result<u32, RawReadError>
    ensures { Gives (λ n. n) result input.new.now (s33_at input.old.now) }
{
    read_number(0x40, input)
}

/// The size of a section as a `u32` at the front, and the bytes after it.
pub fn read_size(bytes: &[u8]) -> Result<(u32, &[u8]), Fault>
    ensures { Reads (λ x. (x.0, x.1.now)) result (u32_at bytes.now) }
{
    let mut rest = bytes;
    match read_integer(0x80, U32_LIMIT, &mut rest) {
        Some(size) => Ok((size as u32, rest)),
        None => Err(Fault::at(rest, Expected::Integer)),
    }
}

/// Takes a number whose last byte is below `end`. Most have one byte, and are read here, inlined
/// into the caller.
#[inline(always)]
#[tactic(auto, unfolding(crate::specs::Steps::Reading::integer_at))]
fn read_number(end: u8, input: &mut &[u8]) -> Result<u32, RawReadError>
    requires { end ≤ 0x80 }
    ensures { Gives (λ n. n) result input.new.now (integer_at end (2 ^ 32) input.old.now) }
{
    match *input {
        [byte, rest @ ..] if *byte < end => {
            *input = rest;
            Ok(u32::from(*byte))
        }
        _ => read_long_number(end, input),
    }
}

/// Takes a number of two bytes, as most longer ones have, or of any length.
#[tactic(auto, unfolding(crate::specs::Steps::Reading::integer_at))]
fn read_long_number(end: u8, input: &mut &[u8]) -> Result<u32, RawReadError>
    requires { end ≤ 0x80 }
    ensures { Gives (λ n. n) result input.new.now (integer_at end (2 ^ 32) input.old.now) }
{
    match *input {
        [low, high, rest @ ..] if *low >= 0x80 && *high < end => {
            *input = rest;
            Ok(u32::from(*high) * 0x80 + u32::from(*low - 0x80))
        }
        _ => match read_integer(end, U32_LIMIT, input) {
            Some(number) => Ok(number as u32),
            None => Err(RawReadError::expected(Expected::Integer)),
        },
    }
}

/// Takes a number below `limit` whose last byte is below `end`. With `None` the input is left where
/// an integer was expected.
#[tactic(auto, unfolding(crate::specs::Steps::Reading::integer_at))]
fn read_integer(end: u8, limit: u64, input: &mut &[u8]) -> Option<u64>
    requires { limit ≤ 2 ^ 32 }
    ensures finds { Finds result input.new.now (integer_at end limit input.old.now) }
    ensures bound { IfSome result (λ n. n < limit) }
{
    let [byte, rest @ ..] = *input else {
        return None;
    };
    let byte = *byte;
    if byte < 0x80 {
        if byte >= end || u64::from(byte) >= limit {
            return None;
        }
        *input = rest;
        return Some(u64::from(byte));
    }
    if limit <= 0x80 {
        return None;
    }
    *input = rest;
    let high = read_integer(end, limit / 0x80, input)?;
    Some(high * 0x80 + u64::from(byte - 0x80))
}

/// Puts the shortest text of a `u32` at the end.
pub fn push_u32(number: u32, out: &mut Vec<u8>) -> Result<(), AllocError>
    ensures appends { OnOk result (out.new.items ≡ out.old.items ++ u32_text number) }
    ensures text { OnOk result (IsU32 (u32_text number) number) }
{
    push_integer(0x80, number, out)
}

/// Puts the shortest text of a type's index as an `s33` at the end.
pub fn push_s33(index: u32, out: &mut Vec<u8>) -> Result<(), AllocError>
    ensures appends { OnOk result (out.new.items ≡ out.old.items ++ s33_text index) }
    ensures text { OnOk result (IsS33 (s33_text index) index) }
{
    push_integer(0x40, index, out)
}

/// A number with its last byte below `end`.
fn push_integer(end: u32, number: u32, out: &mut Vec<u8>) -> Result<(), AllocError>
    requires positive { 0 < end }
    requires low { end ≤ 0x80 }
    ensures { OnOk result ((more : ℕ) → IsEnough more end number →
        out.new.items ≡ out.old.items ++ integer_text more end number) }
{
    if number < end {
        out.push(number as u8)?;
        return Ok(());
    }
    out.push((number % 0x80) as u8 + 0x80)?;
    push_integer(end, number / 0x80, out)
}

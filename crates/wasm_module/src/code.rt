//! The code section of a module.
//!
//! WebAssembly core specification, "Binary Format", code section.
ghost use Rattle.std.specs.Prelude.{IfOk, IfErr};
ghost use Rattle.wasm_module.specs.NamedTypes.{IsCode};
ghost use Rattle.wasm_module.specs.Steps.Contents.{IsNoCode, BeginsWithBody, BeginsWithNoBody, BeginsWithBodies, BeginsWithNoBodies};

use crate::bodies::types_of_body;
use crate::leb128::read_u32;
use crate::scan::{ScanError, place_of};
use std::alloc::Global;

/// The types that the bodies of a code section name, from left to right. Its content ends at the
/// place `end`.
pub fn code_types(alloc: Global, content: &[u8], end: usize) -> Result<Vec<u32>, ScanError>
    ensures found { IfOk result (λ types. IsCode content.now types.items) }
    ensures refused { IfErr result (λ e. IsNoCode content.now e) }
{
    let mut rest = content;
    let Some(count) = read_u32(&mut rest) else {
        return Err(ScanError::Malformed {
            offset: place_of(rest, end),
        });
    };
    let types = take_bodies(alloc, count, &mut rest, end)?;
    if !rest.is_empty() {
        return Err(ScanError::Malformed {
            offset: place_of(rest, end),
        });
    }
    Ok(types)
}

/// Takes this many function bodies from the front.
fn take_bodies(
    alloc: Global,
    count: u32,
    input: &mut &[u8],
    end: usize,
) -> Result<Vec<u32>, ScanError>
    ensures found { IfOk result (λ types.
        BeginsWithBodies count input.old.now input.new.now types.items) }
    ensures refused { IfErr result (λ e. BeginsWithNoBodies count input.old.now e) }
{
    let mut named = Vec::new(alloc);
    for _ in 0..count {
        let types = take_body(alloc, input, end)?;
        named.extend_from_slice(&types)?;
    }
    Ok(named)
}

/// Takes a function body and its size from the front.
fn take_body(alloc: Global, input: &mut &[u8], end: usize) -> Result<Vec<u32>, ScanError>
    ensures found { IfOk result (λ types.
        BeginsWithBody input.old.now input.new.now types.items) }
    ensures refused { IfErr result (λ e. BeginsWithNoBody input.old.now e) }
{
    let Some(size) = read_u32(input) else {
        return Err(ScanError::Malformed {
            offset: place_of(input, end),
        });
    };
    let size = size as usize;
    let behind = *input;
    if size > behind.len() {
        return Err(ScanError::Malformed { offset: end });
    }
    let (body, rest) = behind.split_at(size);
    let types = types_of_body(alloc, body, place_of(rest, end))?;
    *input = rest;
    Ok(types)
}

//! Expressions and function bodies.
//!
//! WebAssembly core specification, "Binary Format", expressions and code section.
ghost use Rattle.std.specs.Prelude.{◌≡◌, IfOk, IfErr, OnErr};
ghost use Rattle.wasm_module.specs.Bodies.{BeginsWithExpression, BeginsWithNone, IsBody, IsNoBody};

use crate::kind::Kind;
use crate::scan::{ScanError, place_of, scan};
use crate::stack::Stack;
use std::alloc::Global;

/// Takes an expression from the front of bytes: instructions, and the `end` that no block has.
/// Returns the types that it names, from left to right (WebAssembly core specification, "Binary
/// Format", "Expressions").
///
/// # Errors
///
/// [`ScanError::Malformed`] comes where no expression begins the bytes. [`ScanError::Memory`] comes
/// where memory was refused. After an error the input is as it was.
pub fn expression_types(alloc: Global, input: &mut &[u8]) -> Result<Vec<u32>, ScanError>
    // The input began with an expression, which was taken, and these are the types that it names.
    ensures found { IfOk result (λ types.
        BeginsWithExpression input.old.now input.new.now types.items) }
    // No expression begins an input that is refused.
    ensures refused { IfErr result (λ e. BeginsWithNone input.old.now e) }
    // After an error the input is as it was.
    ensures unchanged { OnErr result (input.new ≡ input.old) }
{
    let mut rest = *input;
    let end = input.len();
    let types = scan(alloc, Stack::new(alloc, Kind::Expression), &mut rest, end)?;
    *input = rest;
    Ok(types)
}

/// Returns the types that a function body names, from left to right: those of its locals, and those
/// of its instructions. `content` is what the body has after its size (WebAssembly core
/// specification, "Binary Format", "Code Section").
///
/// # Errors
///
/// [`ScanError::Malformed`] comes where the bytes are no function body. [`ScanError::Memory`] comes
/// where memory was refused.
pub fn body_types(alloc: Global, content: &[u8]) -> Result<Vec<u32>, ScanError>
    // The bytes are a function body, and these are the types that it names.
    ensures found { IfOk result (λ types. IsBody content.now types.items) }
    // Bytes that are refused are no function body.
    ensures refused { IfErr result (λ e. IsNoBody content.now e) }
{
    types_of_body(alloc, content, content.len())
}

/// The types that a function body names, which ends at the place `end`.
pub fn types_of_body(alloc: Global, content: &[u8], end: usize) -> Result<Vec<u32>, ScanError>
    ensures found { IfOk result (λ types. IsBody content.now types.items) }
    ensures refused { IfErr result (λ e. IsNoBody content.now e) }
{
    let mut kinds = Stack::new(alloc, Kind::Expression);
    kinds.push(Kind::Locals)?;
    let mut rest = content;
    let types = scan(alloc, kinds, &mut rest, end)?;
    if !rest.is_empty() {
        return Err(ScanError::Malformed {
            offset: place_of(rest, end),
        });
    }
    Ok(types)
}

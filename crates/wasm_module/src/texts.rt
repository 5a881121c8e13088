//! Bytes that are a text of the kinds of a row, and nothing else.
ghost use Rattle.std.specs.Prelude.{IfOk, IfErr};
ghost use Rattle.wasm_module.specs.Bodies.{Names};
ghost use Rattle.wasm_module.specs.Steps.Contents.{NamesNo};
ghost use Rattle.wasm_module.specs.Steps.Heads.{kinds_or_none};
ghost use Rattle.wasm_module.specs.Steps.Tables.{row_kinds};

use crate::kind::Immediates;
use crate::scan::{ScanError, place_of, scan};
use crate::stack::Stack;
use std::alloc::Global;

/// The types that a text of these kinds names, if the bytes are one.
pub fn text_types(
    alloc: Global,
    row: Immediates,
    bytes: &[u8],
    end: usize,
) -> Result<Vec<u32>, ScanError>
    ensures found { IfOk result (λ types.
        Names (kinds_or_none (row_kinds row)) bytes.now types.items) }
    ensures refused { IfErr result (λ e. NamesNo (kinds_or_none (row_kinds row)) bytes.now e) }
{
    let kinds = Stack::from_immediates(alloc, row)?;
    let mut rest = bytes;
    let types = scan(alloc, kinds, &mut rest, end)?;
    if !rest.is_empty() {
        return Err(ScanError::Malformed {
            offset: place_of(rest, end),
        });
    }
    Ok(types)
}

//! Modules with their types in canonical form. They are put together by hand from the
//! specification's grammar, and so are the results.
mod equal_types;
mod hazards;
mod refusals;
mod strict_calls;

use std::test::*;
use wasm_normalise::{Descriptions, NormaliseOptions, UnusedTypes, Widths};

#[test]
fn by_default_indices_are_shortest_and_all_else_is_kept(rt: HostRuntime) {
    let wanted = NormaliseOptions {
        widths: Widths::Shortest,
        descriptions: Descriptions::Kept,
        unused: UnusedTypes::Kept,
    };
    assert_eq!(rt; NormaliseOptions::default(), wanted);
}

//! The walk in order, on worked bodies.
mod refusals;
mod used_ids;
mod walks;

use crate::assertions::assert_equal;
use crate::bodies::{NOTHING, add, block, chain, empty, id};
use crate::lists::hold;
use std::alloc::{AllocError, Global};
use std::process::Abort;
use walrus_body::{FunctionBuilder, LocalFunction};
use walrus_ir::{Instr, InstrSeqType};

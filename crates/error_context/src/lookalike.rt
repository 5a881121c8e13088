//! What the input looks like if it is no module.
ghost use Rattle.std.specs.Prelude.{◌≡◌, false, IsTrue, IfNone, IfSome};
ghost use Rattle.error_context.specs.Lookalikes.{BeginsWith, IsComponent, IsText, LooksLike};
ghost use Rattle.error_context.specs.declared.lookalike.Lookalike.{Lookalike};

use std::fmt;
use std::fmt::Formatter;

/// What bytes look like that are no module.
#[derive(Clone, Copy, PartialEq, Eq, Debug)]
pub enum Lookalike {
    /// A component: its version field has layer 1.
    Component,
    /// Data that was compressed by gzip.
    Gzip,
    /// LLVM bitcode.
    Bitcode,
    /// A module in the text format of WebAssembly.
    Text,
}

/// The magic number, with which modules and components begin.
const MAGIC: [u8; 4] = [0x00, 0x61, 0x73, 0x6D];

/// The place of the layer in the version field.
const LAYER_PLACE: usize = 6;

/// The layer of components. That of modules is 0.
const LAYER_OF_COMPONENTS: [u8; 2] = [1, 0];

const GZIP: [u8; 2] = [0x1F, 0x8B];

const BITCODE: [u8; 4] = [0x42, 0x43, 0xC0, 0xDE];

/// What the bytes look like.
pub fn looks_like(bytes: &[u8]) -> Option<Lookalike>
    ensures found { IfSome result (λ kind. LooksLike kind bytes.now) }
    ensures none { IfNone result ((kind : Lookalike) → ¬ LooksLike kind bytes.now) }
{
    if is_component(bytes) {
        return Some(Lookalike::Component);
    }
    if begins_with(bytes, &GZIP) {
        return Some(Lookalike::Gzip);
    }
    if begins_with(bytes, &BITCODE) {
        return Some(Lookalike::Bitcode);
    }
    if is_text(bytes) {
        return Some(Lookalike::Text);
    }
    None
}

fn is_component(bytes: &[u8]) -> bool
    ensures yes { IsTrue result → IsComponent bytes.now }
    ensures no { result ≡ false → ¬ IsComponent bytes.now }
{
    bytes.len() >= LAYER_PLACE
        && begins_with(bytes, &MAGIC)
        && begins_with(&bytes[LAYER_PLACE..], &LAYER_OF_COMPONENTS)
}

#[tactic(auto, using(crate::proofs::Lookalikes::no_text))]
fn is_text(bytes: &[u8]) -> bool
    ensures yes { IsTrue result → IsText bytes.now }
    ensures no { result ≡ false → ¬ IsText bytes.now }
{
    begins_with(bytes.trim_ascii_start(), b"(module")
}

#[tactic(auto, using(crate::proofs::Lookalikes::does_not_begin))]
fn begins_with(bytes: &[u8], front: &[u8]) -> bool
    ensures yes { IsTrue result → BeginsWith front.now bytes.now }
    ensures no { result ≡ false → ¬ BeginsWith front.now bytes.now }
{
    bytes.starts_with(front)
}

impl fmt::Display for Lookalike {
    fn fmt<W: fmt::Write>(&self, f: &mut Formatter<W>) -> fmt::Result {
        match self {
            Lookalike::Component => write!(f, "a component"),
            Lookalike::Gzip => write!(f, "gzip data"),
            Lookalike::Bitcode => write!(f, "LLVM bitcode"),
            Lookalike::Text => write!(f, "a module in the text format"),
        }
    }
}
